// The definition of conversion, in specs/: what each row becomes by its role, the rule of targets (ECMA-262 13.15.1, 13.15.5), and what its entry answers. Laws in proofs/. No code.
#![tactic(auto)]
