// The grammar as ECMA-262 prints it, in specs/. No code.
#![tactic(auto)]
