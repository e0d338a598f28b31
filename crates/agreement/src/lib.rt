// Theorem: the box's reader and the plain one read the same, in proofs/; the words of it in specs/. No code.
#![tactic(auto)]
