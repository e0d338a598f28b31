// The definition of a reading is exactly the standard's grammar, and the three demands of the entries, in proofs/; the words of the demands in specs/. No code.
#![tactic(auto)]
