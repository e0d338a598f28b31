// Theorems over the definition of a reading, in proofs/; the words that they are said in, in specs/. No code.
#![tactic(auto)]
