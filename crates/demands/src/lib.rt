// What is proved: the three demands, of the functions of the archive, and the theorems over the definitions. Statements, in specs/. No code.
#![tactic(auto)]
