// The definition of a reading, in specs/: the grammar of ECMA-262 13.2 to 13.16, 14.3.3, 15.3 and 15.9 over token bytes; and what an entry answers and leaves. No code.
#![tactic(auto)]
