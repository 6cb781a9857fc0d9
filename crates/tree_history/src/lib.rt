// Whole histories of the calls on the entry tables: theorems, and no code.

#![tactic(auto)]
