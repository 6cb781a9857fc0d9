// Whole histories of the calls on a block table: theorems, and no code.

#![tactic(auto)]
