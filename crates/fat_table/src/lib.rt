// Soundness of the block table, and its layouts.

#![tactic(auto)]
