// Volumes with a block length that is not in use: theorems, and no code.

#![tactic(auto)]
