// Chains laid anew, and a window of blocks taken out of a chain in place. Definitions and laws, and no code.

#![tactic(auto)]
