// What the calls of the block table promise: their rows in order, and what Done gives. There is no code here.

#![tactic(auto)]
