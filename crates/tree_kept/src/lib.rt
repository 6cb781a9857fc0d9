// Every step of the tree calls keeps soundness: theorems alone.

#![tactic(auto)]
