// The files of damaged tables, each with its path: theorems alone.

#![tactic(auto)]
