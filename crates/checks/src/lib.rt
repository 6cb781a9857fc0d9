// The checks of RULES 8 that are proved: one list, one statement.

#![tactic(auto)]
