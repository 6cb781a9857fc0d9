// The public calls on the entry tables. Every call but format takes all four tables and a work list, tests sizes and soundness, and then does its work by
// the call inside that requires soundness. What each promises on all inputs stands in the specs of tree_promises.
// Directories and files have a call each, as the C interface names them: two lines, the gate and the call inside on that table.
#![tactic(auto)]

pub mod carry;
pub mod change;
pub mod format;
pub mod look;
pub mod name;
pub mod opens;
