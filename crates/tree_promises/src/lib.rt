// What the calls on the entry tables promise: their rows in order, and what Done gives.
// What a name is asked of.
#![tactic(auto)]

#[derive(Clone, Copy)]
pub enum Kind {
    Directory,
    File,
}
