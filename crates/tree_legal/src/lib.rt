// The names that a new entry may have.
#![tactic(auto)]

ghost use Rattle.std.specs.Prelude.{◌≡◌};
ghost use Rattle.tree_promises.specs.Legal.{torn, legal};

// Whether b is a nonzero byte behind a zero one.
fn tears(a: u8, b: u8) -> bool
    ensures { result ≡ torn a b }
{
    a == 0 && b != 0
}

// Whether a new entry may have the name: its first byte is not zero, and no nonzero byte follows a zero one.
pub fn is_legal(name: &[u8; 16]) -> bool
    ensures { result ≡ legal name.now }
{
    if name[0] == 0 {
        return false;
    }
    for i in 0..15 {
        if tears(name[i], name[i + 1]) {
            return false;
        }
    }
    true
}
