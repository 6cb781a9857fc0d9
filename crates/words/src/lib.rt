// A little-endian u32 in a slice of bytes. Each compiles to one 32-bit load or store:
// `objdump -d dist/x86_64-unknown-linux-gnu/libmukthiban.a` shows it, plainest in mukthiban_fat_format.
#![tactic(auto)]

ghost use Rattle.std.specs.Prelude.{◌≡◌, ◌+◌, ◌*◌, ◌≤◌, length};
ghost use Rattle.words.specs.Word.{word, put_word};

// The word that stands at a place.
#[tactic(auto, unfolding(crate::specs::Word::word))]
pub fn get_u32(s: &[u8], at: usize) -> u32
    requires { at + 4 ≤ length s.now }
    ensures { result ≡ word s.now at }
{
    u32::from_le_bytes([s[at], s[at + 1], s[at + 2], s[at + 3]])
}

// Puts a word there.
#[tactic(auto, unfolding(crate::specs::Word::put_word))]
pub fn put_u32(s: &mut [u8], at: usize, w: u32)
    requires { at + 4 ≤ length s.old }
    ensures { s.new ≡ put_word s.old at w }
{
    let bytes = w.to_le_bytes();
    s[at] = bytes[0];
    s[at + 1] = bytes[1];
    s[at + 2] = bytes[2];
    s[at + 3] = bytes[3];
}
