// Reading a record: filling a lent buffer from it, comparing with it, and its numbers.
ghost use Rattle.std.specs.Prelude.{◌≡◌, ◌+◌, ◌≤◌, length};

// Copies what is stored into a buffer, as far as both go.
pub fn fill(buf: &mut [u8], stored: &[u8]) {
    let mut i: usize = 0;
    while i < buf.len() && i < stored.len() {
        buf[i] = stored[i];
        i += 1;
    }
}

// The same for a list: each place has four bytes of the record.
pub fn fill_list(list: &mut [u32], stored: &[u8]) {
    let end = stored.len() / 4;
    let mut i: usize = 0;
    while i < list.len() {
        if end <= i {
            return;
        }
        list[i] = words::get_u32(stored, i * 4);
        i += 1;
    }
}

// Whether a buffer holds what is stored, from its first byte to its last.
pub fn holds(buf: &[u8], stored: &[u8]) -> bool {
    stored.starts_with(buf)
}

// The same as holds for a list.
pub fn holds_list(list: &[u32], stored: &[u8]) -> bool {
    let end = stored.len() / 4;
    let mut i: usize = 0;
    while i < list.len() {
        if end <= i {
            return false;
        }
        let word = words::get_u32(stored, i * 4);
        if list[i] != word {
            return false;
        }
        i += 1;
    }
    true
}

// A word as a number of eight bytes.
pub fn wide(word: u32) -> u64
    ensures { result ≡ word }
{
    word as u64
}

// A number of eight bytes.
pub fn number(kept: &[u8], at: usize) -> u64
    requires { at + 8 ≤ length kept.now }
{
    let low = words::get_u32(kept, at);
    let high = words::get_u32(kept, at + 4);
    wide(low) + wide(high) * 4294967296
}

// A number of eight bytes that is a count, a block or a position.
pub fn size(kept: &[u8], at: usize) -> usize
    requires { at + 8 ≤ length kept.now }
{
    let wide = number(kept, at);
    wide as usize
}

// A word that is a length.
pub fn room(kept: &[u8], at: usize) -> usize
    requires { at + 4 ≤ length kept.now }
{
    words::get_u32(kept, at) as usize
}

// Reads the next bytes of the input, as many as there is room for, to the front of a buffer.
pub fn piece(buf: &mut [u8], count: usize) {
    if buf.len() < count {
        io::read_full(0, buf);
        return;
    }
    io::read_full(0, &mut buf[0..count]);
}
