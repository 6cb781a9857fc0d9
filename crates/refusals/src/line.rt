// Reading a line of the input: `what was asked: name number number ..`. What stands before the colon is written before the answer; where nothing does, nothing
// is written.
ghost use Rattle.std.specs.Prelude.{◌≡◌, ◌≤◌, length};

// The next place of a byte, or the end.
pub fn find(text: &[u8], at: usize, byte: u8) -> usize
    requires { at ≤ length text.now }
    ensures { (at ≤ result) × (result ≤ length text.now) }
{
    let mut i = at;
    while i < text.len() {
        if text[i] == byte {
            return i;
        }
        i += 1;
    }
    i
}

// The place behind one, up to the end.
pub fn after(text: &[u8], at: usize) -> usize
    requires { at ≤ length text.now }
    ensures { (at ≤ result) × (result ≤ length text.now) }
{
    if at < text.len() {
        return at + 1;
    }
    at
}

// Where the next word begins.
fn next(text: &[u8], at: usize) -> usize
    requires { at ≤ length text.now }
    ensures { (at ≤ result) × (result ≤ length text.now) }
{
    let end = find(text, at, b' ');
    after(text, end)
}

// Whether two words are the same.
fn same(one: &[u8], other: &[u8]) -> bool {
    if one.len() != other.len() {
        return false;
    }
    let mut i: usize = 0;
    while i < one.len() && i < other.len() {
        if one[i] != other[i] {
            return false;
        }
        i += 1;
    }
    true
}

// The number of a word among names, or 255 where it is none of them.
fn number_of(names: &[u8], word: &[u8]) -> u32 {
    let mut at: usize = 0;
    let mut number: u32 = 0;
    while at < names.len() {
        let end = find(names, at, b' ');
        if same(&names[at..end], word) {
            return number;
        }
        number = std::num::wrapping_add_u32(number, 1);
        at = end + 1;
    }
    255
}

// Where the name with a number begins.
pub fn name_at(names: &[u8], number: u32) -> usize
    ensures { result ≤ length names.now }
{
    let mut at: usize = 0;
    let mut left = number;
    while left > 0 {
        at = next(names, at);
        left -= 1;
    }
    at
}

// Whether a dash takes the place of the name with a number.
pub fn is_dash(names: &[u8], number: u32) -> bool {
    let at = name_at(names, number);
    if at < names.len() {
        return names[at] == b'-';
    }
    false
}

fn ten_times(x: usize) -> usize {
    let two = std::num::wrapping_add_usize(x, x);
    let four = std::num::wrapping_add_usize(two, two);
    let eight = std::num::wrapping_add_usize(four, four);
    std::num::wrapping_add_usize(eight, two)
}

// A number with one digit more.
fn digit(x: usize, byte: u8) -> usize {
    let d = std::num::wrapping_sub_usize(byte as usize, 48);
    std::num::wrapping_add_usize(ten_times(x), d)
}

fn letter(byte: u8) -> usize {
    byte as usize
}

// The number that a word is; a letter stands for its byte, and no word for 0.
fn number(word: &[u8]) -> usize {
    let mut x: usize = 0;
    let mut i: usize = 0;
    while i < word.len() {
        if 57 < word[i] {
            return letter(word[i]);
        }
        x = digit(x, word[i]);
        i += 1;
    }
    x
}

// The number of the word at a place.
fn number_at(text: &[u8], at: usize) -> usize
    requires { at ≤ length text.now }
{
    let end = find(text, at, b' ');
    number(&text[at..end])
}

// What a line asks: the number of its name, and its numbers.
#[derive(Clone, Copy)]
pub struct Line {
    pub which: u32,
    pub a: usize,
    pub b: usize,
    pub c: usize,
    pub d: usize,
    pub e: usize,
    pub f: usize,
}

// A line with the first four numbers.
pub fn plain(a: usize, b: usize, c: usize, d: usize) -> Line {
    Line {
        which: 0,
        a,
        b,
        c,
        d,
        e: 0,
        f: 0,
    }
}

// The numbers behind the name of a line.
fn numbers(text: &[u8], which: u32, at: usize) -> Line
    requires { at ≤ length text.now }
{
    let b = next(text, at);
    let c = next(text, b);
    let d = next(text, c);
    let e = next(text, d);
    let f = next(text, e);
    Line {
        which,
        a: number_at(text, at),
        b: number_at(text, b),
        c: number_at(text, c),
        d: number_at(text, d),
        e: number_at(text, e),
        f: number_at(text, f),
    }
}

// Where the text of a line before its colon ends.
pub fn colon(text: &[u8]) -> usize
    ensures { result ≤ length text.now }
{
    find(text, 0, b':')
}

// Reads a line.
pub fn read(names: &[u8], text: &[u8]) -> Line {
    let colon = colon(text);
    let at = next(text, colon);
    let end = find(text, at, b' ');
    let which = number_of(names, &text[at..end]);
    let numbers_at = after(text, end);
    numbers(text, which, numbers_at)
}
