// What the program writes.
use crate::line;

// A word behind a space.
fn spell(what: &[u8]) {
    io::write_all(1, b" ");
    io::write_all(1, what);
}

// A number behind a space.
pub fn number(x: u64) {
    io::write_all(1, b" ");
    io::print_decimal(1, x);
}

// The name of an answer's number.
fn name(number: u32) {
    match number {
        0 => spell(b"Done"),
        1 => spell(b"SizeMismatch"),
        2 => spell(b"InvalidValue"),
        3 => spell(b"WorkTooShort"),
        4 => spell(b"BrokenFat"),
        5 => spell(b"NotAFile"),
        6 => spell(b"NoSpace"),
        7 => spell(b"OutOfBound"),
        8 => spell(b"ListTooShort"),
        9 => spell(b"BrokenTree"),
        10 => spell(b"NotFound"),
        11 => spell(b"AlreadyExist"),
        12 => spell(b"Busy"),
        13 => spell(b"DeletingRoot"),
        14 => spell(b"NotEmpty"),
        15 => spell(b"IntoItself"),
        16 => spell(b"NotOpen"),
        17 => spell(b"TooManyOpens"),
        20 => spell(b"ReadOnlyVolume"),
        _ => spell(b"of no call"),
    }
}

// What was asked, with the answer's number and name.
pub fn answer(what: &[u8], x: u32) {
    io::write_all(1, what);
    io::write_all(1, b":");
    number(x as u64);
    name(x);
}

// The first fields of an answer.
pub fn fields(count: u32, one: u64, two: u64) {
    if 0 < count {
        number(one);
    }
    if 1 < count {
        number(two);
    }
}

// An entry of a block table, and the rule that it breaks.
pub fn place(entry: u64, rule: u32) {
    spell(b"entry");
    number(entry);
    spell(b"rule");
    number(rule as u64);
}

// The first places of a work list.
pub fn places(work: &[u32], count: usize) {
    let mut i: usize = 0;
    while i < work.len() && i < count {
        number(wide(work[i]));
        i += 1;
    }
}

// The name with a number, as what was asked, with the answer's number and name.
pub fn answer_of(names: &[u8], number: u32, x: u32) {
    let at = line::name_at(names, number);
    let end = line::find(names, at, b' ');
    io::write_all(1, b"  ");
    answer(&names[at..end], x);
}

// The end of a line.
pub fn end() {
    io::write_all(1, b"\n");
}

// A line of the input that asks nothing, as it stands; none that is empty or begins with `#`.
pub fn title(text: &[u8]) {
    if text.len() == 0 {
        return;
    }
    if text[0] == b'#' {
        return;
    }
    io::write_all(1, text);
    end();
}

// A place of a work list, as a field.
fn wide(place: u32) -> u64 {
    place as u64
}

// A number of the input as a word.
pub fn word(x: usize) -> u32 {
    (x % 4294967296) as u32
}

pub fn zero(bytes: &mut [u8]) {
    let mut i: usize = 0;
    while i < bytes.len() {
        bytes[i] = 0;
        i += 1;
    }
}

pub fn fill(list: &mut [u32], x: u32) {
    let mut i: usize = 0;
    while i < list.len() {
        list[i] = x;
        i += 1;
    }
}

// A number of the input as a byte.
pub fn byte(x: usize) -> u8 {
    (x % 256) as u8
}
