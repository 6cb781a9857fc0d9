// The block calls that the input asks.
ghost use Rattle.std.specs.Prelude.{◌≤◌, length};

use crate::line::Line;
use crate::{line, tell};
use ask_blocks::{Lent, Request, Said};

// What a line lends from there on: bytes of table and data, the block length, places of the work list.
#[derive(Clone, Copy)]
struct Volume {
    table: usize,
    data: usize,
    block_len: usize,
    work: usize,
}

fn lends(l: Line, volume: Volume) -> Volume {
    if l.which != 0 {
        return volume;
    }
    Volume {
        table: l.a,
        data: l.b,
        block_len: l.c,
        work: l.d,
    }
}

// Zeros in a table, and 7 in each place of a work list.
fn clear(table: &mut [u8], work: &mut [u32]) {
    tell::zero(table);
    tell::fill(work, 7);
}

// Writes an entry of a table.
fn entry(table: &mut [u8], e: usize, u: usize, v: usize) {
    if 8 < e {
        return;
    }
    if table.len() < 72 {
        return;
    }
    words::put_u32(table, e * 8, tell::word(u));
    words::put_u32(table, e * 8 + 4, tell::word(v));
}

// Writes a place of a list.
fn place(list: &mut [u32], i: usize, x: usize) {
    if i < list.len() {
        list[i] = tell::word(x);
    }
}

// A call; the list has as many places as the third number of the line says, the buffer as many bytes as the fourth.
fn ask(
    which: u32,
    l: Line,
    volume: Volume,
    table: &mut [u8],
    data: &mut [u8],
    work: &mut [u32],
    list: &mut [u32],
    buf: &mut [u8],
) -> Said {
    let request = Request {
        call: which.into(),
        block_len: volume.block_len,
        first: l.a,
        count: l.b,
    };
    let t = volume.table.min(table.len());
    let d = volume.data.min(data.len());
    let w = volume.work.min(work.len());
    let c = l.c.min(list.len());
    let b = l.d.min(buf.len());
    let lent = Lent {
        table: &mut table[..t],
        data: &mut data[..d],
        work: &mut work[..w],
        list: &mut list[..c],
        buf: &mut buf[..b],
    };
    ask_blocks::ask(request, lent)
}

// Where the block table is broken, as BrokenFat says.
fn broken_at(said: Said) {
    if said.number == 4 {
        tell::place(said.entry, said.rule);
    }
}

// The fields of an answer: two of test, with its work list, and one of open list, create, plans applied and found, create with a map, the stretch query and the kiosk's create; of
// BrokenFat also where the table is broken.
fn fields(which: u32, said: Said, volume: Volume, work: &[u32]) {
    match which {
        1 => {
            tell::fields(2, said.one, said.two);
            tell::places(work, volume.work);
        }
        2..=3 | 12..=13 | 15 | 18..=19 => tell::fields(1, said.one, 0),
        _ => {}
    }
    broken_at(said);
    tell::end();
}

// A call with its line; none where nothing stands before the colon.
fn one(
    text: &[u8],
    l: Line,
    volume: Volume,
    table: &mut [u8],
    data: &mut [u8],
    work: &mut [u32],
    list: &mut [u32],
    buf: &mut [u8],
) {
    let which = std::num::wrapping_sub_u32(l.which, 4);
    let said = ask(which, l, volume, table, data, work, list, buf);
    let colon = line::colon(text);
    if colon == 0 {
        return;
    }
    tell::answer(&text[0..colon], said.number);
    fields(which, said, volume, work);
}

// The line of a call among many.
fn tells(names: &[u8], which: u32, said: Said, volume: Volume, work: &[u32]) {
    let name = std::num::wrapping_add_u32(which, 4);
    tell::answer_of(names, name, said.number);
    fields(which, said, volume, work);
}

// The calls from one number to another, each of block 0 with the count or position 1, eight places and a byte.
fn every(
    names: &[u8],
    l: Line,
    volume: Volume,
    table: &mut [u8],
    data: &mut [u8],
    work: &mut [u32],
    list: &mut [u32],
    buf: &mut [u8],
) {
    let mut which = l.a;
    while which < l.b {
        let next = which + 1;
        let number = tell::word(which);
        let plain = line::plain(0, 1, 8, 1);
        let said = ask(number, plain, volume, table, data, work, list, buf);
        tells(names, number, said, volume, work);
        which = next;
    }
}

// What a line asks.
fn run(
    names: &[u8],
    text: &[u8],
    l: Line,
    volume: Volume,
    table: &mut [u8],
    data: &mut [u8],
    work: &mut [u32],
    list: &mut [u32],
    buf: &mut [u8],
) {
    let which = l.which;
    match which {
        0 => clear(table, work),
        1 => entry(table, l.a, l.b, l.c),
        2 => place(list, l.a, l.b),
        3 => every(names, l, volume, table, data, work, list, buf),
        255 => tell::title(text),
        _ => one(text, l, volume, table, data, work, list, buf),
    }
}

// The lines behind the names, one after the other.
fn lines(
    names: &[u8],
    script: &[u8],
    table: &mut [u8],
    data: &mut [u8],
    work: &mut [u32],
    list: &mut [u32],
    buf: &mut [u8],
) {
    let mut volume = Volume {
        table: 0,
        data: 0,
        block_len: 0,
        work: 0,
    };
    let mut at: usize = 0;
    while at < script.len() {
        let end = line::find(script, at, b'\n');
        let next = end + 1;
        let text = &script[at..end];
        let l = line::read(names, text);
        volume = lends(l, volume);
        run(names, text, l, volume, table, data, work, list, buf);
        at = next;
    }
}

pub fn all(names: &[u8], script: &[u8]) {
    let mut table = [0u8; 72];
    let mut data = [0u8; 65537];
    let mut work = [0u32; 8];
    let mut list = [0u32; 8];
    let mut buf = [0u8; 4];
    lines(
        names, script, &mut table, &mut data, &mut work, &mut list, &mut buf,
    );
}
