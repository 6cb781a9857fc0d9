// The tree calls that the input asks.
ghost use Rattle.std.specs.Prelude.{◌≤◌, length};

use crate::line::Line;
use crate::{line, tell};
use ask_tree::{Lent, Request, Said};
use tree_promises::Kind;

// What a line lends from there on: bytes of hashes and tables, places of the work list and of each list of open records, the last of which is the number of
// records.
#[derive(Clone, Copy)]
struct Tree {
    dir_hash: usize,
    dir_table: usize,
    file_hash: usize,
    file_table: usize,
    work: usize,
    opens: usize,
}

fn lends(l: Line, tree: Tree) -> Tree {
    if l.which != 0 {
        return tree;
    }
    Tree {
        dir_hash: l.a,
        dir_table: l.b,
        file_hash: l.c,
        file_table: l.d,
        work: l.e,
        opens: l.f,
    }
}

// Writes a byte of a table.
fn byte(table: &mut [u8], i: usize, x: usize) {
    if i < table.len() {
        table[i] = tell::byte(x);
    }
}

// Nothing open.
fn none(dir_opens: &mut [u32], file_opens: &mut [u32]) {
    tell::fill(dir_opens, 0);
    tell::fill(file_opens, 0);
}

// Writes a place of a list.
fn place(list: &mut [u32], i: usize, x: usize) {
    if i < list.len() {
        list[i] = tell::word(x);
    }
}

// A place of both lists of open records.
fn opens(dir_opens: &mut [u32], file_opens: &mut [u32], i: usize, x: usize) {
    place(dir_opens, i, x);
    place(file_opens, i, x);
}

// A name of one letter; a number from 65,536 on has another one behind a zero byte, and 0 has none.
fn named(letter: usize) -> [u8; 16] {
    let mut name = [0u8; 16];
    name[0] = tell::byte(letter);
    name[2] = tell::byte(letter / 65536);
    name
}

fn kind(which: u32) -> Kind {
    if which % 2 == 0 {
        return Kind::Directory;
    }
    Kind::File
}

// A call; the list has as many places as the fourth number of the line says.
fn ask(
    which: u32,
    l: Line,
    tree: Tree,
    dh: &mut [u8],
    d: &mut [u8],
    fh: &mut [u8],
    f: &mut [u8],
    dir_opens: &mut [u32],
    file_opens: &mut [u32],
) -> Said {
    let mut work = [0u32; 7];
    let mut list = [0u32; 7];
    let request = Request {
        call: (which / 2).into(),
        kind: kind(which),
        inode: tell::word(l.a),
        parent: tell::word(l.b),
        name: named(l.c),
        carried: [7u8; 20],
        dir_max: l.a,
        file_max: l.b,
    };
    let a = tree.dir_hash.min(dh.len());
    let b = tree.dir_table.min(d.len());
    let c = tree.file_hash.min(fh.len());
    let e = tree.file_table.min(f.len());
    let w = tree.work.min(work.len());
    let o = tree.opens.min(dir_opens.len());
    let p = tree.opens.min(file_opens.len());
    let n = l.d.min(list.len());
    let lent = Lent {
        dir_hash: &mut dh[..a],
        dir_table: &mut d[..b],
        file_hash: &mut fh[..c],
        file_table: &mut f[..e],
        work: &mut work[..w],
        dir_opens: &mut dir_opens[..o],
        file_opens: &mut file_opens[..p],
        list: &mut list[..n],
    };
    ask_tree::ask(&request, lent)
}

// The fields of an answer.
fn fields(which: u32, said: Said) {
    let number = which / 2;
    match number {
        2 | 14 => tell::fields(2, said.fields[0], said.fields[1]),
        3 | 6 | 8 | 10 => tell::fields(1, said.fields[0], 0),
        7 => {
            tell::fields(2, said.fields[0], said.fields[1]);
            tell::fields(2, said.fields[2], said.fields[3]);
        }
        _ => {}
    }
    tell::end();
}

// A call with its line; none where nothing stands before the colon.
fn one(
    text: &[u8],
    l: Line,
    tree: Tree,
    dh: &mut [u8],
    d: &mut [u8],
    fh: &mut [u8],
    f: &mut [u8],
    dir_opens: &mut [u32],
    file_opens: &mut [u32],
) {
    let which = std::num::wrapping_sub_u32(l.which, 6);
    let said = ask(which, l, tree, dh, d, fh, f, dir_opens, file_opens);
    let colon = line::colon(text);
    if colon == 0 {
        return;
    }
    tell::answer(&text[0..colon], said.number);
    fields(which, said);
}

// The line of a call among many; none where a dash takes its name's place.
fn tells(names: &[u8], which: u32, said: Said) {
    let name = std::num::wrapping_add_u32(which, 6);
    if line::is_dash(names, name) {
        return;
    }
    tell::answer_of(names, name, said.number);
    fields(which, said);
}

// The calls from one number to another, each with inode and parent 1 and the name a.
fn every(
    names: &[u8],
    l: Line,
    tree: Tree,
    dh: &mut [u8],
    d: &mut [u8],
    fh: &mut [u8],
    f: &mut [u8],
    dir_opens: &mut [u32],
    file_opens: &mut [u32],
) {
    let mut which = l.a;
    while which < l.b {
        let next = which + 1;
        let number = tell::word(which);
        let plain = line::plain(1, 1, 97, 7);
        let said = ask(number, plain, tree, dh, d, fh, f, dir_opens, file_opens);
        tells(names, number, said);
        which = next;
    }
}

// What a line asks.
fn run(
    names: &[u8],
    text: &[u8],
    l: Line,
    tree: Tree,
    dh: &mut [u8],
    d: &mut [u8],
    fh: &mut [u8],
    f: &mut [u8],
    dir_opens: &mut [u32],
    file_opens: &mut [u32],
) {
    let which = l.which;
    match which {
        0 => none(dir_opens, file_opens),
        1 => byte(d, l.a, l.b),
        2 => tell::zero(dh),
        3 => opens(dir_opens, file_opens, l.a, l.b),
        4 => every(names, l, tree, dh, d, fh, f, dir_opens, file_opens),
        255 => tell::title(text),
        _ => one(text, l, tree, dh, d, fh, f, dir_opens, file_opens),
    }
}

// The lines behind the names, one after the other.
fn lines(
    names: &[u8],
    script: &[u8],
    dh: &mut [u8],
    d: &mut [u8],
    fh: &mut [u8],
    f: &mut [u8],
    dir_opens: &mut [u32],
    file_opens: &mut [u32],
) {
    let mut tree = Tree {
        dir_hash: 0,
        dir_table: 0,
        file_hash: 0,
        file_table: 0,
        work: 0,
        opens: 0,
    };
    let mut at: usize = 0;
    while at < script.len() {
        let end = line::find(script, at, b'\n');
        let next = end + 1;
        let text = &script[at..end];
        let l = line::read(names, text);
        tree = lends(l, tree);
        run(names, text, l, tree, dh, d, fh, f, dir_opens, file_opens);
        at = next;
    }
}

pub fn all(names: &[u8], script: &[u8]) {
    let mut dh = [0u8; 262148];
    let mut d = [0u8; 160];
    let mut fh = [0u8; 12];
    let mut f = [0u8; 144];
    let mut dir_opens = [0u32; 9];
    let mut file_opens = [0u32; 9];
    lines(
        names,
        script,
        &mut dh,
        &mut d,
        &mut fh,
        &mut f,
        &mut dir_opens,
        &mut file_opens,
    );
}
