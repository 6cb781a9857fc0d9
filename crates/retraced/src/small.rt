// All tables of up to 4 blocks. A candidate is a number: which blocks start a node, each node's next, and the first free node. Each sound table is one
// candidate, and the test says which of the candidates are sound.
ghost use Rattle.std.specs.Prelude.{◌+◌, ◌<◌, ◌≤◌};

use crate::replay::remade;
use crate::tally::{Tally, count};

// The top bit of a word of an entry.
const FLAG: u32 = 1 << 31;

// 5 first free nodes, 16 sets of starts, 5 nexts for each of 4 blocks.
const CANDIDATES: u32 = 50000;

fn head_of(c: u32) -> u32 {
    c % 5
}

// Whether block b starts a node.
fn starts(c: u32, b: u32) -> bool {
    b < 4 && (c / 5 % 16) >> b & 1 == 1
}

// The index of the next of the node at block b.
fn next_of(c: u32, b: u32) -> u32 {
    let nexts = c / 80;
    match b {
        0 => nexts % 5,
        1 => nexts / 5 % 5,
        2 => nexts / 25 % 5,
        3 => nexts / 125 % 5,
        _ => 0,
    }
}

// The index of the node whose next is the one at block b, 0 for none.
fn prev_of(c: u32, b: u32) -> u32
    requires { b ≤ 3 }
{
    for x in 0..4 {
        if next_of(c, x) == b + 1 {
            return x + 1;
        }
    }
    0
}

// Whether block b does not go on with the node before it.
fn stops(c: u32, n: u32, b: u32) -> bool {
    n <= b || starts(c, b)
}

// The block after the node at block b.
fn end_of(c: u32, n: u32, b: u32) -> u32
    requires { b ≤ 3 }
    ensures { (b < result) × (result ≤ b + 4) }
{
    for end in b + 1..b + 4 {
        if stops(c, n, end) {
            return end;
        }
    }
    b + 4
}

// Whether a candidate says nothing of a block that starts no node, or is not there.
fn plain_at(c: u32, n: u32, b: u32) -> bool {
    if starts(c, b) {
        return b < n;
    }
    next_of(c, b) == 0
}

// Whether a candidate is a table of n blocks, sound or not.
fn plain(c: u32, n: u32) -> bool {
    head_of(c) <= n && starts(c, 0) && plain_at(c, n, 1) && plain_at(c, n, 2) && plain_at(c, n, 3)
}

// Writes a word of a table; past its end none.
fn put(table: &mut [u8], at: usize, v: u32) {
    if table.len() < 4 || table.len() - 4 < at {
        return;
    }
    words::put_u32(table, at, v);
}

// Writes both words of entry e.
fn put_entry(table: &mut [u8], e: u32, u: u32, v: u32)
    requires { e ≤ 8 }
{
    let at = e as usize * 8;
    put(table, at, u);
    put(table, at + 4, v);
}

// The first word of a start entry: the flag alone where there is no previous.
fn first_word(prev: u32) -> u32 {
    if prev == 0 { FLAG } else { prev }
}

// Writes the entries of the node at block b.
fn put_node(table: &mut [u8], c: u32, n: u32, b: u32)
    requires { b ≤ 3 }
{
    if !starts(c, b) {
        return;
    }
    let end = end_of(c, n, b);
    let u = first_word(prev_of(c, b));
    let next = next_of(c, b);
    if end == b + 1 {
        put_entry(table, b + 1, u, next);
        return;
    }
    put_entry(table, b + 1, u, FLAG + next % 5);
    put_entry(table, b + 2, FLAG + b + 1, end);
    put_entry(table, end, FLAG + b + 1, end);
}

fn build(table: &mut [u8], c: u32, n: u32) {
    put_entry(table, 0, 0, head_of(c));
    for b in 0..4 {
        put_node(table, c, n, b);
    }
}

// Counts a candidate if it is a sound table.
fn candidate(t: Tally, c: u32, n: u32, table: &mut [u8], other: &mut [u8], data: &[u8]) -> Tally
    requires { n ≤ 4 }
{
    if !plain(c, n) {
        return t;
    }
    let mut work = [0u32; 4];
    let mut list = [0u32; 20];
    build(table, c, n);
    if fat_test::test(table, &mut work).is_err() {
        return t;
    }
    count(
        t,
        remade(table, n as usize, other, data, &mut work, &mut list),
    )
}

// All tables of n blocks.
pub fn all(n: u32, table: &mut [u8], other: &mut [u8], data: &[u8]) -> Tally
    requires { n ≤ 4 }
{
    let mut t = Tally::default();
    for c in 0..CANDIDATES {
        t = candidate(t, c, n, table, other, data);
    }
    t
}
