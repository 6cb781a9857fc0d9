// Builds the history of every sound table of up to 4 blocks and of a worn one of 1,000, runs each by create and delete from a formatted table, compares what
// it makes with the table in the entries that the rules read, and writes the counts.
#![tactic(auto)]

mod replay;
mod small;
mod tally;
mod worn;

use small::all;
use tally::{Tally, both, say};

// The tables of one block. The other table holds bytes that are no table, and is formatted.
fn one() -> Tally {
    let mut table = [0u8; 16];
    let mut other = [165u8; 16];
    all(1, &mut table, &mut other, &[0u8; 512])
}

fn two() -> Tally {
    let mut table = [0u8; 24];
    let mut other = [165u8; 24];
    all(2, &mut table, &mut other, &[0u8; 1024])
}

fn three() -> Tally {
    let mut table = [0u8; 32];
    let mut other = [165u8; 32];
    all(3, &mut table, &mut other, &[0u8; 1536])
}

fn four() -> Tally {
    let mut table = [0u8; 40];
    let mut other = [165u8; 40];
    all(4, &mut table, &mut other, &[0u8; 2048])
}

// All tables of up to four blocks, with a line for each number of blocks.
fn up_to_four() {
    let a = one();
    say(b"tables of 1 block", a);
    let b = two();
    say(b"tables of 2 blocks", b);
    let c = three();
    say(b"tables of 3 blocks", c);
    let d = four();
    say(b"tables of 4 blocks", d);
    say(b"all of these", both(both(a, b), both(c, d)));
}

// Writes the number that retrace answers.
fn answer(what: &[u8], table: &[u8], work: &mut [u32], list: &mut [u32]) {
    let retraced = fat_retrace::retrace(table, work, list);
    io::write_all(1, what);
    io::write_all(1, b": ");
    io::print_decimal(1, order::number(&retraced) as u64);
    io::write_all(1, b"\n");
}

// Each refusal of retrace.
fn refusals() {
    let mut table = [0u8; 24];
    let mut work = [0u32; 2];
    let mut short = [0u32; 1];
    let mut list = [0u32; 9];
    answer(b"history of no table", &[0u8; 0], &mut work, &mut list);
    answer(b"history of no block", &[0u8; 8], &mut work, &mut list);
    answer(b"with a short work list", &table, &mut short, &mut list);
    answer(b"history of zeros", &table, &mut work, &mut list);
    let _ = fat_node::format(&mut table);
    answer(
        b"with a list of 9 places for 2 blocks",
        &table,
        &mut work,
        &mut list,
    );
}

fn main() {
    refusals();
    up_to_four();
    let w = worn::worn();
    say(b"its history", w);
}
