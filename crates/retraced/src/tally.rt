// Counts over many tables, and the line that is written of them.
use crate::replay::Again;
use std::num::wrapping_add_u64;

// The tables that were accepted, those that their history made again, the calls in all, and the most calls for a node in thousandths.
#[derive(Clone, Copy, Default)]
pub struct Tally {
    pub tables: u64,
    pub remade: u64,
    pub calls: u64,
    pub most: u64,
}

// Calls for a node, in thousandths.
fn ratio(calls: usize, nodes: usize) -> u64 {
    if 1000000 < calls || nodes == 0 {
        return 0;
    }
    (calls * 1000 / nodes) as u64
}

// One table more, and what its history made of it.
pub fn count(t: Tally, r: Option<Again>) -> Tally {
    let tables = wrapping_add_u64(t.tables, 1);
    let Some(again) = r else {
        return Tally { tables, ..t };
    };
    Tally {
        tables,
        remade: wrapping_add_u64(t.remade, 1),
        calls: wrapping_add_u64(t.calls, again.calls as u64),
        most: t.most.max(ratio(again.calls, again.nodes)),
    }
}

// The counts of two kinds of tables together.
pub fn both(a: Tally, b: Tally) -> Tally {
    Tally {
        tables: wrapping_add_u64(a.tables, b.tables),
        remade: wrapping_add_u64(a.remade, b.remade),
        calls: wrapping_add_u64(a.calls, b.calls),
        most: a.most.max(b.most),
    }
}

fn number(what: &[u8], n: u64) {
    io::write_all(1, what);
    io::print_decimal(1, n);
}

// A digit behind the point.
fn digit(n: u64) {
    io::print_decimal(1, n % 10);
}

// Writes the counts behind what they are of.
pub fn say(what: &[u8], t: Tally) {
    io::write_all(1, what);
    number(b": accepted ", t.tables);
    number(b", made again ", t.remade);
    number(b", calls in all ", t.calls);
    number(b", most calls for a node ", t.most / 1000);
    io::write_all(1, b".");
    digit(t.most / 100);
    digit(t.most / 10);
    digit(t.most);
    io::write_all(1, b"\n");
}
