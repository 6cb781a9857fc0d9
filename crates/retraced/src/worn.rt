// A worn table of 1,000 blocks.
ghost use Rattle.std.specs.Prelude.{◌<◌, ◌≤◌};

use crate::replay::remade;
use crate::tally::{Tally, count};
use fat_test::Counts;

// The block length, and the calls that wear the table.
const BLOCK: usize = 512;

const CALLS: u32 = 2000;

// The next of a row of numbers that look like chance.
fn next(x: u64) -> u64
    requires { x < 2147483648 }
    ensures { result < 2147483648 }
{
    (x * 1103515245 + 12345) % 2147483648
}

// One call by such a number: a create of up to 7 blocks, or a resize or a delete at some block, which may be refused.
fn wear_once(table: &mut [u8], data: &[u8], work: &mut [u32], x: u64)
    requires { x < 2147483648 }
{
    let kind = x / 65536 % 8;
    let block = (x / 1024 % 1000) as usize;
    let count = (x / 4096 % 7) as usize;
    let _ = match kind {
        0..=2 => fat::create(table, data, BLOCK, work, count + 1).map(|_| ()),
        3..=5 => fat::resize(table, data, BLOCK, work, block, 2 * count + 1),
        _ => fat::delete(table, data, BLOCK, work, block),
    };
}

fn wear(table: &mut [u8], data: &[u8], work: &mut [u32]) {
    let mut x: u64 = 11;
    for _ in 0..CALLS {
        x = next(x);
        wear_once(table, data, work, x);
    }
}

// Writes the free blocks and the files of a table.
fn tell(table: &[u8], work: &mut [u32]) {
    let t = fat_test::test(table, work).unwrap_or(Counts { free: 0, files: 0 });
    io::write_all(1, b"a worn table of 1,000 blocks: free ");
    io::print_decimal(1, t.free as u64);
    io::write_all(1, b", files ");
    io::print_decimal(1, t.files as u64);
}

// Makes a table again by its history, and writes the number of its nodes.
fn again(table: &[u8], data: &[u8], work: &mut [u32]) -> Tally {
    let mut other = [165u8; 8008];
    let mut list = [0u32; 5000];
    let r = remade(table, 1000, &mut other, data, work, &mut list);
    io::write_all(1, b", nodes ");
    io::print_decimal(1, r.map_or(0, |again| again.nodes) as u64);
    io::write_all(1, b"\n");
    count(Tally::default(), r)
}

// A table is worn, and made again.
pub fn worn() -> Tally {
    let mut table = [0u8; 8008];
    let mut work = [0u32; 1000];
    let data = [0u8; 512000];
    let _ = fat_node::format(&mut table);
    wear(&mut table, &data, &mut work);
    tell(&table, &mut work);
    again(&table, &data, &mut work)
}
