// Runs the history of a table from a formatted one, and compares what it makes with the table.
ghost use Rattle.std.specs.Prelude.{◌<◌, ◌≤◌};

// The top bit of a word of an entry.
const FLAG: u32 = 1 << 31;

// The length of a block.
const BLOCK: usize = 512;

// A table that its history made again: the number of the history's calls, and the table's nodes.
#[derive(Clone, Copy)]
pub struct Again {
    pub calls: usize,
    pub nodes: usize,
}

// The word at a byte of a table; past its end 0.
fn word(table: &[u8], at: usize) -> u32 {
    if table.len() < 4 || table.len() - 4 < at {
        return 0;
    }
    words::get_u32(table, at)
}

// Whether entry e is the same in both tables.
fn same_entry(a: &[u8], b: &[u8], e: usize) -> bool {
    e <= 1000000 && word(a, 8 * e) == word(b, 8 * e) && word(a, 8 * e + 4) == word(b, 8 * e + 4)
}

// The block after the node that starts at block b.
fn end_at(table: &[u8], b: usize) -> usize
    requires { b < 1000000 }
    ensures { b < result }
{
    if word(table, 8 * b + 12) < FLAG {
        return b + 1;
    }
    (word(table, 8 * b + 20) as usize).max(b + 1)
}

// Whether the one, two or three entries of the node from block b to end are the same.
fn same_node(a: &[u8], b: &[u8], block: usize, end: usize) -> bool
    requires { block < 1000000 }
{
    same_entry(a, b, block + 1)
        && (end == block + 1 || same_entry(a, b, block + 2) && same_entry(a, b, end))
}

// How many nodes two tables of n blocks have, where they are the same in the entries that the rules read.
fn compare(a: &[u8], b: &[u8], n: usize) -> Option<usize>
    requires { n ≤ 1000000 }
{
    if !same_entry(a, b, 0) {
        return None;
    }
    let mut nodes: usize = 0;
    let mut block: usize = 0;
    while block < n {
        let end = end_at(a, block);
        if !same_node(a, b, block, end) {
            return None;
        }
        block = end;
        nodes += 1;
    }
    Some(nodes)
}

// One call of a history; whether it was answered Done.
fn call(table: &mut [u8], data: &[u8], work: &mut [u32], what: u32, number: u32) -> bool {
    if what == 0 {
        return fat::create(table, data, BLOCK, work, number as usize).is_ok();
    }
    fat::delete(table, data, BLOCK, work, number as usize).is_ok()
}

// A place of a list; past its end 0.
fn place(list: &[u32], i: usize) -> u32 {
    if i < list.len() { list[i] } else { 0 }
}

// Runs so many calls of a history, up to the first that is not answered Done; tells whether all were.
fn replay(table: &mut [u8], data: &[u8], work: &mut [u32], list: &[u32], calls: usize) -> bool
    requires { calls ≤ 1000000 }
{
    for k in 0..calls {
        let what = place(list, 2 * k);
        let number = place(list, 2 * k + 1);
        if !call(table, data, work, what, number) {
            return false;
        }
    }
    true
}

// Builds the history of a table of n blocks, runs it on another table of its length, which is formatted first, and compares the two. None where the history did
// not make the table again.
pub fn remade(
    table: &[u8],
    n: usize,
    other: &mut [u8],
    data: &[u8],
    work: &mut [u32],
    list: &mut [u32],
) -> Option<Again>
    requires { n ≤ 1000000 }
{
    let calls = fat_retrace::retrace(table, work, list).ok()?;
    if 1000000 < calls || fat_node::format(other).is_err() {
        return None;
    }
    if !replay(other, data, work, list, calls) {
        return None;
    }
    let nodes = compare(table, other, n)?;
    Some(Again { calls, nodes })
}
