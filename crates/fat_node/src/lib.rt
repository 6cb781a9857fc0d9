// Entries, nodes and the head of the block table, and its format.
//
// Every word of the table is read by words::get_u32 and written by words::put_u32, which compile to 32-bit loads and stores: look at
// mukthiban_fat_format in `objdump -d dist/x86_64-unknown-linux-gnu/libmukthiban.a`.
#![tactic(auto)]

ghost use Rattle.std.specs.Prelude.{◌≡◌, true, ℕ, ◌+◌, ◌*◌, ◌≤◌, ◌<◌, length};
ghost use Rattle.fat_node.specs.Entry.{entry, put, top, u_at, v_at};
ghost use Rattle.fat_node.specs.Node.{run, prev_at, next_at, NodeAt, prev_half, set_node, set_head};
ghost use Rattle.fat_node.specs.Sizes.{blocks, Misfit, Outside};
ghost use Rattle.fat_node.specs.Format.{FormatPromise};
ghost use Rattle.fat_node.specs.Inner.Reads.{SizeReads, Reads, HeadReads};
ghost use Rattle.fat_node.specs.Fault.{bad_start, bad_second, differs};

use order::{Fault, Refusal};

// A run of size blocks, with the indexes of the previous node and of the next: block numbers plus 1, or 0 for none.
#[derive(Clone, Copy)]
pub struct Node {
    pub size: usize,
    pub prev: usize,
    pub next: usize,
}

// Of a sound table: its free blocks, and the number of its other chains.
#[derive(Clone, Copy)]
pub struct Counts {
    pub free: usize,
    pub files: usize,
}

// The top bit of a word of an entry.
const FLAG: u32 = 2147483648;

// The first word of entry e.
#[tactic(auto, unfolding(crate::specs::Entry::get))]
pub fn u_of(table: &[u8], e: usize) -> u32
    requires { 8 * e + 8 ≤ length table.now }
    ensures { result ≡ u_at table.now e }
{
    words::get_u32(table, 8 * e)
}

// Its second word.
#[tactic(auto, unfolding(crate::specs::Entry::get))]
pub fn v_of(table: &[u8], e: usize) -> u32
    requires { 8 * e + 8 ≤ length table.now }
    ensures { result ≡ v_at table.now e }
{
    words::get_u32(table, 8 * e + 4)
}

// The index of the previous node of the node at block b.
pub fn prev_of(table: &[u8], b: usize) -> usize
    requires { 8 * b + 16 ≤ length table.now }
    ensures { result ≡ prev_at table.now b }
{
    (u_of(table, b + 1) % FLAG) as usize
}

// The index of its next node.
pub fn next_of(table: &[u8], b: usize) -> usize
    requires { 8 * b + 16 ≤ length table.now }
    ensures { result ≡ next_at table.now b }
{
    (v_of(table, b + 1) % FLAG) as usize
}

// The size of the node that is known to stand at block b.
pub fn size_of(table: &[u8], n: usize, b: usize) -> u32
    requires table_len { length table.now ≡ 8 * (n + 1) }
    requires b_lt_n { (b < n) × (n ≤ 1000000) }
    requires by_index { (s : ℕ) × NodeAt table.now n b s }
    ensures { NodeAt table.now n b result }
{
    if v_of(table, b + 1) < FLAG {
        return 1;
    }
    v_of(table, b + 2) - (b as u32)
}

// Whether u of a start entry has its flag and an index, or neither.
#[tactic(auto, unfolding(crate::specs::Fault::bad_start))]
fn bad_start(u: u32) -> bool
    ensures { result ≡ bad_start u }
{
    u == 0 || FLAG < u
}

// Whether u and v are not what the second entry of a node of several blocks at block b holds.
#[tactic(auto, unfolding(crate::specs::Fault::bad_second))]
fn bad_second(u: u32, v: u32, b: usize) -> bool
    requires { b ≤ 1000000 }
    ensures { result ≡ bad_second u v b }
{
    u as usize != 2147483648 + (b + 1) || FLAG <= v || (v as usize) < b + 2
}

// Whether entry e does not hold u and v.
#[tactic(auto, unfolding(crate::specs::Fault::differs))]
fn differs(table: &[u8], e: usize, u: u32, v: u32) -> bool
    requires { 8 * e + 8 ≤ length table.now }
    ensures { result ≡ differs table.now e u v }
{
    u_of(table, e) != u || v_of(table, e) != v
}

// The size of the node at block b, whose start entry says several blocks; or the first of rules 2 to 5 that is broken there.
#[tactic(auto, unfolding(crate::specs::Fault::span_fault, crate::specs::Fault::when))]
fn span_size(table: &[u8], n: usize, b: usize) -> Result<usize, Fault>
    requires table_len { length table.now ≡ 8 * (n + 1) }
    requires b_lt_n { (b < n) × (n ≤ 1000000) }
    ensures { SizeReads table.now n b result }
{
    if n < b + 2 {
        return Err(Fault {
            entry: b + 1,
            rule: 2,
        });
    }
    let u = u_of(table, b + 2);
    let v = v_of(table, b + 2);
    if bad_second(u, v, b) {
        return Err(Fault {
            entry: b + 2,
            rule: 3,
        });
    }
    let end = v as usize;
    if n < end {
        return Err(Fault {
            entry: b + 2,
            rule: 4,
        });
    }
    if differs(table, end, u, v) {
        return Err(Fault {
            entry: end,
            rule: 5,
        });
    }
    Ok(end - b)
}

// The node that stands at block b of n, or where it can't be read, and by which rule.
pub fn get_node(table: &[u8], n: usize, b: usize) -> Result<Node, Fault>
    requires table_len { length table.now ≡ 8 * (n + 1) }
    requires b_lt_n { (b < n) × (n ≤ 1000000) }
    ensures { Reads table.now n b result }
{
    let u = u_of(table, b + 1);
    let v = v_of(table, b + 1);
    if bad_start(u) {
        return Err(Fault {
            entry: b + 1,
            rule: 1,
        });
    }
    let size = if v < FLAG { 1 } else { span_size(table, n, b)? };
    Ok(Node {
        size,
        prev: (u % FLAG) as usize,
        next: (v % FLAG) as usize,
    })
}

// Writes both words of entry e.
#[tactic(auto, unfolding(crate::specs::Entry::put))]
fn set_entry(table: &mut [u8], e: usize, u: u32, v: u32)
    requires { 8 * e + 8 ≤ length table.old }
    ensures { table.new ≡ put table.old e (entry u v) }
{
    words::put_u32(table, 8 * e, u);
    words::put_u32(table, 8 * e + 4, v);
}

// u of a start entry: the flag is set exactly when there is no previous.
#[tactic(auto, unfolding(crate::specs::Node::prev_half))]
fn prev_half(prev: usize) -> u32
    requires { prev < top }
    ensures { result ≡ prev_half prev }
{
    if prev == 0 {
        return FLAG;
    }
    prev as u32
}

// Writes a node's one, two or three entries; those between its second and its last are left alone.
#[tactic(auto, unfolding(crate::specs::Node::set_node, crate::specs::Node::next_half))]
pub fn set_node(table: &mut [u8], n: usize, b: usize, node: Node)
    requires n_bound { (n ≤ 1000000) × (length table.old ≡ 8 * (n + 1)) }
    requires le_size { (1 ≤ node.size) × (b + node.size ≤ n) }
    requires prev_le_n { (node.prev ≤ n) × (node.next ≤ n) }
    ensures { table.new ≡ set_node table.old (run b node.size) node.prev node.next }
{
    let size = node.size;
    let next = node.next;
    let u = prev_half(node.prev);
    if size == 1 {
        set_entry(table, b + 1, u, next as u32);
    } else {
        set_entry(table, b + 1, u, FLAG + next as u32);
        let own = FLAG + (b + 1) as u32;
        let end = (b + size) as u32;
        set_entry(table, b + 2, own, end);
        set_entry(table, b + size, own, end);
    }
}

// The index of the first free node, 0 for none; or nothing, where the head has not its form.
pub fn get_head(table: &[u8]) -> Option<usize>
    requires { 8 ≤ length table.now }
    ensures { HeadReads table.now result }
{
    let v = v_of(table, 0);
    if u_of(table, 0) != 0 || FLAG <= v {
        return None;
    }
    Some(v as usize)
}

// Names the first free node in the head.
#[tactic(auto, unfolding(crate::specs::Node::set_head))]
pub fn set_head(table: &mut [u8], first: usize)
    requires { (first ≤ 1000000) × (8 ≤ length table.old) }
    ensures { table.new ≡ set_head table.old first }
{
    set_entry(table, 0, 0, first as u32);
}

// The number of blocks of a table.
pub fn blocks(table: &[u8]) -> usize
    ensures { result ≡ blocks table.now }
{
    (table.len() / 8).saturating_sub(1)
}

// Whether a table is under 8 bytes or no multiple of 8.
pub fn misfit(table: &[u8]) -> bool
    ensures { (result ≡ true → Misfit table.now) × (Misfit table.now → result ≡ true) }
{
    table.len() < 8 || table.len() % 8 != 0
}

// Whether a table has no block or more than a million.
pub fn outside(table: &[u8]) -> bool
    ensures { (result ≡ true → Outside table.now) × (Outside table.now → result ≡ true) }
{
    let n = blocks(table);
    n < 1 || 1000000 < n
}

// Makes of a table of any bytes one whose blocks are all free, in one node.
#[tactic(auto, unfolding(crate::specs::Format::formatted))]
pub fn format(table: &mut [u8]) -> Result<(), Refusal>
    ensures { FormatPromise table.old result table.new }
{
    if misfit(table) {
        return Err(Refusal::SizeMismatch);
    }
    if outside(table) {
        return Err(Refusal::InvalidValue);
    }
    let size = blocks(table);
    set_node(
        table,
        size,
        0,
        Node {
            size,
            prev: 0,
            next: 0,
        },
    );
    set_head(table, 1);
    Ok(())
}
