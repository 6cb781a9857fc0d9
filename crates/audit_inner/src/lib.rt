// The audit of the two layers together, on sound tables: it requires soundness and tests nothing. Each chain's length is counted once, each inode and
// each block looked at twice: the findings are counted, and then written.
#![tactic(auto)]

ghost use Rattle.std.specs.Prelude.{◌≡◌, false, List, [], ◌∷◌, ◌++◌, ℕ, ◌+◌, ◌*◌, ◌/◌, ◌≤◌, ◌<◌, length};
ghost use Rattle.std.specs.Result.{result_unwrap_or};
ghost use Rattle.order.specs.Answer.{answer_of};
ghost use Rattle.fat_table.specs.Sound.{IsNode};
ghost use Rattle.fat_table.specs.Chain.{head_at, total, chain_at};
ghost use Rattle.fat_walk.specs.Volume.{Volume};
ghost use Rattle.fat_walk.specs.Inner.Chains.{ChainFrom};
ghost use Rattle.audit_inner.specs.Findings.{Finding, finding, when};
ghost use Rattle.audit_inner.specs.Volume.{record_size, count_of, chain_of};
ghost use Rattle.audit_inner.specs.Calls.{audit_gives};
ghost use Rattle.audit_inner.specs.Inner.Marks.{Files, Ready, Clear, Lengths, Start, Gone, ChainSays, FileSays, Wrote, Put, PutFile, FilesSay, LostSays, BlocksSay, SweepSays, ReportSays, AuditSays};

use fat_walk::Sought;
use order::Refusal;

// The width of a file's entry, and where its record has its first block and its size.
const FILE: usize = tree_key::SaveExtFileEntry::WIDTH;

const BLOCK: usize = tree_key::SaveExtFileEntry::CARRIED + 4;

const SIZE: usize = tree_key::SaveExtFileEntry::CARRIED + 8;

const SIZE_HIGH: usize = tree_key::SaveExtFileEntry::CARRIED + 12;

// The flag in the mark of a chain that a file names.
const NAMED: u32 = 2147483648;

// The number of blocks of the chain that index first starts.
fn count_of(table: &[u8], n: usize, first: usize) -> usize
    requires { ChainFrom n table.now first }
    ensures { result ≡ total (chain_at table.now n first) }
{
    match fat_walk::seek(table, n, first, n + 1) {
        Sought::Within { .. } => 0,
        Sought::Past { part, .. } => n + 1 - part,
    }
}

// The number of blocks of the file chain that the node at block b starts, 0 where it starts none.
fn chain_at(table: &[u8], n: usize, head: usize, b: usize) -> u32
    requires volume { Volume n table.now }
    requires node { IsNode table.now n b }
    requires head_value { head ≡ head_at table.now }
    ensures { result ≡ chain_of n table.now b }
{
    if fat_node::prev_of(table, b) != 0 || head == b + 1 {
        return 0;
    }
    count_of(table, n, b + 1) as u32
}

// Marks each block where a file chain starts with the chain's length, hopping by node.
fn mark_chains(table: &[u8], n: usize, work: &mut [u32])
    requires volume { Volume n table.now }
    requires n_in_bounds { n ≤ length work.old }
    requires clear { Clear 0 work.old }
    ensures { Lengths n table.now work.old work.new }
{
    let head = fat_walk::head_of(table);
    let mut b: usize = 0;
    while b < n {
        work[b] = chain_at(table, n, head, b);
        b += fat_walk::size_at(table, n, b);
    }
}

// Marks the removed inodes, behind the marks of the blocks.
fn mark_removed(file_table: &[u8], n: usize, work: &mut [u32])
    requires files { Files file_table.now }
    requires file_table_in_bounds { n + count_of file_table.now ≤ length work.old }
    requires n_bound { n ≤ 1000000 }
    requires clear { Clear n work.old }
    ensures { Gone n file_table.now work.old work.new }
{
    let count = tree_table::link_of(file_table, FILE, tree_table::COUNT, 0);
    let first = tree_table::link_of(file_table, FILE, tree_key::SaveExtFileEntry::COLLISION, 0);
    tree_marks::mark_list(
        file_table,
        FILE,
        tree_key::SaveExtFileEntry::COLLISION,
        count,
        first,
        work,
        n,
        tree_marks::GONE,
    );
}

// Marks the chains and the removed inodes.
pub fn mark(table: &[u8], n: usize, file_table: &[u8], work: &mut [u32])
    requires volume { Volume n table.now }
    requires files { Files file_table.now }
    requires file_table_in_bounds { n + length file_table.now / 48 ≤ length work.old }
    requires clear { Clear 0 work.old }
    ensures { Start n (chain_of n table.now) file_table.now work.new }
{
    mark_chains(table, n, work);
    mark_removed(file_table, n, work);
}

// The size that a file's record names.
fn size_of(file_table: &[u8], y: u32) -> usize
    requires { y * 48 + 48 ≤ length file_table.now }
    ensures { result ≡ record_size file_table.now y }
{
    let low = tree_table::link_of(file_table, FILE, SIZE, y);
    let high = tree_table::link_of(file_table, FILE, SIZE_HIGH, y);
    low as usize + 4294967296 * high as usize
}

// Which findings an inode has: its block is no file chain's first; a file of lower inode names the same chain; its size is over the chain's bytes.
#[derive(Clone, Copy, Default)]
pub struct Judged {
    pub astray: bool,
    pub shared: bool,
    pub over: bool,
}

// Judges a file of size above 0 by the mark of the block that it names, and flags that mark.
fn judge_chain(n: usize, block_len: usize, b: usize, size: usize, work: &mut [u32]) -> Judged
    requires n_in_bounds { n ≤ length work.old }
    requires block_len_bound { block_len ≤ 65536 }
    ensures { ChainSays n block_len b size work.old work.new result }
{
    if n <= b || work[b] == 0 {
        return Judged {
            astray: true,
            shared: false,
            over: false,
        };
    }
    let m = work[b];
    let blocks = m % NAMED;
    work[b] = blocks + NAMED;
    Judged {
        astray: false,
        shared: NAMED <= m,
        over: (blocks as usize) * block_len < size,
    }
}

// Judges inode y. One that is not live or has size 0 has no finding and names no chain.
fn judge_file(file_table: &[u8], n: usize, block_len: usize, y: u32, work: &mut [u32]) -> Judged
    requires y_nonzero { (0 < y) × (y < count_of file_table.now) × (y * 48 + 48 ≤ length file_table.now) }
    requires file_table_in_bounds { n + count_of file_table.now ≤ length work.old }
    requires n_bound { (n ≤ 1000000) × (block_len ≤ 65536) }
    ensures { FileSays n block_len file_table.now y work.old work.new result }
{
    if work[n + tree_table::index(y)] != 0 {
        return Judged::default();
    }
    let size = size_of(file_table, y);
    if size == 0 {
        return Judged::default();
    }
    let b = tree_table::link_of(file_table, FILE, BLOCK, y);
    judge_chain(n, block_len, tree_table::index(b), size, work)
}

// Writes a finding to its two places, if the list has them.
fn write(list: &mut [u32], found: usize, kind: u32, number: u32)
    requires { found ≤ 2000000 }
    ensures { (list₀ : List ℕ) (out : List Finding) → found ≡ length out → Wrote list₀ out list.old → Wrote list₀ (out ++ finding kind number ∷ []) list.new }
{
    let at = 2 * found;
    if list.len() < at + 2 {
        return;
    }
    list[at] = kind;
    list[at + 1] = number;
}

// Writes a finding where it applies, and answers how many there are then.
fn put(list: &mut [u32], found: usize, is: bool, kind: u32, number: u32) -> usize
    requires { found ≤ 2000000 }
    ensures { Put found (when is (finding kind number)) list.old list.new result }
{
    if !is {
        return found;
    }
    write(list, found, kind, number);
    found + 1
}

// Writes the findings of inode y, by their kinds.
fn put_file(list: &mut [u32], found: usize, judged: Judged, y: u32) -> usize
    requires { found ≤ 1000000 }
    ensures { PutFile found judged y list.old list.new result }
{
    let astray = put(list, found, judged.astray, 1, y);
    let shared = put(list, astray, judged.shared, 2, y);
    put(list, shared, judged.over, 3, y)
}

// Goes along the inodes: their findings, in their order.
fn audit_files(
    file_table: &[u8],
    n: usize,
    block_len: usize,
    work: &mut [u32],
    list: &mut [u32],
) -> usize
    requires files { Files file_table.now }
    requires file_table_in_bounds { n + count_of file_table.now ≤ length work.old }
    requires n_bound { (n ≤ 1000000) × (block_len ≤ 65536) }
    ensures { FilesSay n block_len file_table.now work.old list.old work.new list.new result }
{
    let count = tree_table::link_of(file_table, FILE, tree_table::COUNT, 0);
    let mut found: usize = 0;
    for y in 1..count {
        let judged = judge_file(file_table, n, block_len, y, work);
        found = put_file(list, found, judged, y);
    }
    found
}

// Whether a mark is that of a chain that no file names.
fn is_lost(m: u32) -> bool
    ensures { LostSays m result }
{
    m != 0 && m < NAMED
}

// Goes along the blocks: the chains that no file names, in their order. The flags are taken away.
fn audit_blocks(n: usize, found: usize, work: &mut [u32], list: &mut [u32]) -> usize
    requires n_in_bounds { n ≤ length work.old }
    requires n_bound { (n ≤ 1000000) × (found ≤ 200000) }
    ensures { BlocksSay n found work.old list.old work.new list.new result }
{
    let mut count = found;
    for b in 0..n {
        let m = work[b];
        work[b] = m % NAMED;
        count = put(list, count, is_lost(m), 4, b as u32);
    }
    count
}

// Goes along the inodes and then along the blocks. The findings are written if the list has room for them all, and counted in any case.
pub fn sweep(
    file_table: &[u8],
    n: usize,
    block_len: usize,
    work: &mut [u32],
    list: &mut [u32],
) -> usize
    requires files { Files file_table.now }
    requires file_table_in_bounds { n + count_of file_table.now ≤ length work.old }
    requires n_bound { (n ≤ 1000000) × (block_len ≤ 65536) }
    ensures { SweepSays n block_len file_table.now work.old list.old work.new list.new result }
{
    let found = audit_files(file_table, n, block_len, work, list);
    audit_blocks(n, found, work, list)
}

// Counts the findings in no list at all, and writes them if the list can hold them.
fn report(
    file_table: &[u8],
    n: usize,
    block_len: usize,
    work: &mut [u32],
    list: &mut [u32],
) -> Result<usize, Refusal>
    requires files { Files file_table.now }
    requires file_table_in_bounds { n + count_of file_table.now ≤ length work.old }
    requires n_bound { (n ≤ 1000000) × (block_len ≤ 65536) }
    ensures { ReportSays n block_len file_table.now work.old list.old (audit_gives (answer_of result) (result_unwrap_or result 0) list.new) }
{
    let count = sweep(file_table, n, block_len, work, &mut list[..0]);
    if list.len() < 2 * count {
        return Err(Refusal::ListTooShort);
    }
    sweep(file_table, n, block_len, work, list);
    Ok(count)
}

// The audit of a sound block table and a sound file table, with a work list of zeros.
pub fn audit_sound(
    table: &[u8],
    n: usize,
    block_len: usize,
    file_table: &[u8],
    work: &mut [u32],
    list: &mut [u32],
) -> Result<usize, Refusal>
    requires ready { Ready n table.now block_len file_table.now }
    requires file_table_in_bounds { n + length file_table.now / 48 ≤ length work.old }
    requires clear { Clear 0 work.old }
    ensures { AuditSays n table.now block_len file_table.now work.old list.old work.new (audit_gives (answer_of result) (result_unwrap_or result 0) list.new) }
{
    mark(table, n, file_table, work);
    let audited = report(file_table, n, block_len, work, list);
    order::clear(work);
    audited
}
