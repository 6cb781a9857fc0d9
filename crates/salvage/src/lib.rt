// One chain of a block table of any bytes, followed as far as it can be trusted.
//
// A turn of a loop is a node or a block, and a walk marks no block twice: what a call does is linear in the number of blocks, whatever stands in the table.
#![tactic(auto)]

ghost use Rattle.std.specs.Prelude.{◌≡◌, ◌+◌, ◌*◌, ◌≤◌, ◌<◌, length};
ghost use Rattle.std.proofs.lemmas.List.Edits.{sets};
ghost use Rattle.order.specs.Beside.{beside};
ghost use Rattle.fat_table.specs.Chain.{total};
ghost use Rattle.fat_promises.specs.Blocks.{blocks_of};
ghost use Rattle.salvage.specs.Follow.{missed, salvaged};
ghost use Rattle.salvage.specs.Calls.{chain_says, ChainPromise};
ghost use Rattle.salvage.specs.Inner.Walks.{LookSays, Tells, Below, TakeSays, WalkSays, ChainSays};

use fat_list::number_run;
use fat_node::Node;
use order::{Fault, Refusal};

// Why a node at block b is not taken whose previous is not p.
fn missed(p: usize, b: usize) -> Fault
    requires { b ≤ 1000000 }
    ensures { result ≡ missed p b }
{
    if p == 0 {
        return Fault {
            entry: b + 1,
            rule: 8,
        };
    }
    Fault { entry: p, rule: 7 }
}

// The node that stands at block b, for a walk whose last node index p names; or why the walk stops.
fn look_at(table: &[u8], n: usize, p: usize, b: usize) -> Result<Node, Fault>
    requires table_len { length table.now ≡ 8 * (n + 1) }
    requires n_bound { n ≤ 1000000 }
    ensures { LookSays n table.now p b result }
{
    if n <= b {
        return Err(Fault { entry: p, rule: 7 });
    }
    let node = fat_node::get_node(table, n, b)?;
    if node.prev != p {
        return Err(missed(p, b));
    }
    Ok(node)
}

// Gives the mark to size places from b on, of which none has it; or says that one has.
fn take(work: &mut [u32], b: usize, size: usize, mark: u32) -> bool
    requires { b + size ≤ length work.old }
    ensures { TakeSays work.old b size mark work.new result }
{
    for x in b..b + size {
        if work[x] == mark {
            return false;
        }
        work[x] = mark;
    }
    true
}

// Where a walk ended: how many blocks it followed, and why there are no more.
#[derive(Clone, Copy, PartialEq, Eq)]
pub struct Walked {
    pub count: usize,
    pub why: Fault,
}

// Follows the chain that a block starts, hopping by node, and marks its blocks. The mark stands nowhere in the work list before.
pub fn walk(table: &[u8], n: usize, work: &mut [u32], first: usize, mark: u32) -> Walked
    requires table_len { length table.now ≡ 8 * (n + 1) }
    requires n_bound { (n ≤ 1000000) × (first < n) × (length work.old ≡ n) }
    requires below { Below work.old mark }
    ensures { WalkSays n table.now first mark result.count result.why work.new }
{
    let mut i = first + 1;
    let mut p = 0;
    let mut count = 0;
    while i != 0 {
        let b = i - 1;
        match look_at(table, n, p, b) {
            Err(why) => return Walked { count, why },
            Ok(node) => {
                if !take(work, b, node.size, mark) {
                    let why = Fault { entry: p, rule: 7 };
                    return Walked { count, why };
                }
                count += node.size;
                p = i;
                i = node.next;
            }
        }
    }
    let why = Fault { entry: 0, rule: 0 };
    Walked { count, why }
}

// Writes the count blocks that a walk followed into a list that has room for them, from place from on.
pub fn number_chain(
    table: &[u8],
    n: usize,
    first: usize,
    count: usize,
    list: &mut [u32],
    from: usize,
)
    requires table_len { length table.now ≡ 8 * (n + 1) }
    requires n_bound { (n ≤ 1000000) × (first < n) }
    requires count_value { (count ≡ total (salvaged n table.now first).runs) × (from + count ≤ length list.old) }
    ensures { list.new ≡ sets list.old from (blocks_of (salvaged n table.now first).runs) }
{
    let mut i = first + 1;
    let mut at = 0;
    while at < count {
        let b = i - 1;
        let size = fat_node::size_of(table, n, b) as usize;
        number_run(list, from + at, b, size);
        at += size;
        i = fat_node::next_of(table, b);
    }
}

// Whether a node can be read at block b.
pub fn readable(table: &[u8], n: usize, b: usize) -> bool
    requires table_len { length table.now ≡ 8 * (n + 1) }
    requires n_bound { n ≤ 1000000 }
    ensures { Tells n table.now b result }
{
    b < n && fat_node::get_node(table, n, b).is_ok()
}

// Lists the blocks of the chain that a block starts, on a table of n blocks of any bytes. The work list has n places.
fn chain_sized(
    table: &[u8],
    n: usize,
    work: &mut [u32],
    first: usize,
    list: &mut [u32],
) -> Result<Walked, Refusal>
    requires table_len { length table.now ≡ 8 * (n + 1) }
    requires n_bound { (n ≤ 1000000) × (length work.old ≡ n) }
    ensures { ChainSays n table.now first list.old (chain_says result list.new) work.new }
{
    order::clear(work);
    if !readable(table, n, first) {
        return Err(Refusal::NotAFile);
    }
    let walked = walk(table, n, work, first, 1);
    order::clear(work);
    if list.len() < walked.count {
        return Err(Refusal::ListTooShort);
    }
    number_chain(table, n, first, walked.count, list, 0);
    Ok(walked)
}

// Lists the blocks of the chain that a block starts, as far as it can be followed, on a table of any bytes; later places of the list stay. Gives how many
// blocks were followed, and why there are no more: where entry and rule are 0 the chain is whole, and these blocks are the file's in every sound table that has
// the entries of its nodes. NotAFile where no node can be read at the block, ListTooShort where the list can't hold the blocks.
pub fn chain(
    table: &[u8],
    work: &mut [u32],
    first: usize,
    list: &mut [u32],
) -> Result<Walked, Refusal>
    ensures { ChainPromise table.now work.old first list.old (beside (chain_says result list.new) work.new) }
{
    if fat_node::misfit(table) {
        return Err(Refusal::SizeMismatch);
    }
    if fat_node::outside(table) {
        return Err(Refusal::InvalidValue);
    }
    let n = table.len() / 8 - 1;
    if work.len() < n {
        return Err(Refusal::WorkTooShort);
    }
    chain_sized(table, n, &mut work[..n], first, list)
}
