// The history of a block table: the creates and deletes that make it from a formatted one.
#![tactic(auto)]

ghost use Rattle.std.specs.Prelude.{◌≡◌, List, [], ◌∷◌, ◌+◌, ◌*◌, ◌≤◌, ◌<◌, length};
ghost use Rattle.std.specs.Result.{result_unwrap_or};
ghost use Rattle.std.proofs.lemmas.List.Edits.{sets};
ghost use Rattle.fat_table.specs.Sound.{IsNode};
ghost use Rattle.fat_table.specs.Chain.{chain_at};
ghost use Rattle.fat_table.specs.Counts.{nodes};
ghost use Rattle.fat_walk.specs.Volume.{Volume};
ghost use Rattle.fat_walk.specs.Inner.Chains.{ChainFrom, LastIs};
ghost use Rattle.fat_retrace.specs.History.{makes, joins_all, files_in, history};
ghost use Rattle.order.specs.Beside.{beside};
ghost use Rattle.order.specs.Answer.{answer_of};
ghost use Rattle.fat_retrace.specs.Promise.{retrace_gives, RetracePromise};
ghost use Rattle.fat_retrace.specs.Inner.Written.{Written, GivenUp, joins_at};

use fat_walk::{head_of, last_of, size_at};
use order::Refusal;

// What a call of a history is, as its first number says.
const CREATE: u32 = 0;

const DELETE: u32 = 1;

// Writes a create of so many blocks, or a delete of the file at a block, as the k-th call of a history; answers the place of the next.
fn put(list: &mut [u32], k: usize, call: u32, number: usize) -> usize
    requires k_in_bounds { 2 * k + 2 ≤ length list.old }
    requires number_bound { number ≤ 1000000 }
    ensures next { result ≡ k + 1 }
    ensures is { list.new ≡ sets list.old (2 * k) (call ∷ number ∷ []) }
{
    list[2 * k] = call;
    list[2 * k + 1] = number as u32;
    k + 1
}

// A create for each node, from block 0 on, as the first calls of a history; answers their number.
fn make_nodes(table: &[u8], n: usize, list: &mut [u32]) -> usize
    requires volume { Volume n table.now }
    requires table_in_bounds { 2 * length (nodes n table.now) ≤ length list.old }
    ensures { Written (makes (nodes n table.now)) 0 list.old result list.new }
{
    let mut b: usize = 0;
    let mut k: usize = 0;
    while b < n {
        let size = size_at(table, n, b);
        k = put(list, k, CREATE, size);
        b += size;
    }
    k
}

// The index of the last node of the chain that index first starts, 0 for a chain of none.
fn last_index(table: &[u8], n: usize, first: usize) -> usize
    requires { ChainFrom n table.now first }
    ensures { LastIs (chain_at table.now n first) result }
{
    if first == 0 {
        0
    } else {
        last_of(table, n, first) + 1
    }
}

// What was given up: the next call, and the blocks of the chain.
#[derive(Clone, Copy)]
struct Given {
    next: usize,
    blocks: usize,
}

// A delete for each node of the chain that index first starts, the last first, as the calls from the k-th on.
fn give_up(table: &[u8], n: usize, first: usize, list: &mut [u32], k: usize) -> Given
    requires chain_from { ChainFrom n table.now first }
    requires first_in_bounds { 2 * (k + length (chain_at table.now n first)) ≤ length list.old }
    ensures { GivenUp (chain_at table.now n first) k list.old result.next result.blocks list.new }
{
    let mut i = last_index(table, n, first);
    let mut at = k;
    let mut blocks: usize = 0;
    while i != 0 {
        let b = i - 1;
        at = put(list, at, DELETE, b);
        blocks += size_at(table, n, b);
        i = fat_node::prev_of(table, b);
    }
    Given { next: at, blocks }
}

// The calls that put together the file which starts at the node at block b, if one does and has several nodes, from the k-th call on.
fn join_at(table: &[u8], n: usize, b: usize, list: &mut [u32], k: usize) -> usize
    requires volume { Volume n table.now }
    requires node { IsNode table.now n b }
    requires b_in_bounds { 2 * (k + length (joins_at n table.now b)) ≤ length list.old }
    ensures { Written (joins_at n table.now b) k list.old result list.new }
{
    if fat_node::prev_of(table, b) != 0
        || head_of(table) == b + 1
        || fat_node::next_of(table, b) == 0
    {
        return k;
    }
    let given = give_up(table, n, b + 1, list, k);
    put(list, given.next, CREATE, given.blocks)
}

// The same for all files, by their first blocks.
fn join_files(table: &[u8], n: usize, list: &mut [u32], k: usize) -> usize
    requires volume { Volume n table.now }
    requires table_in_bounds { 2 * (k + length (joins_all (files_in n table.now (nodes n table.now)))) ≤ length list.old }
    ensures { Written (joins_all (files_in n table.now (nodes n table.now))) k list.old result list.new }
{
    let mut b: usize = 0;
    let mut at = k;
    while b < n {
        at = join_at(table, n, b, list, at);
        b += size_at(table, n, b);
    }
    at
}

// Writes the history of a sound table into a list of five places a block; answers the number of its calls.
pub fn retrace_sound(table: &[u8], n: usize, list: &mut [u32]) -> usize
    requires volume { Volume n table.now }
    requires n_in_bounds { 5 * n ≤ length list.old }
    ensures { Written (history n table.now) 0 list.old result list.new }
{
    let made = make_nodes(table, n, list);
    let joined = join_files(table, n, list, made);
    let head = head_of(table);
    let given = give_up(table, n, head, list, joined);
    given.next
}

// Writes the history of a table into a list: for each call two numbers, 0 and a count of blocks for create, 1 and a first block for delete. Refuses what the
// test of the table refuses, and with ListTooShort a list of fewer than five places a block. Answers the number of the history's calls.
pub fn retrace(table: &[u8], work: &mut [u32], list: &mut [u32]) -> Result<usize, Refusal>
    ensures { RetracePromise table.now work.old list.old (beside (retrace_gives (answer_of result) (result_unwrap_or result 0) list.new) work.new) }
{
    fat_test::test(table, work)?;
    let n = fat_node::blocks(table);
    if list.len() < 5 * n {
        return Err(Refusal::ListTooShort);
    }
    Ok(retrace_sound(table, n, list))
}
