// A file's blocks, listed.
#![tactic(auto)]

ghost use Rattle.std.specs.Prelude.{◌≡◌, true, ◌+◌, ◌≤◌, ◌<◌, length};
ghost use Rattle.std.proofs.lemmas.List.Edits.{sets};
ghost use Rattle.std.specs.Result.{result_unwrap_or};
ghost use Rattle.order.specs.Answer.{answer_of};
ghost use Rattle.fat_table.specs.Sound.{File};
ghost use Rattle.fat_table.specs.Chain.{total, chain_at};
ghost use Rattle.fat_promises.specs.Blocks.{blocks_from, blocks_of};
ghost use Rattle.fat_promises.specs.Calls.{list_gives, ListSound};
ghost use Rattle.fat_walk.specs.Volume.{Volume};
ghost use Rattle.fat_walk.specs.Inner.Chains.{ChainFrom};

use fat_judge::judge_list;
use fat_walk::{is_file, size_at};
use order::Refusal;

// Writes the numbers of size blocks from block b on into a list, from place at on.
pub fn number_run(list: &mut [u32], at: usize, b: usize, size: usize)
    requires size_in_bounds { at + size ≤ length list.old }
    requires size_bound { b + size ≤ 1000000 }
    ensures { list.new ≡ sets list.old at (blocks_from size b) }
{
    for k in 0..size {
        list[at + k] = (b + k) as u32;
    }
}

// Writes the blocks of the chain that index first starts into a list that has room for them, hopping by node. Answers how many they are.
fn number_chain(table: &[u8], n: usize, first: usize, list: &mut [u32]) -> usize
    requires chain_from { ChainFrom n table.now first }
    requires first_in_bounds { total (chain_at table.now n first) ≤ length list.old }
    ensures { (result ≡ total (chain_at table.now n first)) × (list.new ≡ sets list.old 0 (blocks_of (chain_at table.now n first))) }
{
    let mut i = first;
    let mut at: usize = 0;
    while i != 0 {
        let b = i - 1;
        let size = size_at(table, n, b);
        number_run(list, at, b, size);
        at += size;
        i = fat_node::next_of(table, b);
    }
    at
}

// Lists the blocks of the file at a block, on a sound table, in chain order. Answers how many they are. It is told whether the block begins a file.
pub fn open_list_told(
    table: &[u8],
    n: usize,
    first_block: usize,
    begins: bool,
    list: &mut [u32],
) -> Result<usize, Refusal>
    requires volume { Volume n table.now }
    requires file { (begins ≡ true → File table.now n first_block) × (File table.now n first_block → begins ≡ true) }
    ensures { ListSound n table.now first_block list.old (list_gives (answer_of result) (result_unwrap_or result 0) list.new) }
{
    judge_list(table, n, first_block, list.len(), begins)?;
    Ok(number_chain(table, n, first_block + 1, list))
}

// The same where it is not told.
pub fn open_list_sound(
    table: &[u8],
    n: usize,
    first_block: usize,
    list: &mut [u32],
) -> Result<usize, Refusal>
    requires { Volume n table.now }
    ensures { ListSound n table.now first_block list.old (list_gives (answer_of result) (result_unwrap_or result 0) list.new) }
{
    let begins = is_file(table, n, first_block);
    open_list_told(table, n, first_block, begins, list)
}
