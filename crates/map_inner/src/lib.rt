// The free map of a sound table: built, compared, and kept by create, resize and delete. Each asks for soundness and tests nothing.
#![tactic(auto)]

ghost use Rattle.std.specs.Prelude.{◌≡◌, Bool, true, false, not, List, ◌++◌, ℕ, ◌+◌, ◌≤◌, ◌<◌, length, replicate};
ghost use Rattle.std.specs.Result.{result_unwrap_or};
ghost use Rattle.order.specs.Answer.{answer_of};
ghost use Rattle.order.specs.Tells.{Tells};
ghost use Rattle.map_bits.specs.Bits.{words_from, words_in};
ghost use Rattle.fat_node.specs.Node.{Run};
ghost use Rattle.fat_table.specs.Sound.{File};
ghost use Rattle.fat_table.specs.Chain.{head_at, free_at, file_at};
ghost use Rattle.fat_table.specs.Layout.{left, covers};
ghost use Rattle.fat_promises.specs.Calls.{create_gives, change_gives};
ghost use Rattle.fat_walk.specs.Volume.{Volume};
ghost use Rattle.fat_walk.specs.Inner.Chains.{Inside};
ghost use Rattle.fat_judge.specs.Inner.Plans.{TakeAt};
ghost use Rattle.map_inner.specs.Map.{map_of};
ghost use Rattle.map_inner.specs.Sounds.{CreateMapped, ResizeMapped, DeleteMapped};
ghost use Rattle.map_inner.specs.Inner.Moves.{Segment, Move, Moves, CutAt, TakeSays};

use fat_judge::{ResizePlan, judge_delete, judge_resize};
use fat_step::{create_step, delete_step, resize_step};
use fat_walk::{Sought, head_of, is_file, size_at};
use order::Refusal;

// Puts into the map, or takes out of it, the blocks of a chain's nodes, from the one that index first names up to and without the one that index stop
// names, or to the chain's end where that is 0.
fn turn_chain(table: &[u8], n: usize, first: usize, stop: usize, map: &mut [u32], on: bool)
    requires { Moves n table.now first stop on map.old }
    ensures { (l : List Run) (c d : ℕ → ℕ) → Segment n table.now first stop l → Move n on map.old c d l → map.new ≡ words_from (words_in n) 0 d }
{
    let mut i = first;
    while i != stop {
        let b = i - 1;
        let size = size_at(table, n, b);
        map_bits::turn(map, b, b + size, on);
        i = fat_node::next_of(table, b);
    }
}

// Puts the free blocks into a map of no block.
fn draw(table: &[u8], n: usize, map: &mut [u32])
    requires volume { Volume n table.now }
    requires map_value { map.old ≡ replicate (words_in n) 0 }
    ensures { map.new ≡ map_of n table.now }
{
    let head = head_of(table);
    turn_chain(table, n, head, 0, map, true);
}

// Builds the map of the table, whatever stands in it before.
pub fn build_sound(table: &[u8], n: usize, map: &mut [u32])
    requires volume { Volume n table.now }
    requires map_len { length map.old ≡ words_in n }
    ensures { map.new ≡ map_of n table.now }
{
    order::clear(map);
    draw(table, n, map);
}

// Whether the map is the table's. The scratch list of as many words holds the table's meanwhile, and is 0 before and after it.
pub fn is_map(table: &[u8], n: usize, scratch: &mut [u32], map: &[u32]) -> bool
    requires volume { Volume n table.now }
    requires scratch_value { scratch.old ≡ replicate (words_in n) 0 }
    requires map_len { length map.now ≡ words_in n }
    ensures { Tells (map.now ≡ map_of n table.now) result × (scratch.new ≡ replicate (words_in n) 0) }
{
    draw(table, n, scratch);
    let differ = map_bits::differ(scratch, map);
    order::clear(scratch);
    !differ
}

// Takes out the first blocks of the free chain, up to part blocks of its node at block b.
fn take(table: &[u8], n: usize, b: usize, part: usize, map: &mut [u32])
    requires volume { Volume n table.now }
    requires take_at { TakeAt n table.now b part }
    requires map_value { map.old ≡ map_of n table.now }
    ensures { (c : ℕ) → Inside (free_at n table.now) c b part → map.new ≡ words_from (words_in n) 0 (λ (x : ℕ). covers x (left (free_at n table.now) c)) }
{
    let head = head_of(table);
    turn_chain(table, n, head, b + 1, map, false);
    map_bits::turn(map, b, b + part, false);
}

// Puts in the blocks of the file at a block.
fn give(table: &[u8], n: usize, first_block: usize, map: &mut [u32])
    requires volume { Volume n table.now }
    requires file { File table.now n first_block }
    requires map_value { map.old ≡ map_of n table.now }
    ensures { map.new ≡ words_from (words_in n) 0 (λ (x : ℕ). covers x (file_at n table.now first_block ++ free_at n table.now)) }
{
    turn_chain(table, n, first_block + 1, 0, map, true);
}

// Puts in the blocks of a file after part blocks of its node at block b.
fn give_rest(table: &[u8], n: usize, b: usize, part: usize, map: &mut [u32])
    requires volume { Volume n table.now }
    requires cut_at { CutAt n table.now b part }
    requires map_value { map.old ≡ map_of n table.now }
    ensures { (f c : ℕ) → File table.now n f → Inside (file_at n table.now f) c b part
        → map.new ≡ words_from (words_in n) 0 (λ (x : ℕ). covers x (left (file_at n table.now f) c ++ free_at n table.now)) }
{
    let size = size_at(table, n, b);
    let next = fat_node::next_of(table, b);
    map_bits::turn(map, b + part, b + size, true);
    turn_chain(table, n, next, 0, map, true);
}

// Seeks the count-th block of the free chain, which index first starts, and takes out what it passes: the blocks up to that one, or all of the chain where it
// has fewer.
fn seek_take(table: &[u8], n: usize, first: usize, count: usize, map: &mut [u32]) -> Sought
    requires volume { Volume n table.now }
    requires first_value { (first ≡ head_at table.now) × (1 ≤ count) }
    requires map_value { map.old ≡ map_of n table.now }
    ensures { TakeSays n table.now count result map.new }
{
    let mut i = first;
    let mut passed: usize = 0;
    let mut k = count;
    while i != 0 {
        let b = i - 1;
        let size = size_at(table, n, b);
        if k <= size {
            map_bits::turn(map, b, b + k, false);
            return Sought::Within { node: b, part: k };
        }
        map_bits::turn(map, b, b + size, false);
        k -= size;
        passed = i;
        i = fat_node::next_of(table, b);
    }
    Sought::Past {
        last: passed,
        part: k,
    }
}

// Creates a file of so many blocks: the map loses them. They are taken out while they are sought, and put back where there are too few.
pub fn create_mapped(
    table: &mut [u8],
    n: usize,
    map: &mut [u32],
    block_count: usize,
) -> Result<usize, Refusal>
    requires volume { Volume n table.old }
    requires map_value { map.old ≡ map_of n table.old }
    ensures { CreateMapped n table.old block_count (create_gives (answer_of result) (result_unwrap_or result 0) table.new) map.new }
{
    if block_count == 0 {
        return Err(Refusal::InvalidValue);
    }
    let head = head_of(table);
    match seek_take(table, n, head, block_count, map) {
        Sought::Past { .. } => {
            draw(table, n, map);
            Err(Refusal::NoSpace)
        }
        Sought::Within { node, part } => {
            create_step(table, n, node, part);
            Ok(head - 1)
        }
    }
}

// Resizes the file at a block to so many blocks: the map loses or gets the blocks between. It is told whether the block begins a file.
pub fn resize_told(
    table: &mut [u8],
    n: usize,
    map: &mut [u32],
    first_block: usize,
    block_count: usize,
    begins: bool,
) -> Result<(), Refusal>
    requires volume { Volume n table.old }
    requires map_value { map.old ≡ map_of n table.old }
    requires file { (begins ≡ true → File table.old n first_block) × (File table.old n first_block → begins ≡ true) }
    ensures { ResizeMapped n table.old first_block block_count (change_gives result table.new) map.new }
{
    match judge_resize(table, n, first_block, block_count, begins)? {
        ResizePlan::Same => {}
        ResizePlan::Shrink { last, node, part } => {
            give_rest(table, n, node, part, map);
            resize_step(table, n, last, node, part);
        }
        ResizePlan::Grow { last, node, part } => {
            take(table, n, node, part, map);
            resize_step(table, n, last, node, part);
        }
    }
    Ok(())
}

// The same where it is not told.
pub fn resize_mapped(
    table: &mut [u8],
    n: usize,
    map: &mut [u32],
    first_block: usize,
    block_count: usize,
) -> Result<(), Refusal>
    requires volume { Volume n table.old }
    requires map_value { map.old ≡ map_of n table.old }
    ensures { ResizeMapped n table.old first_block block_count (change_gives result table.new) map.new }
{
    let begins = is_file(table, n, first_block);
    resize_told(table, n, map, first_block, block_count, begins)
}

// Deletes the file at a block: the map gets its blocks. It is told whether the block begins a file.
pub fn delete_told(
    table: &mut [u8],
    n: usize,
    map: &mut [u32],
    first_block: usize,
    begins: bool,
) -> Result<(), Refusal>
    requires volume { Volume n table.old }
    requires map_value { map.old ≡ map_of n table.old }
    requires file { (begins ≡ true → File table.old n first_block) × (File table.old n first_block → begins ≡ true) }
    ensures { DeleteMapped n table.old first_block (change_gives result table.new) map.new }
{
    let last = judge_delete(table, n, first_block, begins)?;
    give(table, n, first_block, map);
    delete_step(table, n, first_block, last);
    Ok(())
}

// The same where it is not told.
pub fn delete_mapped(
    table: &mut [u8],
    n: usize,
    map: &mut [u32],
    first_block: usize,
) -> Result<(), Refusal>
    requires volume { Volume n table.old }
    requires map_value { map.old ≡ map_of n table.old }
    ensures { DeleteMapped n table.old first_block (change_gives result table.new) map.new }
{
    let begins = is_file(table, n, first_block);
    delete_told(table, n, map, first_block, begins)
}
