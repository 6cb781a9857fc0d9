// The calls that change a sound table: create, resize and delete, each as few writes, once it is judged.
#![tactic(auto)]

ghost use Rattle.std.specs.Prelude.{◌≡◌, true, ℕ, ◌+◌, ◌≤◌, ◌<◌};
ghost use Rattle.std.specs.Result.{result_unwrap_or};
ghost use Rattle.order.specs.Answer.{answer_of};
ghost use Rattle.fat_node.specs.Node.{next_at};
ghost use Rattle.fat_table.specs.Sound.{File};
ghost use Rattle.fat_table.specs.Chain.{size_at, free_at};
ghost use Rattle.fat_table.specs.Steps.{created, resized, deleted};
ghost use Rattle.fat_promises.specs.Calls.{create_gives, CreateSound, change_gives, ResizeSound, DeleteSound};
ghost use Rattle.fat_walk.specs.Volume.{Volume};
ghost use Rattle.fat_walk.specs.Inner.Chains.{Standing, StandingAt, Inside};
ghost use Rattle.fat_step.specs.Inner.Writes.{with_prev, join_at, end_at, split_at, cut_at};
ghost use Rattle.fat_judge.specs.Inner.Plans.{TakeAt, Recut, RecutAt, DeleteAt};

use fat_judge::{ResizePlan, judge_create, judge_delete, judge_resize};
use fat_node::Node;
use fat_walk::{head_of, is_file, node_at, size_at};
use order::Refusal;

// Gives the node that index i names, if it names one, another previous.
fn set_prev(table: &mut [u8], n: usize, i: usize, prev: usize)
    requires standing_at { StandingAt n table.old i }
    requires prev_le_n { prev ≤ n }
    ensures { table.new ≡ with_prev table.old i prev }
{
    if i == 0 {
        return;
    }
    let b = i - 1;
    let node = node_at(table, n, b);
    fat_node::set_node(table, n, b, Node { prev, ..node });
}

// Lets the chain whose last node is at block y go on with the chain that index i starts.
fn join(table: &mut [u8], n: usize, y: usize, i: usize)
    requires standing { Standing n table.old y }
    requires standing_at { StandingAt n table.old i }
    requires i_le_n { i ≤ n }
    ensures { table.new ≡ join_at table.old y i }
{
    let node = node_at(table, n, y);
    set_prev(table, n, i, y + 1);
    fat_node::set_node(table, n, y, Node { next: i, ..node });
}

// Ends a chain after the node at block b; what comes after it becomes the free chain.
fn end_at(table: &mut [u8], n: usize, b: usize)
    requires standing { Standing n table.old b }
    requires standing_at { StandingAt n table.old (next_at table.old b) }
    ensures { table.new ≡ end_at table.old b }
{
    let node = node_at(table, n, b);
    set_prev(table, n, node.next, 0);
    fat_node::set_node(table, n, b, Node { next: 0, ..node });
    fat_node::set_head(table, node.next);
}

// Ends a chain after m blocks of the node at block b; the rest of the node and what comes after it become the free chain.
fn split_at(table: &mut [u8], n: usize, b: usize, m: usize)
    requires standing { Standing n table.old b }
    requires standing_at { StandingAt n table.old (next_at table.old b) }
    requires le_m { (1 ≤ m) × (m < size_at table.old b) }
    ensures { table.new ≡ split_at table.old b m }
{
    let node = node_at(table, n, b);
    let right = b + m;
    let left = Node {
        size: m,
        next: 0,
        ..node
    };
    let rest = Node {
        size: node.size - m,
        prev: 0,
        ..node
    };
    set_prev(table, n, node.next, right + 1);
    fat_node::set_node(table, n, b, left);
    fat_node::set_node(table, n, right, rest);
    fat_node::set_head(table, right + 1);
}

// Ends a chain after m blocks of the node at block b; what comes after becomes the free chain.
fn cut(table: &mut [u8], n: usize, b: usize, m: usize)
    requires standing { Standing n table.old b }
    requires standing_at { StandingAt n table.old (next_at table.old b) }
    requires le_m { (1 ≤ m) × (m ≤ size_at table.old b) }
    ensures { table.new ≡ cut_at table.old b m }
{
    if m == size_at(table, n, b) {
        end_at(table, n, b);
    } else {
        split_at(table, n, b, m);
    }
}

// Takes the first blocks of the free chain, up to part blocks of the node at block b, as a file of their own.
pub fn create_step(table: &mut [u8], n: usize, b: usize, part: usize)
    requires volume { Volume n table.old }
    requires take_at { TakeAt n table.old b part }
    ensures { (c : ℕ) → Inside (free_at n table.old) c b part → table.new ≡ created n table.old c }
{
    cut(table, n, b, part);
}

// Lets a file whose last node is at block last end after part blocks of the node at block b, its own or a free one.
pub fn resize_step(table: &mut [u8], n: usize, last: usize, b: usize, part: usize)
    requires volume { Volume n table.old }
    requires recut { Recut n table.old last b part }
    ensures { (f c : ℕ) → RecutAt n table.old f c last b part → table.new ≡ resized n table.old f c }
{
    let head = head_of(table);
    join(table, n, last, head);
    cut(table, n, b, part);
}

// Puts the nodes of the file at a block, whose last is at block last, before the free front.
pub fn delete_step(table: &mut [u8], n: usize, first_block: usize, last: usize)
    requires volume { Volume n table.old }
    requires delete_at { DeleteAt n table.old first_block last }
    ensures { table.new ≡ deleted n table.old first_block }
{
    let head = head_of(table);
    join(table, n, last, head);
    fat_node::set_head(table, first_block + 1);
}

// Creates a file of so many blocks, on a sound table: the first of the free chain. Answers the file's first block.
pub fn create_sound(table: &mut [u8], n: usize, block_count: usize) -> Result<usize, Refusal>
    requires { Volume n table.old }
    ensures { CreateSound n table.old block_count (create_gives (answer_of result) (result_unwrap_or result 0) table.new) }
{
    let cut = judge_create(table, n, block_count)?;
    create_step(table, n, cut.node, cut.part);
    Ok(cut.first)
}

// Resizes the file at a block to so many blocks, on a sound table: the file and the free chain after it, cut where the file is to end. It is told whether
// the block begins a file.
pub fn resize_told(
    table: &mut [u8],
    n: usize,
    first_block: usize,
    block_count: usize,
    begins: bool,
) -> Result<(), Refusal>
    requires volume { Volume n table.old }
    requires file { (begins ≡ true → File table.old n first_block) × (File table.old n first_block → begins ≡ true) }
    ensures { ResizeSound n table.old first_block block_count (change_gives result table.new) }
{
    match judge_resize(table, n, first_block, block_count, begins)? {
        ResizePlan::Same => {}
        ResizePlan::Shrink { last, node, part } | ResizePlan::Grow { last, node, part } => {
            resize_step(table, n, last, node, part);
        }
    }
    Ok(())
}

// The same where it is not told.
pub fn resize_sound(
    table: &mut [u8],
    n: usize,
    first_block: usize,
    block_count: usize,
) -> Result<(), Refusal>
    requires { Volume n table.old }
    ensures { ResizeSound n table.old first_block block_count (change_gives result table.new) }
{
    let begins = is_file(table, n, first_block);
    resize_told(table, n, first_block, block_count, begins)
}

// Deletes the file at a block, on a sound table: all its nodes go before the free front, in their order. It is told whether the block begins a file.
pub fn delete_told(
    table: &mut [u8],
    n: usize,
    first_block: usize,
    begins: bool,
) -> Result<(), Refusal>
    requires volume { Volume n table.old }
    requires file { (begins ≡ true → File table.old n first_block) × (File table.old n first_block → begins ≡ true) }
    ensures { DeleteSound n table.old first_block (change_gives result table.new) }
{
    let last = judge_delete(table, n, first_block, begins)?;
    delete_step(table, n, first_block, last);
    Ok(())
}

// The same where it is not told.
pub fn delete_sound(table: &mut [u8], n: usize, first_block: usize) -> Result<(), Refusal>
    requires { Volume n table.old }
    ensures { DeleteSound n table.old first_block (change_gives result table.new) }
{
    let begins = is_file(table, n, first_block);
    delete_told(table, n, first_block, begins)
}
