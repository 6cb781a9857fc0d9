// What a call will answer on a sound table, known before its first write, with what its step needs. Nothing is changed here.
#![tactic(auto)]

ghost use Rattle.std.specs.Prelude.{◌≡◌, true, false, List, ℕ, ◌+◌, ◌*◌, ◌≤◌, ◌<◌};
ghost use Rattle.fat_node.specs.Node.{Run};
ghost use Rattle.fat_table.specs.Sound.{File};
ghost use Rattle.fat_walk.specs.Volume.{Volume};
ghost use Rattle.fat_walk.specs.Inner.Chains.{Chain, Amid};
ghost use Rattle.fat_judge.specs.Inner.Stretches.{CursorAt, Reaches};
ghost use Rattle.fat_judge.specs.Inner.Plans.{CreatePlanned, ResizePlanned, DeletePlanned, ListPlanned, CarryPlanned};

use fat_walk::{Sought, head_of, is_end, last_from, last_of, seek, seek_on, size_at};
use order::Refusal;

// What a create will do: its file, of first block `first`, is the free chain cut after `part` blocks of the node at block `node`.
#[derive(Clone, Copy)]
pub struct Cut {
    pub first: usize,
    pub node: usize,
    pub part: usize,
}

// Judges a create of so many blocks: InvalidValue, NoSpace.
pub fn judge_create(table: &[u8], n: usize, block_count: usize) -> Result<Cut, Refusal>
    requires { Volume n table.now }
    ensures { CreatePlanned n table.now block_count result }
{
    if block_count == 0 {
        return Err(Refusal::InvalidValue);
    }
    let head = head_of(table);
    let Sought::Within { node, part } = seek(table, n, head, block_count) else {
        return Err(Refusal::NoSpace);
    };
    let first = head - 1;
    Ok(Cut { first, node, part })
}

// What a resize will do to the file whose last node is at block `last`: nothing; or it ends after `part` blocks of the node at block `node`, which is its
// own, or a free one.
#[derive(Clone, Copy)]
pub enum ResizePlan {
    Same,
    Shrink {
        last: usize,
        node: usize,
        part: usize,
    },
    Grow {
        last: usize,
        node: usize,
        part: usize,
    },
}

// Judges a resize of a file to some blocks: NoSpace.
fn judge_count(
    table: &[u8],
    n: usize,
    first_block: usize,
    block_count: usize,
) -> Result<ResizePlan, Refusal>
    requires volume { Volume n table.now }
    requires file { File table.now n first_block }
    requires le_block_count { 1 ≤ block_count }
    ensures { ResizePlanned n table.now first_block block_count result }
{
    match seek(table, n, first_block + 1, block_count) {
        Sought::Within { node, part } => {
            if is_end(table, n, node, part) {
                return Ok(ResizePlan::Same);
            }
            let last = last_from(table, n, node);
            Ok(ResizePlan::Shrink { last, node, part })
        }
        Sought::Past { last, part } => {
            let Sought::Within { node, part } = seek(table, n, head_of(table), part) else {
                return Err(Refusal::NoSpace);
            };
            let last = last - 1;
            Ok(ResizePlan::Grow { last, node, part })
        }
    }
}

// Judges a resize of the file at a block to so many blocks: NotAFile, InvalidValue, NoSpace. Here and in the judges below it is told whether the block
// begins a file.
pub fn judge_resize(
    table: &[u8],
    n: usize,
    first_block: usize,
    block_count: usize,
    begins: bool,
) -> Result<ResizePlan, Refusal>
    requires volume { Volume n table.now }
    requires file { (begins ≡ true → File table.now n first_block) × (File table.now n first_block → begins ≡ true) }
    ensures { ResizePlanned n table.now first_block block_count result }
{
    if !begins {
        return Err(Refusal::NotAFile);
    }
    if block_count == 0 {
        return Err(Refusal::InvalidValue);
    }
    judge_count(table, n, first_block, block_count)
}

// Judges a delete of the file at a block: NotAFile. Answers the block of the file's last node, after which the free chain will come.
pub fn judge_delete(
    table: &[u8],
    n: usize,
    first_block: usize,
    begins: bool,
) -> Result<usize, Refusal>
    requires volume { Volume n table.now }
    requires file { (begins ≡ true → File table.now n first_block) × (File table.now n first_block → begins ≡ true) }
    ensures { DeletePlanned n table.now first_block result }
{
    if !begins {
        return Err(Refusal::NotAFile);
    }
    Ok(last_of(table, n, first_block + 1))
}

// Judges an open list of the file at a block, into a list of room places: NotAFile, ListTooShort. Into n places any file fits, and no chain is followed.
pub fn judge_list(
    table: &[u8],
    n: usize,
    first_block: usize,
    room: usize,
    begins: bool,
) -> Result<(), Refusal>
    requires volume { Volume n table.now }
    requires file { (begins ≡ true → File table.now n first_block) × (File table.now n first_block → begins ≡ true) }
    ensures { ListPlanned n table.now first_block room result }
{
    if !begins {
        return Err(Refusal::NotAFile);
    }
    if n <= room {
        return Ok(());
    }
    match seek(table, n, first_block + 1, room + 1) {
        Sought::Within { .. } => Err(Refusal::ListTooShort),
        Sought::Past { .. } => Ok(()),
    }
}

// Whether so many bytes from pos on pass the end of a file of so many bytes. Nothing wraps, whatever the numbers.
fn passes(size: usize, pos: usize, len: usize) -> bool
    ensures { (result ≡ true → size < pos + len) × (result ≡ false → pos + len ≤ size) }
{
    size < pos || size - pos < len
}

// Whether a file goes on for len bytes, from byte `from` of its node at block b on. Its chain is followed as far as they reach.
fn goes_on(table: &[u8], n: usize, block_len: usize, b: usize, from: usize, len: usize) -> bool
    requires amid { Amid n table.now b }
    requires le_block_len { (1 ≤ block_len) × (block_len ≤ 65536) × (from + len ≤ 131072000000) }
    ensures { (c : List Run) (p : ℕ) → Chain n table.now c → CursorAt c block_len p (b + 1) from → Reaches c block_len p len result }
{
    let reach = size_at(table, n, b) * block_len;
    let end = from + len;
    if end <= reach {
        return true;
    }
    let next = fat_node::next_of(table, b);
    match seek_on(table, n, next, b + 1, (end - reach - 1) / block_len + 1) {
        Sought::Within { .. } => true,
        Sought::Past { .. } => false,
    }
}

// Where a read or a write within the file begins: at byte `from` of the node that index `index` names; at the file's end they say nothing.
#[derive(Clone, Copy)]
pub struct Cursor {
    pub index: usize,
    pub from: usize,
}

// Judges a read or write of so many bytes of a file from byte pos on, no more than there are data: OutOfBound.
fn judge_bytes(
    table: &[u8],
    n: usize,
    block_len: usize,
    first_block: usize,
    pos: usize,
    len: usize,
) -> Result<Cursor, Refusal>
    requires volume { Volume n table.now }
    requires file { File table.now n first_block }
    requires le_block_len { (1 ≤ block_len) × (block_len ≤ 65536) × (pos + len ≤ n * block_len) }
    ensures { CarryPlanned n table.now block_len first_block pos len result }
{
    let count = pos / block_len + 1;
    match seek(table, n, first_block + 1, count) {
        Sought::Within { node, part } => {
            let from = (part - 1) * block_len + pos % block_len;
            if !goes_on(table, n, block_len, node, from, len) {
                return Err(Refusal::OutOfBound);
            }
            let index = node + 1;
            Ok(Cursor { index, from })
        }
        Sought::Past { part, .. } => {
            if passes((count - part) * block_len, pos, len) {
                return Err(Refusal::OutOfBound);
            }
            Ok(Cursor { index: 0, from: 0 })
        }
    }
}

// Judges a read or write of so many bytes of the file at a block, from byte pos on: NotAFile, OutOfBound.
pub fn judge_carry(
    table: &[u8],
    n: usize,
    block_len: usize,
    first_block: usize,
    pos: usize,
    len: usize,
    begins: bool,
) -> Result<Cursor, Refusal>
    requires volume { Volume n table.now }
    requires file { (begins ≡ true → File table.now n first_block) × (File table.now n first_block → begins ≡ true) }
    requires le_block_len { (1 ≤ block_len) × (block_len ≤ 65536) }
    ensures { CarryPlanned n table.now block_len first_block pos len result }
{
    if !begins {
        return Err(Refusal::NotAFile);
    }
    if passes(n * block_len, pos, len) {
        return Err(Refusal::OutOfBound);
    }
    judge_bytes(table, n, block_len, first_block, pos, len)
}
