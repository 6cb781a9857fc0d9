// The way up by parents from a directory, in a directory table of any bytes.
#![tactic(auto)]

ghost use Rattle.std.specs.Prelude.{◌≡◌, ◌*◌, ◌+◌, ◌≤◌, length};
ghost use Rattle.std.specs.Result.{result_unwrap_or};
ghost use Rattle.order.specs.Answer.{answer_of};
ghost use Rattle.order.specs.Beside.{beside};
ghost use Rattle.salvage_tree.specs.Calls.{entered_gives};
ghost use Rattle.salvage_tree.specs.Inner.Says.{Sized};
ghost use Rattle.salvage_way.specs.Way.{parent_of, way};
ghost use Rattle.salvage_way.specs.Calls.{WayPromise};
ghost use Rattle.salvage_way.specs.Inner.Says.{Ready, WaySays};

use order::Refusal;

// The width of a directory's entry.
const DIR: usize = tree_key::SaveExtDirEntry::WIDTH;

// The parent that a directory names; none of the root.
fn parent_of(table: &[u8], x: u32) -> u32
    requires { x * 40 + 40 ≤ length table.now }
    ensures { result ≡ parent_of table.now x }
{
    if x == 1 {
        return 0;
    }
    tree_table::link_of(table, DIR, 0, x)
}

// How many directories the way up has. Marks them, where the removed ones are marked.
fn count_way(table: &[u8], n: u32, work: &mut [u32], inode: u32) -> usize
    requires { Ready table.now n work.old }
    ensures { result ≡ length (way table.now inode) }
{
    let mut x = inode;
    let mut count = 0;
    for _ in 0..n {
        let i = tree_table::index(x);
        if x == 0 || n <= x || work[i] != 0 {
            return count;
        }
        work[i] = 1;
        count += 1;
        x = parent_of(table, x);
    }
    count
}

// Writes the way up into a list of as many places as it has directories.
fn list_way(table: &[u8], inode: u32, list: &mut [u32])
    requires { length list.old ≡ length (way table.now inode) }
    ensures { list.new ≡ way table.now inode }
{
    let mut x = inode;
    for place in list {
        *place = x;
        x = parent_of(table, x);
    }
}

// Marks the removed directories, whatever stood in the work list.
fn ready(table: &[u8], n: u32, work: &mut [u32])
    requires { Sized 40 table.now n work.old }
    ensures { Ready table.now n work.new }
{
    order::clear(work);
    salvage_tree::mark_gone(table, DIR, n, work);
}

// The way up of one of n directories, into a list that may be too short.
fn way_sized(
    table: &[u8],
    n: u32,
    work: &mut [u32],
    inode: u32,
    list: &mut [u32],
) -> Result<usize, Refusal>
    requires { Sized 40 table.now n work.old }
    ensures { WaySays table.now inode list.old (entered_gives (answer_of result) (result_unwrap_or result 0) list.new) (length work.old) work.new }
{
    ready(table, n, work);
    let count = count_way(table, n, work, inode);
    order::clear(work);
    if list.len() < count {
        return Err(Refusal::ListTooShort);
    }
    list_way(table, inode, &mut list[..count]);
    Ok(count)
}

// Lists the directories from an inode up by parents, the inode itself first, as far as they can be followed in a directory table of any bytes: below count and
// room, over no removed directory, and over none twice. Where the root, inode 1, is the last, the way leads to it. Gives how many there are.
pub fn way(table: &[u8], work: &mut [u32], inode: u32, list: &mut [u32]) -> Result<usize, Refusal>
    ensures { WayPromise table.now work.old inode list.old (beside (entered_gives (answer_of result) (result_unwrap_or result 0) list.new) work.new) }
{
    let room = salvage_tree::room_for(table, DIR, work.len())?;
    let n = salvage_tree::bound_of(table, DIR, room);
    way_sized(table, n, &mut work[..room], inode, list)
}
