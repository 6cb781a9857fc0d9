// The live entries of one entry table of any bytes: those below count and room that the removed list, as far as it can be followed, does not name. `w` is the
// width of an entry.
#![tactic(auto)]

ghost use Rattle.std.specs.Prelude.{◌≡◌, ◌==◌, [], ◌-◌, ◌≤◌, ◌<◌, ◌/◌, length, drop, count_by};
ghost use Rattle.std.specs.Result.{result_unwrap_or};
ghost use Rattle.std.proofs.lemmas.List.Edits.{sets};
ghost use Rattle.order.specs.Answer.{answer_of};
ghost use Rattle.order.specs.Beside.{beside};
ghost use Rattle.salvage_tree.specs.Entries.{bound, gone};
ghost use Rattle.salvage_tree.specs.Calls.{entered_gives, EnteredPromise};
ghost use Rattle.salvage_tree.specs.Inner.Says.{Marks, RoomFor, unmarked, Sized, EnteredSays};

use order::Refusal;

// Marks the entries that the removed list names, as far as it can be followed, in a clear work list.
pub fn mark_gone(table: &[u8], w: usize, n: u32, work: &mut [u32])
    requires sized { Sized w table.now n work.old }
    requires marks { Marks work.old [] }
    ensures { Marks work.new (gone w table.now) }
{
    let mut x = tree_table::link_of(table, w, w - tree_table::LINK, 0);
    for _ in 0..n {
        let i = tree_table::index(x);
        if x == 0 || n <= x || work[i] != 0 {
            return;
        }
        work[i] = 1;
        x = tree_table::link_of(table, w, w - tree_table::LINK, x);
    }
}

// How many entries from 1 on have no mark, of as many as there are marks. A loop over the places: it compiles to a vector loop, an iterator that skips does not.
fn count_live(marks: &[u32]) -> usize
    ensures { result ≡ count_by (λ mark. mark == 0) (drop 1 marks.now) }
{
    let mut count = 0;
    for x in 1..marks.len() {
        if marks[x] == 0 {
            count += 1;
        }
    }
    count
}

// Writes the entries from 1 below n that have no mark to a list, which has room for them.
fn list_live(n: u32, work: &[u32], list: &mut [u32])
    requires n_in_bounds { (n ≤ length work.now) × (n ≤ 65536) }
    requires work_in_bounds { length (unmarked (n - 1) 1 work.now) ≤ length list.old }
    ensures { list.new ≡ sets list.old 0 (unmarked (n - 1) 1 work.now) }
{
    let mut at = 0;
    for x in 1..n {
        if work[tree_table::index(x)] == 0 {
            list[at] = x;
            at += 1;
        }
    }
}

// The inodes of the live ones of n entries, into a list that may be too short; the work list has a place for each that there is room for.
fn entries_sized(
    table: &[u8],
    w: usize,
    n: u32,
    work: &mut [u32],
    list: &mut [u32],
) -> Result<usize, Refusal>
    requires { Sized w table.now n work.old }
    ensures { EnteredSays w table.now list.old (entered_gives (answer_of result) (result_unwrap_or result 0) list.new) (length work.old) work.new }
{
    order::clear(work);
    mark_gone(table, w, n, work);
    let count = count_live(&work[..tree_table::index(n)]);
    if list.len() < count {
        order::clear(work);
        return Err(Refusal::ListTooShort);
    }
    list_live(n, work, list);
    order::clear(work);
    Ok(count)
}

// How many entries a table of any length has room for, where the sizes fit and a work list has a place for each.
pub fn room_for(table: &[u8], w: usize, places: usize) -> Result<usize, Refusal>
    requires { 0 < w }
    ensures { RoomFor w table.now places result }
{
    if table.len() < w {
        return Err(Refusal::SizeMismatch);
    }
    let room = table.len() / w;
    if 65536 < room {
        return Err(Refusal::InvalidValue);
    }
    if places < room {
        return Err(Refusal::WorkTooShort);
    }
    Ok(room)
}

// The entries that are looked at lie below the count and the room of a table.
pub fn bound_of(table: &[u8], w: usize, room: usize) -> u32
    requires some { (24 ≤ w) × (w ≤ length table.now) }
    requires room { (room ≡ length table.now / w) × (room ≤ 65536) }
    ensures { result ≡ bound w table.now }
{
    let count = tree_table::link_of(table, w, tree_table::COUNT, 0);
    count.min(room as u32)
}

// The same of a table of any length.
fn entries_of(table: &[u8], w: usize, work: &mut [u32], list: &mut [u32]) -> Result<usize, Refusal>
    requires { (24 ≤ w) × (w ≤ 48) }
    ensures { EnteredPromise w table.now work.old list.old (beside (entered_gives (answer_of result) (result_unwrap_or result 0) list.new) work.new) }
{
    let room = room_for(table, w, work.len())?;
    let n = bound_of(table, w, room);
    entries_sized(table, w, n, &mut work[..room], list)
}

// Lists the live files of a file table of any bytes, by their inodes.
pub fn files(table: &[u8], work: &mut [u32], list: &mut [u32]) -> Result<usize, Refusal>
    ensures { EnteredPromise 48 table.now work.old list.old (beside (entered_gives (answer_of result) (result_unwrap_or result 0) list.new) work.new) }
{
    entries_of(table, tree_key::SaveExtFileEntry::WIDTH, work, list)
}

// Lists the live directories of a directory table of any bytes, by their inodes.
pub fn dirs(table: &[u8], work: &mut [u32], list: &mut [u32]) -> Result<usize, Refusal>
    ensures { EnteredPromise 40 table.now work.old list.old (beside (entered_gives (answer_of result) (result_unwrap_or result 0) list.new) work.new) }
{
    entries_of(table, tree_key::SaveExtDirEntry::WIDTH, work, list)
}
