// The test of the two entry tables, and the gate that every tree call passes.
#![tactic(auto)]

ghost use Rattle.std.specs.Prelude.{◌≡◌, List, ℕ, ◌+◌, ◌-◌, ◌*◌, ◌/◌, ◌≤◌, ◌<◌, length, get_or, replicate};
ghost use Rattle.tree_table.specs.Field.{field};
ghost use Rattle.tree_table.specs.View.{dir_view, file_view, removed_of};
ghost use Rattle.order.specs.Tells.{Tells};
ghost use Rattle.tree_marks.specs.Inner.Marks.{mark_at};
ghost use Rattle.tree_marks.specs.Inner.Gather.{GoneMarked};
ghost use Rattle.order.specs.Gate.{cleared};
ghost use Rattle.tree_sound.specs.Sizes.{rooms, HashMisfit, Misfit, Beyond, Outside};
ghost use Rattle.tree_sound.specs.Sound.{Sound};
ghost use Rattle.tree_sound.specs.Tables.{tables};
ghost use Rattle.tree_test.specs.Promise.{TestPromise, TreeGateOf, PackedGateOf};
ghost use Rattle.tree_packed.specs.Opens.{opens};
ghost use Rattle.tree_test.specs.Inner.Halves.{RootFits, DirsTested, FilesTested, Sized};

use order::Refusal;

// The widths of the two entry types.
const DIR: usize = tree_key::SaveExtDirEntry::WIDTH;

const FILE: usize = tree_key::SaveExtFileEntry::WIDTH;

// Where the root's entry ends, which is entry 1.
const AFTER_ROOT: usize = DIR + DIR;

// Whether the root is there, with a zero key and no next.
fn root_fits(table: &[u8], mark: u32) -> bool
    requires { 80 ≤ length table.now }
    ensures { Tells (RootFits table.now mark) result }
{
    let key = tree_key::SaveExtKey::new_root();
    mark != tree_marks::GONE
        && tree_key::has_key(&table[DIR..AFTER_ROOT], key)
        && tree_table::link_of(table, DIR, tree_key::SaveExtDirEntry::NEXT, 1) == 0
}

// The test of the directories: their table, the root, the child lists among them, the parents that they name, and that each reaches the root. The
// marks of the directories begin at 0; those of the removed ones are left.
fn test_dirs(hash: &[u8], table: &[u8], work: &mut [u32]) -> bool
    requires { (40 ≤ length table.now) × (length table.now / 40 ≤ 65536) × (0 < length hash.now / 4) × (length hash.now / 4 ≤ 65536)
        × (length table.now / 40 ≤ length work.old) × ((y : ℕ) → mark_at work.old 0 y ≡ 0) }
    ensures { DirsTested hash.now table.now work.old work.new result }
{
    if !tree_alone::test_table(hash, table, DIR, 2, work, 0) {
        return false;
    }
    let count = tree_table::link_of(table, DIR, tree_table::COUNT, 0);
    if !root_fits(table, work[1]) {
        return false;
    }
    if !tree_marks::mark_children(
        table,
        count,
        tree_key::SaveExtDirEntry::SUB_DIR,
        table,
        DIR,
        count,
        work,
        0,
    ) {
        return false;
    }
    if !tree_marks::check_parents(table, DIR, 1, count, work, 0) {
        return false;
    }
    tree_marks::all_reach(work, count)
}

// The test of the files below directories that passed theirs. The marks of the files begin at `off`.
fn test_files(dirs: &[u8], hash: &[u8], table: &[u8], work: &mut [u32], off: usize) -> bool
    requires { (48 ≤ length table.now) × (length table.now / 48 ≤ 65536) × (0 < length hash.now / 4) × (length hash.now / 4 ≤ 65536)
        × (off + length table.now / 48 ≤ length work.old) × ((y : ℕ) → mark_at work.old off y ≡ 0)
        × (40 ≤ length dirs.now) × (1 ≤ field 40 dirs.now 0 1) × (field 40 dirs.now 0 1 ≤ length dirs.now / 40) × (length dirs.now / 40 ≤ off) × (off ≤ 65536) }
    ensures { (dh : List ℕ) → GoneMarked (field 40 dirs.now 0 1) (removed_of (dir_view dh dirs.now)) work.old
        → FilesTested dh dirs.now hash.now table.now result }
{
    if !tree_alone::test_table(hash, table, FILE, 1, work, off) {
        return false;
    }
    let bound = tree_table::link_of(dirs, DIR, tree_table::COUNT, 0);
    let count = tree_table::link_of(table, FILE, tree_table::COUNT, 0);
    if !tree_marks::mark_children(
        dirs,
        bound,
        tree_key::SaveExtDirEntry::SUB_FILE,
        table,
        FILE,
        count,
        work,
        off,
    ) {
        return false;
    }
    tree_marks::check_parents(table, FILE, 0, count, work, off)
}

// Whether the two tables are sound. The work list has a place for each entry of the two, all 0.
fn sound(
    dir_hash: &[u8],
    dir_table: &[u8],
    file_hash: &[u8],
    file_table: &[u8],
    work: &mut [u32],
) -> bool
    requires sized { Sized dir_hash.now dir_table.now file_hash.now file_table.now }
    requires work_len { length work.old ≡ rooms dir_table.now file_table.now }
    requires by_index { (j : ℕ) → get_or work.old j 0 ≡ 0 }
    ensures { Tells (Sound (dir_view dir_hash.now dir_table.now) (file_view dir_table.now file_hash.now file_table.now)) result }
{
    let off = dir_table.len() / DIR;
    test_dirs(dir_hash, dir_table, work) && test_files(dir_table, file_hash, file_table, work, off)
}

// The same with a work list of any content, which is 0 after it.
fn judge(
    dir_hash: &[u8],
    dir_table: &[u8],
    file_hash: &[u8],
    file_table: &[u8],
    work: &mut [u32],
) -> bool
    requires sized { Sized dir_hash.now dir_table.now file_hash.now file_table.now }
    requires work_len { length work.old ≡ rooms dir_table.now file_table.now }
    ensures { Tells (Sound (dir_view dir_hash.now dir_table.now) (file_view dir_table.now file_hash.now file_table.now)) result
        × (work.new ≡ replicate (length work.old) 0) }
{
    order::clear(work);
    let r = sound(dir_hash, dir_table, file_hash, file_table, work);
    order::clear(work);
    r
}

// The same in the first places of a work list, which are 0 after it.
fn verdict(
    dir_hash: &[u8],
    dir_table: &[u8],
    file_hash: &[u8],
    file_table: &[u8],
    work: &mut [u32],
) -> bool
    requires sized { Sized dir_hash.now dir_table.now file_hash.now file_table.now }
    requires file_table_in_bounds { rooms dir_table.now file_table.now ≤ length work.old }
    ensures { Tells (Sound (dir_view dir_hash.now dir_table.now) (file_view dir_table.now file_hash.now file_table.now)) result
        × (work.new ≡ cleared (rooms dir_table.now file_table.now) work.old) }
{
    let places = dir_table.len() / DIR + file_table.len() / FILE;
    judge(
        dir_hash,
        dir_table,
        file_hash,
        file_table,
        &mut work[..places],
    )
}

// Whether a hash is of length 0 or of a length that is not a multiple of 4.
pub fn hash_misfit(hash: &[u8]) -> bool
    ensures { Tells (HashMisfit hash.now) result }
{
    hash.len() == 0 || hash.len() % 4 != 0
}

// Whether one of the four does not fit.
pub fn misfit(dir_hash: &[u8], dir_table: &[u8], file_hash: &[u8], file_table: &[u8]) -> bool
    ensures { Tells (Misfit dir_hash.now dir_table.now file_hash.now file_table.now) result }
{
    hash_misfit(dir_hash)
        || dir_table.len() < DIR
        || hash_misfit(file_hash)
        || file_table.len() < FILE
}

// Whether a number is not from 1 to 65,536.
pub fn beyond(n: usize) -> bool
    ensures { Tells (Beyond n) result }
{
    n < 1 || 65536 < n
}

// Whether one of the four has too few or too many buckets or entries.
fn outside(dir_hash: &[u8], dir_table: &[u8], file_hash: &[u8], file_table: &[u8]) -> bool
    ensures { Tells (Outside dir_hash.now dir_table.now file_hash.now file_table.now) result }
{
    beyond(dir_hash.len() / 4)
        || beyond(dir_table.len() / DIR)
        || beyond(file_hash.len() / 4)
        || beyond(file_table.len() / FILE)
}

// The gate of a call that takes no open records: Ok where the tables are sound and the sizes fit.
pub fn gate(
    dir_hash: &[u8],
    dir_table: &[u8],
    file_hash: &[u8],
    file_table: &[u8],
    work: &mut [u32],
) -> Result<(), Refusal>
    ensures { TreeGateOf (tables dir_hash.now dir_table.now file_hash.now file_table.now) work.old work.new result }
{
    if misfit(dir_hash, dir_table, file_hash, file_table) {
        return Err(Refusal::SizeMismatch);
    }
    if outside(dir_hash, dir_table, file_hash, file_table) {
        return Err(Refusal::InvalidValue);
    }
    if work.len() < dir_table.len() / DIR + file_table.len() / FILE {
        return Err(Refusal::WorkTooShort);
    }
    if !verdict(dir_hash, dir_table, file_hash, file_table, work) {
        return Err(Refusal::BrokenTree);
    }
    Ok(())
}

// The gate of a call that takes a packed list of open records also, whose order is judged with the sizes.
pub fn open_gate(
    dir_hash: &[u8],
    dir_table: &[u8],
    file_hash: &[u8],
    file_table: &[u8],
    list: &[u32],
    opened: usize,
    work: &mut [u32],
) -> Result<(), Refusal>
    ensures { PackedGateOf (tables dir_hash.now dir_table.now file_hash.now file_table.now) (opens opened list.now) work.old work.new result }
{
    if tree_packed::well_formed(list, opened) {
        return gate(dir_hash, dir_table, file_hash, file_table, work);
    }
    if misfit(dir_hash, dir_table, file_hash, file_table) {
        return Err(Refusal::SizeMismatch);
    }
    Err(Refusal::InvalidValue)
}

// The test of the two entry tables. Done: they are sound.
pub fn test(
    dir_hash: &[u8],
    dir_table: &[u8],
    file_hash: &[u8],
    file_table: &[u8],
    work: &mut [u32],
) -> Result<(), Refusal>
    ensures { TestPromise (tables dir_hash.now dir_table.now file_hash.now file_table.now) work.old (result, work.new) }
{
    gate(dir_hash, dir_table, file_hash, file_table, work)
}
