// Format of the entry tables: an empty tree, the root directory alone. What it promises stands beside the other calls' promises, in tree_promises.
ghost use Rattle.std.specs.Prelude.{◌≡◌, [], ◌∷◌, ◌/◌, ◌%◌, ◌≤◌, ◌<◌, length, replicate};
ghost use Rattle.order.specs.Gate.{cleared};
ghost use Rattle.words.specs.Word.{put_word};
ghost use Rattle.tree_key.specs.Hash.{hash_of};
ghost use Rattle.order.specs.Tells.{Tells};
ghost use Rattle.tree_table.specs.Field.{write, wrote};
ghost use Rattle.tree_sound.specs.Tables.{Tables, tables};
ghost use Rattle.tree_promises.specs.Calls.{carry_gives};
ghost use Rattle.tree_promises.specs.Format.{FormatMisfit, FormatOutside, FormatPromise, formatted};

use order::Refusal;
use tree_key::{SaveExtDirEntry, SaveExtFileEntry, SaveExtKey};

// Whether a table does not fit, or is shorter than its maximum of entries.
fn misfit(
    dir_hash: &[u8],
    dir_table: &[u8],
    dir_max: usize,
    file_hash: &[u8],
    file_table: &[u8],
    file_max: usize,
) -> bool
    ensures { Tells (FormatMisfit (tables dir_hash.now dir_table.now file_hash.now file_table.now) dir_max file_max) result }
{
    tree_test::hash_misfit(dir_hash)
        || dir_table.len() < SaveExtDirEntry::WIDTH
        || tree_test::hash_misfit(file_hash)
        || file_table.len() < SaveExtFileEntry::WIDTH
        || dir_table.len() / SaveExtDirEntry::WIDTH < dir_max
        || file_table.len() / SaveExtFileEntry::WIDTH < file_max
}

// Whether a table has too few or too many buckets or entries, or a maximum is out of its bounds.
fn outside(
    dir_hash: &[u8],
    dir_table: &[u8],
    dir_max: usize,
    file_hash: &[u8],
    file_table: &[u8],
    file_max: usize,
) -> bool
    ensures { Tells (FormatOutside (tables dir_hash.now dir_table.now file_hash.now file_table.now) dir_max file_max) result }
{
    tree_test::beyond(dir_hash.len() / 4)
        || tree_test::beyond(dir_table.len() / SaveExtDirEntry::WIDTH)
        || tree_test::beyond(file_hash.len() / 4)
        || tree_test::beyond(file_table.len() / SaveExtFileEntry::WIDTH)
        || dir_max < 2
        || 65536 < dir_max
        || tree_test::beyond(file_max)
}

// A hash with the root alone.
fn root_hash(hash: &mut [u8])
    requires { 0 < length hash.old / 4 }
    ensures { hash.new ≡ wrote 4 (replicate (length hash.old) 0) (write (hash_of (0 ∷ 0 ∷ 0 ∷ 0 ∷ 0 ∷ []) % (length hash.old / 4)) 0 1 ∷ []) }
{
    let b = tree_key::hash(SaveExtKey::new_root(), hash.len() / 4);
    hash.fill(0);
    tree_table::put_hash(hash, b, 1);
}

// Entry 0 of a table, with its first k bytes zero but for count and maximum.
fn first_entry(table: &mut [u8], k: usize, count: u32, maximum: u32)
    requires { (k ≤ length table.old) × (8 ≤ length table.old) }
    ensures { table.new ≡ put_word (put_word (cleared k table.old) 0 count) 4 maximum }
{
    table[..k].fill(0);
    words::put_u32(table, 0, count);
    words::put_u32(table, 4, maximum);
}

// The empty tree's tables.
fn lay(
    dir_hash: &mut [u8],
    dir_table: &mut [u8],
    dir_max: u32,
    file_hash: &mut [u8],
    file_table: &mut [u8],
    file_max: u32,
)
    requires { (0 < length dir_hash.old / 4) × (80 ≤ length dir_table.old) × (48 ≤ length file_table.old) }
    ensures { (let s : Tables = tables dir_hash.old dir_table.old file_hash.old file_table.old in
        tables dir_hash.new dir_table.new file_hash.new file_table.new ≡ formatted s dir_max
        file_max) }
{
    root_hash(dir_hash);
    first_entry(dir_table, 80, 2, dir_max);
    file_hash.fill(0);
    first_entry(file_table, SaveExtFileEntry::WIDTH, 1, file_max);
}

// Makes an empty tree. Done: the tables hold the root alone. The maxima count entry 0, and of the directories the root.
pub fn format(
    dir_hash: &mut [u8],
    dir_table: &mut [u8],
    dir_max: usize,
    file_hash: &mut [u8],
    file_table: &mut [u8],
    file_max: usize,
) -> Result<(), Refusal>
    ensures { (let s : Tables = tables dir_hash.old dir_table.old file_hash.old file_table.old in
        FormatPromise s dir_max file_max
        (carry_gives result (tables dir_hash.new dir_table.new file_hash.new file_table.new))) }
{
    if misfit(
        dir_hash, dir_table, dir_max, file_hash, file_table, file_max,
    ) {
        return Err(Refusal::SizeMismatch);
    }
    if outside(
        dir_hash, dir_table, dir_max, file_hash, file_table, file_max,
    ) {
        return Err(Refusal::InvalidValue);
    }
    lay(
        dir_hash,
        dir_table,
        dir_max as u32,
        file_hash,
        file_table,
        file_max as u32,
    );
    Ok(())
}
