// The bytes that a caller keeps in an entry, and its name: read, written and shown on sound tables. Nothing here tests soundness.
#![tactic(auto)]

ghost use Rattle.std.specs.Prelude.{◌≡◌, [], ◌++◌, ◌+◌, ◌*◌, ◌≤◌, length, take, drop, replicate};
ghost use Rattle.std.specs.Result.{result_unwrap_or};
ghost use Rattle.order.specs.First.{First};
ghost use Rattle.order.specs.Answer.{Done, answer_of};
ghost use Rattle.tree_sound.specs.Tables.{Tables, tables};
ghost use Rattle.tree_promises.specs.declared.Kind.TheVariants.{Directory, File};
ghost use Rattle.tree_promises.specs.Steps.{with_carried};
ghost use Rattle.tree_promises.specs.Inner.Ready.{Single, alone, set_gives, set_rows};
ghost use Rattle.tree_promises.specs.Calls.{part, shown_rows, shown_gives};

use order::Refusal;
use tree_key::{SaveExtDirEntry, SaveExtFileEntry};
use tree_look::live;

// N bytes of a table, from a place on.
fn bytes_at<const N: usize>(table: &[u8], at: usize) -> [u8; N]
    requires { at + N ≤ length table.now }
    ensures { result ≡ take N (drop at table.now) }
{
    let mut out = [0u8; N];
    out.copy_from_slice(&table[at..at + N]);
    out
}

// Writes N bytes to a table, from a place on.
fn put_bytes<const N: usize>(table: &mut [u8], at: usize, bytes: &[u8; N])
    requires { at + N ≤ length table.old }
    ensures { table.new ≡ take at table.old ++ (bytes.now ++ drop (at + N) table.old) }
{
    table[at..at + N].copy_from_slice(bytes);
}

// Writes the four bytes that a directory carries.
pub fn put_carried_dir(dirs: &mut [u8], x: u32, padding: &[u8; 4])
    requires { x * 40 + 40 ≤ length dirs.old }
    ensures { dirs.new ≡ (with_carried Directory (tables [] dirs.old [] []) x padding.now).dir_table }
{
    let entry = tree_table::index(x) * SaveExtDirEntry::WIDTH;
    put_bytes(dirs, entry + SaveExtDirEntry::CARRIED, padding);
}

// Writes the twenty bytes that a file carries.
pub fn put_carried_file(files: &mut [u8], x: u32, carried: &[u8; 20])
    requires { x * 48 + 48 ≤ length files.old }
    ensures { files.new ≡ (with_carried File (tables [] [] [] files.old) x carried.now).file_table }
{
    let entry = tree_table::index(x) * SaveExtFileEntry::WIDTH;
    put_bytes(files, entry + SaveExtFileEntry::CARRIED, carried);
}

// Reads the N bytes that entry x of a table carries, from place `at` of the entry on.
fn carried<const N: usize>(
    hash: &[u8],
    table: &[u8],
    w: usize,
    at: usize,
    x: u32,
) -> Result<[u8; N], Refusal>
    requires { Single hash.now table.now w × (at + N ≤ w) }
    ensures { First (shown_rows (alone w table.now) x (replicate N 0)) (shown_gives Done (part w table.now x at N)) (shown_gives (answer_of result) (result_unwrap_or result (replicate N 0))) }
{
    if !live(hash, table, w, x) {
        return Err(Refusal::NotFound);
    }
    Ok(bytes_at(table, tree_table::index(x) * w + at))
}

// Reads the four bytes that directory x carries.
pub fn carried_dir(hash: &[u8], table: &[u8], x: u32) -> Result<[u8; 4], Refusal>
    requires { Single hash.now table.now 40 }
    ensures { First (shown_rows (alone 40 table.now) x (replicate 4 0)) (shown_gives Done (part 40 table.now x 32 4)) (shown_gives (answer_of result) (result_unwrap_or result (replicate 4 0))) }
{
    carried(
        hash,
        table,
        SaveExtDirEntry::WIDTH,
        SaveExtDirEntry::CARRIED,
        x,
    )
}

// Reads the twenty bytes that file x carries.
pub fn carried_file(hash: &[u8], table: &[u8], x: u32) -> Result<[u8; 20], Refusal>
    requires { Single hash.now table.now 48 }
    ensures { First (shown_rows (alone 48 table.now) x (replicate 20 0)) (shown_gives Done (part 48 table.now x 24 20)) (shown_gives (answer_of result) (result_unwrap_or result (replicate 20 0))) }
{
    carried(
        hash,
        table,
        SaveExtFileEntry::WIDTH,
        SaveExtFileEntry::CARRIED,
        x,
    )
}

// Writes the four bytes that directory x carries.
pub fn set_carried_dir(
    hash: &[u8],
    table: &mut [u8],
    x: u32,
    padding: [u8; 4],
) -> Result<(), Refusal>
    requires { Single hash.now table.old 40 }
    ensures { (let s : Tables = tables [] table.old [] [] in
        First (set_rows 40 table.old x) (set_gives Done (with_carried Directory s x padding).dir_table) (set_gives result table.new)) }
{
    if !live(hash, table, SaveExtDirEntry::WIDTH, x) {
        return Err(Refusal::NotFound);
    }
    put_carried_dir(table, x, &padding);
    Ok(())
}

// Writes the twenty bytes that file x carries.
pub fn set_carried_file(
    hash: &[u8],
    table: &mut [u8],
    x: u32,
    carried: [u8; 20],
) -> Result<(), Refusal>
    requires { Single hash.now table.old 48 }
    ensures { (let s : Tables = tables [] [] [] table.old in
        First (set_rows 48 table.old x) (set_gives Done (with_carried File s x carried).file_table) (set_gives result table.new)) }
{
    if !live(hash, table, SaveExtFileEntry::WIDTH, x) {
        return Err(Refusal::NotFound);
    }
    put_carried_file(table, x, &carried);
    Ok(())
}

// The sixteen name bytes of entry x, as a part of its table.
pub fn name_part(table: &[u8], w: usize, x: u32) -> &[u8]
    requires { (x * w + w ≤ length table.now) × (20 ≤ w) }
    ensures { result.now ≡ part w table.now x 4 16 }
{
    let start = tree_table::index(x) * w + 4;
    let end = start + 16;
    &table[start..end]
}
