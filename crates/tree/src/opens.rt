// The public calls on open records: open and close, over a packed list of them and the number of records in it. Opening says which it wants, a reader's open or the writer's; closing says which it gives back.
ghost use Rattle.order.specs.Beside.{beside};
ghost use Rattle.tree_sound.specs.Tables.{Tables, tables};
ghost use Rattle.tree_packed.specs.Opens.{opens};
ghost use Rattle.tree_promises.specs.declared.Kind.TheVariants.{Directory, File};
ghost use Rattle.tree_promises.specs.Packed.{gives, PackedOpen, PackedClose};

use order::Refusal;
use tree_key::{SaveExtDirEntry, SaveExtFileEntry};
use tree_opens::Want;

// Opens directory `inode` once more. Done: its record has one reader more, or the writer.
pub fn open_dir(
    dir_hash: &[u8],
    dir_table: &[u8],
    file_hash: &[u8],
    file_table: &[u8],
    work: &mut [u32],
    list: &mut [u32],
    opened: &mut usize,
    inode: u32,
    want: Want,
) -> Result<(), Refusal>
    ensures { (let s : Tables = tables dir_hash.now dir_table.now file_hash.now file_table.now in
        PackedOpen Directory s (opens opened.old list.old) work.old inode want
        (beside (gives result 0 s (opens opened.new list.new)) work.new)) }
{
    tree_test::open_gate(
        dir_hash, dir_table, file_hash, file_table, list, *opened, work,
    )?;
    tree_look::open(
        dir_hash,
        dir_table,
        SaveExtDirEntry::WIDTH,
        list,
        opened,
        inode,
        want,
    )
}

// Opens file `inode` once more. Done: its record has one reader more, or the writer.
pub fn open_file(
    dir_hash: &[u8],
    dir_table: &[u8],
    file_hash: &[u8],
    file_table: &[u8],
    work: &mut [u32],
    list: &mut [u32],
    opened: &mut usize,
    inode: u32,
    want: Want,
) -> Result<(), Refusal>
    ensures { (let s : Tables = tables dir_hash.now dir_table.now file_hash.now file_table.now in
        PackedOpen File s (opens opened.old list.old) work.old inode want
        (beside (gives result 0 s (opens opened.new list.new)) work.new)) }
{
    tree_test::open_gate(
        dir_hash, dir_table, file_hash, file_table, list, *opened, work,
    )?;
    tree_look::open(
        file_hash,
        file_table,
        SaveExtFileEntry::WIDTH,
        list,
        opened,
        inode,
        want,
    )
}

// Closes directory `inode` once. Done: its record has one reader less, or no writer.
pub fn close_dir(
    dir_hash: &[u8],
    dir_table: &[u8],
    file_hash: &[u8],
    file_table: &[u8],
    work: &mut [u32],
    list: &mut [u32],
    opened: &mut usize,
    inode: u32,
    want: Want,
) -> Result<(), Refusal>
    ensures { (let s : Tables = tables dir_hash.now dir_table.now file_hash.now file_table.now in
        PackedClose Directory s (opens opened.old list.old) work.old inode want
        (beside (gives result 0 s (opens opened.new list.new)) work.new)) }
{
    tree_test::open_gate(
        dir_hash, dir_table, file_hash, file_table, list, *opened, work,
    )?;
    tree_look::close(
        dir_hash,
        dir_table,
        SaveExtDirEntry::WIDTH,
        list,
        opened,
        inode,
        want,
    )
}

// Closes file `inode` once. Done: its record has one reader less, or no writer.
pub fn close_file(
    dir_hash: &[u8],
    dir_table: &[u8],
    file_hash: &[u8],
    file_table: &[u8],
    work: &mut [u32],
    list: &mut [u32],
    opened: &mut usize,
    inode: u32,
    want: Want,
) -> Result<(), Refusal>
    ensures { (let s : Tables = tables dir_hash.now dir_table.now file_hash.now file_table.now in
        PackedClose File s (opens opened.old list.old) work.old inode want
        (beside (gives result 0 s (opens opened.new list.new)) work.new)) }
{
    tree_test::open_gate(
        dir_hash, dir_table, file_hash, file_table, list, *opened, work,
    )?;
    tree_look::close(
        file_hash,
        file_table,
        SaveExtFileEntry::WIDTH,
        list,
        opened,
        inode,
        want,
    )
}
