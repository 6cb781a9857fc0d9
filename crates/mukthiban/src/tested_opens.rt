// The inner calls on the entry tables that touch open records, for a side that has tested its tables once and keeps them sound.
ghost use Rattle.tree_promises.specs.Inner.Ready.{ReadyOpens};
ghost use Rattle.tree_sound.specs.Tables.{tables, dirs, files};
ghost use Rattle.tree_packed.specs.Opens as packed;
ghost use Rattle.tree_promises.specs.Inner.Opening.{opening_in, OpenIn, CloseIn};
ghost use Rattle.mukthiban.specs.Export.{Exported};
ghost use Rattle.mukthiban.specs.Opening.{want_of};
ghost use Rattle.std.specs.Prelude.{◌≤◌};

use crate::Plain;
use crate::opens::want_of;
use tree_key::{SaveExtDirEntry, SaveExtFileEntry};

#[unsafe(no_mangle)]
pub extern "C" fn mukthiban_tested_tree_open_dir(
    dir_hash: &[u8],
    dir_table: &[u8],
    file_hash: &[u8],
    file_table: &[u8],
    opens: &mut [u32],
    opened: &mut usize,
    inode: u32,
    kind: u32,
) -> Plain
    requires { ReadyOpens (tables dir_hash.now dir_table.now file_hash.now file_table.now) (packed.opens opened.old opens.old) × (kind ≤ 1) }
    ensures { Exported result.answer (λ a. OpenIn (dirs (tables dir_hash.now dir_table.now file_hash.now file_table.now)) (packed.opens opened.old opens.old) inode (want_of kind) (opening_in a (packed.opens opened.new opens.new))) }
{
    tree_look::open(
        dir_hash,
        dir_table,
        SaveExtDirEntry::WIDTH,
        opens,
        opened,
        inode,
        want_of(kind),
    )
    .into()
}

#[unsafe(no_mangle)]
pub extern "C" fn mukthiban_tested_tree_open_file(
    dir_hash: &[u8],
    dir_table: &[u8],
    file_hash: &[u8],
    file_table: &[u8],
    opens: &mut [u32],
    opened: &mut usize,
    inode: u32,
    kind: u32,
) -> Plain
    requires { ReadyOpens (tables dir_hash.now dir_table.now file_hash.now file_table.now) (packed.opens opened.old opens.old) × (kind ≤ 1) }
    ensures { Exported result.answer (λ a. OpenIn (files (tables dir_hash.now dir_table.now file_hash.now file_table.now)) (packed.opens opened.old opens.old) inode (want_of kind) (opening_in a (packed.opens opened.new opens.new))) }
{
    tree_look::open(
        file_hash,
        file_table,
        SaveExtFileEntry::WIDTH,
        opens,
        opened,
        inode,
        want_of(kind),
    )
    .into()
}

#[unsafe(no_mangle)]
pub extern "C" fn mukthiban_tested_tree_close_dir(
    dir_hash: &[u8],
    dir_table: &[u8],
    file_hash: &[u8],
    file_table: &[u8],
    opens: &mut [u32],
    opened: &mut usize,
    inode: u32,
    kind: u32,
) -> Plain
    requires { ReadyOpens (tables dir_hash.now dir_table.now file_hash.now file_table.now) (packed.opens opened.old opens.old) × (kind ≤ 1) }
    ensures { Exported result.answer (λ a. CloseIn (dirs (tables dir_hash.now dir_table.now file_hash.now file_table.now)) (packed.opens opened.old opens.old) inode (want_of kind) (opening_in a (packed.opens opened.new opens.new))) }
{
    tree_look::close(
        dir_hash,
        dir_table,
        SaveExtDirEntry::WIDTH,
        opens,
        opened,
        inode,
        want_of(kind),
    )
    .into()
}

#[unsafe(no_mangle)]
pub extern "C" fn mukthiban_tested_tree_close_file(
    dir_hash: &[u8],
    dir_table: &[u8],
    file_hash: &[u8],
    file_table: &[u8],
    opens: &mut [u32],
    opened: &mut usize,
    inode: u32,
    kind: u32,
) -> Plain
    requires { ReadyOpens (tables dir_hash.now dir_table.now file_hash.now file_table.now) (packed.opens opened.old opens.old) × (kind ≤ 1) }
    ensures { Exported result.answer (λ a. CloseIn (files (tables dir_hash.now dir_table.now file_hash.now file_table.now)) (packed.opens opened.old opens.old) inode (want_of kind) (opening_in a (packed.opens opened.new opens.new))) }
{
    tree_look::close(
        file_hash,
        file_table,
        SaveExtFileEntry::WIDTH,
        opens,
        opened,
        inode,
        want_of(kind),
    )
    .into()
}
