// The audit of the two layers together: where the files' records and the chains of the block table disagree.
#![tactic(auto)]

ghost use Rattle.std.specs.Prelude.{length};
ghost use Rattle.std.specs.Result.{result_unwrap_or};
ghost use Rattle.order.specs.Answer.{answer_of};
ghost use Rattle.tree_sound.specs.Tables.{tables};
ghost use Rattle.audit_inner.specs.Calls.{audit_gives};
ghost use Rattle.audit.specs.Promise.{beside, AuditPromise};
ghost use Rattle.audit.specs.Inner.Opened.{OpenVolume, OpenSays};

use order::Refusal;

// The widths of the two entry types.
const DIR: usize = tree_key::SaveExtDirEntry::WIDTH;

const FILE: usize = tree_key::SaveExtFileEntry::WIDTH;

// The audit of tables that passed the gate, in the named places of the work list.
fn audit_open(
    table: &[u8],
    block_len: usize,
    dir_table: &[u8],
    file_table: &[u8],
    work: &mut [u32],
    list: &mut [u32],
) -> Result<usize, Refusal>
    requires { OpenVolume table.now block_len dir_table.now file_table.now work.old }
    ensures { OpenSays table.now block_len file_table.now work.old list.old work.new (audit_gives (answer_of result) (result_unwrap_or result 0) list.new) }
{
    let rooms = dir_table.len() / DIR + file_table.len() / FILE;
    let n = fat_node::blocks(table);
    let places = n + rooms;
    audit_inner::audit_sound(table, n, block_len, file_table, &mut work[..places], list)
}

// Writes the findings to the list, two places each: the kind, then the inode (kinds 1 to 3) or the first block (kind 4). In the order of inodes, and of
// one file in this order: 1, its block is no file chain's first; 2, a file of lower inode and size above 0 names the same chain; 3, its size is over the
// chain's blocks times the block length. Then by first block: 4, a chain that no file names. A file of size 0 has no finding and names no chain. Answers
// its number and how many findings there are; ListTooShort where the list can't hold them all.
pub fn audit(
    table: &[u8],
    data: &[u8],
    block_len: usize,
    dir_hash: &[u8],
    dir_table: &[u8],
    file_hash: &[u8],
    file_table: &[u8],
    work: &mut [u32],
    list: &mut [u32],
) -> Result<usize, Refusal>
    ensures { AuditPromise table.now (length «data».now) block_len (tables dir_hash.now dir_table.now file_hash.now file_table.now) work.old list.old (beside (audit_gives (answer_of result) (result_unwrap_or result 0) list.new) work.new) }
{
    volume_gate::gate(
        table,
        data.len(),
        block_len,
        dir_hash,
        dir_table,
        file_hash,
        file_table,
        work,
    )?;
    audit_open(table, block_len, dir_table, file_table, work, list)
}
