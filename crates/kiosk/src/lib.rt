// The kiosk's test: whether a volume is in the demo kiosk's profile.
#![tactic(auto)]

ghost use Rattle.std.specs.Prelude.{◌+◌, ◌/◌, ◌≤◌, length};
ghost use Rattle.std.specs.Result.{result_unwrap_or};
ghost use Rattle.order.specs.Answer.{answer_of};
ghost use Rattle.tree_sound.specs.Tables.{tables};
ghost use Rattle.audit_inner.specs.Inner.Marks.{Clear};
ghost use Rattle.kiosk_inner.specs.Inner.Judge.{ReadyProfile};
ghost use Rattle.kiosk.specs.Promise.{beside, profile_gives, TestPromise, TestSays};
ghost use Rattle.kiosk.specs.Inner.Opened.{OpenProfile, OpenSays};

use order::Refusal;

// The widths of the two entry types.
const DIR: usize = tree_key::SaveExtDirEntry::WIDTH;

const FILE: usize = tree_key::SaveExtFileEntry::WIDTH;

// The rules judged on tables that passed the gate, in the named places of the work list.
fn test_open(
    table: &[u8],
    block_len: usize,
    dir_table: &[u8],
    file_table: &[u8],
    work: &mut [u32],
) -> u32
    requires { OpenProfile table.now block_len dir_table.now file_table.now work.old }
    ensures { OpenSays table.now block_len dir_table.now file_table.now work.old work.new result }
{
    let rooms = dir_table.len() / DIR + file_table.len() / FILE;
    let n = fat_node::blocks(table);
    let places = n + rooms;
    kiosk_inner::broken_rule(
        table,
        n,
        block_len,
        dir_table,
        file_table,
        &mut work[..places],
    )
}

// Whether the volume is in the profile, or the first rule that is broken: 1, the audit finds nothing; 2, at most 8,191 blocks; 3, no directory but the root;
// 4, at most 64 live files; 5, every chain but the free one a single node; 6, file names of one or more of A to Z and 0 to 9, padded with zeros.
pub fn test(
    table: &[u8],
    data: &[u8],
    block_len: usize,
    dir_hash: &[u8],
    dir_table: &[u8],
    file_hash: &[u8],
    file_table: &[u8],
    work: &mut [u32],
) -> Result<u32, Refusal>
    ensures { TestPromise table.now (length «data».now) block_len (tables dir_hash.now dir_table.now file_hash.now file_table.now) work.old (beside (profile_gives (answer_of result) (result_unwrap_or result 0)) work.new) }
{
    volume_gate::gate(
        table,
        data.len(),
        block_len,
        dir_hash,
        dir_table,
        file_hash,
        file_table,
        work,
    )?;
    Ok(test_open(table, block_len, dir_table, file_table, work))
}

// The same for a side that has tested its tables once and keeps them sound, with a work list of zeros.
pub fn tested_test(
    table: &[u8],
    n: usize,
    block_len: usize,
    dir_table: &[u8],
    file_table: &[u8],
    work: &mut [u32],
) -> Result<u32, Refusal>
    requires ready_profile { ReadyProfile n table.now block_len dir_table.now file_table.now }
    requires file_table_in_bounds { n + length file_table.now / 48 ≤ length work.old }
    requires clear { Clear 0 work.old }
    ensures { TestSays n table.now block_len dir_table.now file_table.now work.old work.new (profile_gives (answer_of result) (result_unwrap_or result 0)) }
{
    Ok(kiosk_inner::broken_rule(table, n, block_len, dir_table, file_table, work))
}
