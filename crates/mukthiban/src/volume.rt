// The calls on both layers.
ghost use Rattle.std.specs.Prelude.{length};
ghost use Rattle.tree_sound.specs.Tables.{tables};
ghost use Rattle.audit_inner.specs.Calls.{audit_gives};
ghost use Rattle.audit.specs.Promise.{beside, AuditPromise};
ghost use Rattle.mukthiban.specs.Export.{Located};

use crate::Audited;

#[unsafe(no_mangle)]
pub extern "C" fn mukthiban_volume_audit(
    table: &[u8],
    data: &[u8],
    block_len: usize,
    dir_hash: &[u8],
    dir_table: &[u8],
    file_hash: &[u8],
    file_table: &[u8],
    work: &mut [u32],
    list: &mut [u32],
) -> Audited
    ensures { Located result.answer result.entry result.rule (λ a. AuditPromise table.now (length «data».now) block_len (tables dir_hash.now dir_table.now file_hash.now file_table.now) work.old list.old (beside (audit_gives a result.count list.new) work.new)) }
{
    audit::audit(
        table, data, block_len, dir_hash, dir_table, file_hash, file_table, work, list,
    )
    .into()
}
