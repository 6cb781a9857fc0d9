// The inner calls on both layers, for a side that has tested its tables once and keeps them sound.
ghost use Rattle.std.specs.Prelude.{◌+◌, ◌/◌, ◌≤◌, length};
ghost use Rattle.audit_inner.specs.Calls.{audit_gives};
ghost use Rattle.audit_inner.specs.Inner.Marks.{Ready, Clear, AuditSays};
ghost use Rattle.mukthiban.specs.Export.{Located};

use crate::Audited;

#[unsafe(no_mangle)]
pub extern "C" fn mukthiban_tested_volume_audit(
    table: &[u8],
    n: usize,
    block_len: usize,
    file_table: &[u8],
    work: &mut [u32],
    list: &mut [u32],
) -> Audited
    requires ready { Ready n table.now block_len file_table.now }
    requires file_table_in_bounds { n + length file_table.now / 48 ≤ length work.old }
    requires clear { Clear 0 work.old }
    ensures { Located result.answer result.entry result.rule (λ a. AuditSays n table.now block_len file_table.now work.old list.old work.new (audit_gives a result.count list.new)) }
{
    audit_inner::audit_sound(table, n, block_len, file_table, work, list).into()
}
