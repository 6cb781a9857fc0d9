// What can still be trusted on tables of any bytes: one chain, which of some chains are whole, some chains, the live entries of one entry table, and the way up from a directory.
ghost use Rattle.order.specs.Answer.{fault};
ghost use Rattle.order.specs.Beside.{beside};
ghost use Rattle.salvage.specs.Calls.{chain_gives, ChainPromise};
ghost use Rattle.salvage_shared.specs.Calls.{shared_gives, SharedPromise};
ghost use Rattle.salvage_chains.specs.Calls.{chained_gives, ChainsPromise};
ghost use Rattle.salvage_tree.specs.Calls.{entered_gives, EnteredPromise};
ghost use Rattle.salvage_way.specs.Calls.{WayPromise};
ghost use Rattle.mukthiban.specs.Export.{Exported};

use crate::{Listed, Plain, Salvaged};

#[unsafe(no_mangle)]
pub extern "C" fn mukthiban_salvage_chain(
    table: &[u8],
    work: &mut [u32],
    first_block: usize,
    list: &mut [u32],
) -> Salvaged
    ensures { Exported result.answer (λ a. ChainPromise table.now work.old first_block list.old (beside (chain_gives a result.count (fault result.entry result.rule) list.new) work.new)) }
{
    salvage::chain(table, work, first_block, list).into()
}

#[unsafe(no_mangle)]
pub extern "C" fn mukthiban_salvage_shared(
    table: &[u8],
    work: &mut [u32],
    firsts: &[u32],
    list: &mut [u32],
) -> Plain
    ensures { Exported result.answer (λ a. SharedPromise table.now work.old firsts.now list.old (beside (shared_gives a list.new) work.new)) }
{
    salvage_shared::shared(table, work, firsts, list).into()
}

#[unsafe(no_mangle)]
pub extern "C" fn mukthiban_salvage_chains(
    table: &[u8],
    work: &mut [u32],
    firsts: &[u32],
    ends: &mut [usize],
    list: &mut [u32],
) -> Listed
    ensures { Exported result.answer (λ a. ChainsPromise table.now work.old firsts.now ends.old list.old (beside (chained_gives a result.count ends.new list.new) work.new)) }
{
    salvage_chains::chains(table, work, firsts, ends, list).into()
}

#[unsafe(no_mangle)]
pub extern "C" fn mukthiban_salvage_dirs(table: &[u8], work: &mut [u32], list: &mut [u32]) -> Listed
    ensures { Exported result.answer (λ a. EnteredPromise 40 table.now work.old list.old (beside (entered_gives a result.count list.new) work.new)) }
{
    salvage_tree::dirs(table, work, list).into()
}

#[unsafe(no_mangle)]
pub extern "C" fn mukthiban_salvage_files(
    table: &[u8],
    work: &mut [u32],
    list: &mut [u32],
) -> Listed
    ensures { Exported result.answer (λ a. EnteredPromise 48 table.now work.old list.old (beside (entered_gives a result.count list.new) work.new)) }
{
    salvage_tree::files(table, work, list).into()
}

#[unsafe(no_mangle)]
pub extern "C" fn mukthiban_salvage_way(
    table: &[u8],
    work: &mut [u32],
    inode: u32,
    list: &mut [u32],
) -> Listed
    ensures { Exported result.answer (λ a. WayPromise table.now work.old inode list.old (beside (entered_gives a result.count list.new) work.new)) }
{
    salvage_way::way(table, work, inode, list).into()
}
