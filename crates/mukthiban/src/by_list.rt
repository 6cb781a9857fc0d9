// Read and write by a file's block list, which the caller opened once.
ghost use Rattle.fat_promises.specs.Calls.{carry_gives};
ghost use Rattle.fat_listed.specs.Listed.{ReadBlocksPromise, WriteBlocksPromise};
ghost use Rattle.mukthiban.specs.Export.{Exported};

use crate::Plain;

#[unsafe(no_mangle)]
pub extern "C" fn mukthiban_fat_read_blocks(
    data: &[u8],
    block_len: usize,
    list: &[u32],
    pos: usize,
    buf: &mut [u8],
) -> Plain
    ensures { Exported result.answer (λ a. ReadBlocksPromise «data».now block_len list.now pos buf.old (carry_gives a buf.new)) }
{
    fat_listed::read_blocks(data, block_len, list, pos, buf).into()
}

#[unsafe(no_mangle)]
pub extern "C" fn mukthiban_fat_write_blocks(
    data: &mut [u8],
    block_len: usize,
    list: &[u32],
    pos: usize,
    buf: &[u8],
) -> Plain
    ensures { Exported result.answer (λ a. WriteBlocksPromise «data».old block_len list.now pos buf.now (carry_gives a «data».new)) }
{
    fat_listed::write_blocks(data, block_len, list, pos, buf).into()
}
