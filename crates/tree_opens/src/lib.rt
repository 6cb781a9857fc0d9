// The record of an inode's opens, and what one open more or less makes of it. It is one u32: the top bit says that a writer holds the inode, the low 31 bits
// count its readers. Where the records stand is the matter of crate tree_packed.
#![tactic(auto)]

ghost use Rattle.std.specs.Prelude.{◌≡◌};
ghost use Rattle.tree_opens.specs.Record.{readers, writer, total};
ghost use Rattle.tree_opens.specs.Step.{more, less, more_tests, less_tests, SteppedBy};

use order::Refusal;

// The top bit.
const WRITER: u32 = 1 << 31;

// Which open is asked for, or given back.
#[derive(Clone, Copy)]
pub enum Want {
    Reader,
    Writer,
}

// The readers in a record.
pub fn readers_in(record: u32) -> u32
    ensures { result ≡ readers «record» }
{
    record % WRITER
}

// 1 where a writer holds it, else 0.
pub fn writer_in(record: u32) -> u32
    ensures { result ≡ writer «record» }
{
    record / WRITER
}

// Readers and writer together.
fn total_in(record: u32) -> u32
    ensures { result ≡ total «record» }
{
    record % WRITER + record / WRITER
}

// The record with one open more: TooManyOpens, Busy.
pub fn one_more(record: u32, want: Want) -> Result<u32, Refusal>
    ensures { SteppedBy (more_tests «record» want) (more «record» want) result }
{
    if total_in(record) >= 65535 {
        return Err(Refusal::TooManyOpens);
    }
    match want {
        Want::Reader => Ok(record + 1),
        Want::Writer => {
            if writer_in(record) != 0 {
                return Err(Refusal::Busy);
            }
            Ok(record + WRITER)
        }
    }
}

// The record with one open less: NotOpen.
pub fn one_less(record: u32, want: Want) -> Result<u32, Refusal>
    ensures { SteppedBy (less_tests «record» want) (less «record» want) result }
{
    match want {
        Want::Reader => {
            if readers_in(record) == 0 {
                return Err(Refusal::NotOpen);
            }
            Ok(record - 1)
        }
        Want::Writer => {
            if writer_in(record) == 0 {
                return Err(Refusal::NotOpen);
            }
            Ok(record - WRITER)
        }
    }
}
