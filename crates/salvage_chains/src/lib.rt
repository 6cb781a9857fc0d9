// Some chains of a block table of any bytes, each followed as far as it can be trusted. How many blocks they have is counted first where the list might be too
// short.
//
// A walk marks by its chain's place in the list, so that nothing is cleared between walks; all together no more than 5n blocks are followed in a pass, so that
// what the call does is linear in the blocks and the first blocks.
#![tactic(auto)]

ghost use Rattle.std.specs.Prelude.{◌≡◌, ◌+◌, ◌*◌, ◌≤◌, length};
ghost use Rattle.std.specs.Result.{result_unwrap_or};
ghost use Rattle.std.proofs.lemmas.List.Edits.{sets};
ghost use Rattle.order.specs.Answer.{answer_of};
ghost use Rattle.order.specs.Beside.{beside};
ghost use Rattle.fat_promises.specs.Blocks.{blocks_of};
ghost use Rattle.salvage_shared.specs.Inner.Says.{Sized, MayJudge};
ghost use Rattle.salvage_chains.specs.Chains.{one, told};
ghost use Rattle.salvage_chains.specs.Calls.{chained_gives, ChainsPromise};
ghost use Rattle.salvage_chains.specs.Inner.Says.{OneSays, MayNumber, MayAll, Summed, RoomSays, Rooms, Wrote, ChainedSays};

use order::{Fault, Refusal};
use salvage::Walked;

// Follows one of the chains; none where too many blocks were followed before.
fn follow_one(
    table: &[u8],
    n: usize,
    work: &mut [u32],
    first: u32,
    mark: u32,
    spent: usize,
) -> Walked
    requires { MayJudge n table.now work.old mark spent }
    ensures { OneSays n table.now first mark spent result.count result.why work.new }
{
    if 4 * n < spent {
        return Walked {
            count: 0,
            why: Fault { entry: 0, rule: 9 },
        };
    }
    let b = first as usize;
    if n <= b {
        return Walked {
            count: 0,
            why: Fault { entry: 0, rule: 7 },
        };
    }
    salvage::walk(table, n, work, b, mark)
}

// How many blocks the chains have together.
fn sum_all(table: &[u8], n: usize, work: &mut [u32], firsts: &[u32]) -> usize
    requires { MayAll n table.now work.old firsts.now }
    ensures { Summed n table.now firsts.now result work.new }
{
    let mut at = 0;
    for (i, first) in firsts.iter().enumerate() {
        at += follow_one(table, n, work, *first, (i + 1) as u32, at).count;
    }
    at
}

// Whether the blocks of all chains have room in so many places. 5n are always enough; the work list is clear before and after it.
fn has_room(table: &[u8], n: usize, work: &mut [u32], firsts: &[u32], room: usize) -> bool
    requires { MayAll n table.now work.old firsts.now }
    ensures { RoomSays n table.now firsts.now room result work.new }
{
    if 5 * n <= room {
        return true;
    }
    let count = sum_all(table, n, work, firsts);
    order::clear(work);
    count <= room
}

// Writes what is told of a chain, from place at on.
fn put_end(ends: &mut [usize], at: usize, walked: Walked)
    requires { at + 3 ≤ length ends.old }
    ensures { ends.new ≡ sets ends.old at (told walked.count walked.why) }
{
    let Walked { count, why } = walked;
    ends[at..at + 3].copy_from_slice(&[count, why.entry, why.rule as usize]);
}

// Writes the blocks of one of the chains, from place at on.
fn number_one(
    table: &[u8],
    n: usize,
    first: u32,
    spent: usize,
    count: usize,
    list: &mut [u32],
    at: usize,
)
    requires { MayNumber n table.now first spent count list.old at }
    ensures { list.new ≡ sets list.old at (blocks_of (one n table.now first spent).runs) }
{
    if count != 0 {
        salvage::number_chain(table, n, first as usize, count, list, at);
    }
}

// Writes what is told of each chain, and the blocks of all; how many these are.
fn write_all(
    table: &[u8],
    n: usize,
    work: &mut [u32],
    firsts: &[u32],
    ends: &mut [usize],
    list: &mut [u32],
) -> usize
    requires may_all { MayAll n table.now work.old firsts.now }
    requires rooms { Rooms n table.now firsts.now ends.old list.old }
    ensures { Wrote n table.now firsts.now ends.old list.old ends.new list.new work.new result }
{
    let mut at = 0;
    for (i, first) in firsts.iter().enumerate() {
        let walked = follow_one(table, n, work, *first, (i + 1) as u32, at);
        put_end(ends, 3 * i, walked);
        number_one(table, n, *first, at, walked.count, list, at);
        at += walked.count;
    }
    at
}

// Follows the chains on a table of n blocks. The work list has n places.
fn chains_sized(
    table: &[u8],
    n: usize,
    work: &mut [u32],
    firsts: &[u32],
    ends: &mut [usize],
    list: &mut [u32],
) -> Result<usize, Refusal>
    requires sized { Sized n table.now work.old }
    requires firsts_len_bound { length firsts.now ≤ 1000000 }
    ensures { ChainedSays n table.now firsts.now ends.old list.old (chained_gives (answer_of result) (result_unwrap_or result 0) ends.new list.new) work.new }
{
    order::clear(work);
    if ends.len() < 3 * firsts.len() {
        return Err(Refusal::ListTooShort);
    }
    if !has_room(table, n, work, firsts, list.len()) {
        return Err(Refusal::ListTooShort);
    }
    let count = write_all(table, n, work, firsts, ends, list);
    order::clear(work);
    Ok(count)
}

// Follows the chain of each of some first blocks, as far as it can be followed. Three places of the list of ends tell of each: how many blocks were followed,
// and by entry and rule why there are no more, as `chain` says it; where no node can be read at the block there are none, and where the chains before it have
// more than 4n blocks together it is not followed, for which rule 9 stands. The list has the blocks of all, one chain behind the other; later places of both
// stay. Gives how many blocks these are; refuses more than 1,000,000 first blocks as a size, and lists that can't hold the answer.
pub fn chains(
    table: &[u8],
    work: &mut [u32],
    firsts: &[u32],
    ends: &mut [usize],
    list: &mut [u32],
) -> Result<usize, Refusal>
    ensures { ChainsPromise table.now work.old firsts.now ends.old list.old (beside (chained_gives (answer_of result) (result_unwrap_or result 0) ends.new list.new) work.new) }
{
    let n = salvage_shared::blocks_for(table, firsts.len(), work.len())?;
    chains_sized(table, n, &mut work[..n], firsts, ends, list)
}
