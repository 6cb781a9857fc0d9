// Which of some chains of a block table of any bytes are whole, which are cut, and which share a block.
//
// The chains are followed three times each: to tell which are whole, to count them in the work list, and to look for a block that is counted twice. All
// together no more than 5n blocks are followed in a pass, so that what the call does is linear in the blocks and the first blocks.
#![tactic(auto)]

ghost use Rattle.std.specs.Prelude.{◌≡◌, [], ◌∷◌, ◌+◌, ◌≤◌, length};
ghost use Rattle.order.specs.Beside.{beside};
ghost use Rattle.fat_node.specs.Node.{run, NodeAt, next_at};
ghost use Rattle.salvage.specs.Follow.{salvaged};
ghost use Rattle.salvage_shared.specs.Shared.{whole_runs, laid};
ghost use Rattle.salvage_shared.specs.Trust.{number_of};
ghost use Rattle.salvage_shared.specs.Calls.{shared_gives, SharedPromise};
ghost use Rattle.salvage_shared.specs.Inner.Says.{More, Added, MeetsRun, MeetsRuns, Tells, TellsAll, NodeHere, Sized, WholeAt, Told, Kinds, MayJudge, Judges, MayShare, JudgedAll, Shares, SharedSays, BlocksFor};

use order::Refusal;

// What is told of a chain: it is whole, it is cut, it is whole but shares a block, or it was not followed.
#[derive(Clone, Copy, PartialEq, Eq)]
pub enum Trust {
    Whole,
    Cut,
    Shared,
    NotFollowed,
}

impl Trust {
    ghost use Rattle.salvage_shared.specs.Trust.{number_of};

    // Its number, as it stands in the lent list.
    pub fn number(self) -> u32
        ensures { result ≡ number_of self }
    {
        match self {
            Trust::Whole => 0,
            Trust::Cut => 1,
            Trust::Shared => 2,
            Trust::NotFollowed => 3,
        }
    }
}

// A count with one more: 2 stands for more than one.
fn one_more(v: u32) -> u32
    ensures { More v result }
{
    if v < 2 { v + 1 } else { v }
}

// Counts size blocks from b on.
fn lay_run(work: &mut [u32], b: usize, size: usize)
    requires { b + size ≤ length work.old }
    ensures { Added work.old work.new (run b size ∷ []) }
{
    for x in b..b + size {
        work[x] = one_more(work[x]);
    }
}

// The size of the node that stands at block b.
fn node_size(table: &[u8], n: usize, b: usize) -> usize
    requires { NodeHere n table.now b }
    ensures { NodeAt table.now n b result }
{
    fat_node::size_of(table, n, b) as usize
}

// The index of its next.
fn node_next(table: &[u8], n: usize, b: usize) -> usize
    requires { NodeHere n table.now b }
    ensures { result ≡ next_at table.now b }
{
    fat_node::next_of(table, b)
}

// Counts the blocks of a whole chain.
fn lay_chain(table: &[u8], n: usize, work: &mut [u32], first: usize)
    requires { WholeAt n table.now work.old first }
    ensures { Added work.old work.new (salvaged n table.now first).runs }
{
    let mut i = first + 1;
    let mut left = n;
    while i != 0 {
        let b = i - 1;
        let size = node_size(table, n, b);
        lay_run(work, b, size);
        left -= size;
        i = node_next(table, n, b);
    }
}

// Counts the blocks of a chain where it is whole.
fn lay_one(table: &[u8], n: usize, work: &mut [u32], first: u32, kind: u32)
    requires { Told n table.now work.old first kind }
    ensures { Added work.old work.new (whole_runs n table.now first kind) }
{
    if kind == Trust::Whole.number() {
        lay_chain(table, n, work, first as usize);
    }
}

// Counts the blocks of all chains that are whole.
fn lay_all(table: &[u8], n: usize, work: &mut [u32], firsts: &[u32], list: &[u32])
    requires { Kinds n table.now work.old firsts.now list.now }
    ensures { Added work.old work.new (laid n table.now firsts.now list.now) }
{
    for (i, first) in firsts.iter().enumerate() {
        lay_one(table, n, work, *first, list[i]);
    }
}

// Whether one of size blocks from b on is counted twice.
fn run_meets(work: &[u32], b: usize, size: usize) -> bool
    requires { b + size ≤ length work.now }
    ensures { MeetsRun work.now b size result }
{
    work[b..b + size].contains(&2)
}

// Whether a block of a whole chain is.
fn chain_meets(table: &[u8], n: usize, work: &[u32], first: usize) -> bool
    requires { WholeAt n table.now work.now first }
    ensures { MeetsRuns work.now (salvaged n table.now first).runs result }
{
    let mut i = first + 1;
    let mut left = n;
    while i != 0 {
        let b = i - 1;
        let size = node_size(table, n, b);
        if run_meets(work, b, size) {
            return true;
        }
        left -= size;
        i = node_next(table, n, b);
    }
    false
}

// What is told of a chain in the end.
fn tell_one(table: &[u8], n: usize, work: &[u32], first: u32, kind: u32) -> u32
    requires { Told n table.now work.now first kind }
    ensures { Tells n table.now work.now first kind result }
{
    if kind == Trust::Whole.number() && chain_meets(table, n, work, first as usize) {
        return Trust::Shared.number();
    }
    kind
}

// What is told of each.
fn tell_all(table: &[u8], n: usize, work: &[u32], firsts: &[u32], list: &mut [u32])
    requires { Kinds n table.now work.now firsts.now list.old }
    ensures { TellsAll n table.now work.now firsts.now list.old list.new }
{
    for (i, first) in firsts.iter().enumerate() {
        list[i] = tell_one(table, n, work, *first, list[i]);
    }
}

// Whether a chain is whole, and how many blocks were followed up to its end.
#[derive(Clone, Copy)]
struct Judged {
    trust: Trust,
    spent: usize,
}

// Whether the chain that a block starts is whole; not asked where too many blocks were followed before.
fn judge(table: &[u8], n: usize, work: &mut [u32], first: u32, mark: u32, spent: usize) -> Judged
    requires { MayJudge n table.now work.old mark spent }
    ensures { Judges n table.now first mark spent work.new (number_of result.trust) result.spent }
{
    if 4 * n < spent {
        return Judged {
            trust: Trust::NotFollowed,
            spent,
        };
    }
    let b = first as usize;
    if n <= b {
        return Judged {
            trust: Trust::Cut,
            spent,
        };
    }
    let walked = salvage::walk(table, n, work, b, mark);
    let trust = if walked.why.rule == 0 {
        Trust::Whole
    } else {
        Trust::Cut
    };
    Judged {
        trust,
        spent: spent + walked.count,
    }
}

// Whether each chain is whole.
fn judge_all(table: &[u8], n: usize, work: &mut [u32], firsts: &[u32], list: &mut [u32])
    requires { MayShare n table.now work.old firsts.now list.old }
    ensures { JudgedAll n table.now firsts.now list.new work.new }
{
    let mut spent = 0;
    for (i, first) in firsts.iter().enumerate() {
        let judged = judge(table, n, work, *first, (i + 1) as u32, spent);
        list[i] = judged.trust.number();
        spent = judged.spent;
    }
}

// What is told of the chains, into a list with a place for each; the work list is clear before and after it.
fn share(table: &[u8], n: usize, work: &mut [u32], firsts: &[u32], list: &mut [u32])
    requires { MayShare n table.now work.old firsts.now list.old }
    ensures { Shares n table.now firsts.now list.new work.new }
{
    judge_all(table, n, work, firsts, list);
    order::clear(work);
    lay_all(table, n, work, firsts, list);
    tell_all(table, n, work, firsts, list);
    order::clear(work);
}

// The same of a table of n blocks and a work list of n places.
fn shared_sized(
    table: &[u8],
    n: usize,
    work: &mut [u32],
    firsts: &[u32],
    list: &mut [u32],
) -> Result<(), Refusal>
    requires sized { Sized n table.now work.old }
    requires firsts_len_bound { length firsts.now ≤ 1000000 }
    ensures { SharedSays n table.now firsts.now list.old (shared_gives result list.new) work.new }
{
    order::clear(work);
    let many = firsts.len();
    if list.len() < many {
        return Err(Refusal::ListTooShort);
    }
    share(table, n, work, firsts, &mut list[..many]);
    Ok(())
}

// How many blocks a table of any length has, where the sizes fit, those of the first blocks too, and a work list has a place for each.
pub fn blocks_for(table: &[u8], firsts: usize, places: usize) -> Result<usize, Refusal>
    ensures { BlocksFor table.now firsts places result }
{
    if fat_node::misfit(table) {
        return Err(Refusal::SizeMismatch);
    }
    if fat_node::outside(table) || 1000000 < firsts {
        return Err(Refusal::InvalidValue);
    }
    let n = table.len() / 8 - 1;
    if places < n {
        return Err(Refusal::WorkTooShort);
    }
    Ok(n)
}

// Tells of each of some first blocks whether its chain is whole and alone (0), cut (1), whole but with a block that another whole chain of these has too, or
// the same chain named twice (2), or not followed, since those before it have more than 4n blocks together (3). Later places of the list stay. Refuses more
// than 1,000,000 first blocks as a size, and a list that has not a place for each.
pub fn shared(
    table: &[u8],
    work: &mut [u32],
    firsts: &[u32],
    list: &mut [u32],
) -> Result<(), Refusal>
    ensures { SharedPromise table.now work.old firsts.now list.old (beside (shared_gives result list.new) work.new) }
{
    let n = blocks_for(table, firsts.len(), work.len())?;
    shared_sized(table, n, &mut work[..n], firsts, list)
}
