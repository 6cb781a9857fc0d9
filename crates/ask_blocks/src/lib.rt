// Each block call by its number in oracle/stored/README.md, for the programs that read from their input what to ask.
#![tactic(auto)]

ghost use Rattle.std.specs.Prelude.{◌≡◌};
ghost use Rattle.std.specs.List.{slice_get};
ghost use Rattle.ask_blocks.specs.Calls.{calls};

use fat_test::Counts;
use order::Refusal;

// The calls, in the order of their numbers.
#[derive(Clone, Copy)]
pub enum Call {
    Format,
    Test,
    OpenList,
    Create,
    Resize,
    Delete,
    Read,
    Write,
    ReadBlocks,
    WriteBlocks,
    Merge,
    PlanCheck,
    PlanApply,
    PlanFind,
    MapBuild,
    MapCreate,
    MapResize,
    MapDelete,
    MapCount,
    KioskCreate,
}

const CALLS: [Call; 20] = [
    Call::Format,
    Call::Test,
    Call::OpenList,
    Call::Create,
    Call::Resize,
    Call::Delete,
    Call::Read,
    Call::Write,
    Call::ReadBlocks,
    Call::WriteBlocks,
    Call::Merge,
    Call::PlanCheck,
    Call::PlanApply,
    Call::PlanFind,
    Call::MapBuild,
    Call::MapCreate,
    Call::MapResize,
    Call::MapDelete,
    Call::MapCount,
    Call::KioskCreate,
];

impl Call {
    // The call with a number, if there is one.
    pub fn numbered(number: u32) -> Option<Call>
        ensures { result ≡ slice_get calls number }
    {
        CALLS.get(number as usize).copied()
    }
}

// The call with a number; a number that no call has asks to read.
impl From<u32> for Call {
    ghost use Rattle.std.specs.Prelude.{◌≡◌, get_or};
    ghost use Rattle.ask_blocks.specs.Calls.{calls};
    ghost use Rattle.ask_blocks.specs.declared.Call.TheVariants.{Read};

    ghost from_gives = { λ number asked. asked ≡ get_or calls number Read };

    fn from(number: u32) -> Call {
        Call::numbered(number).unwrap_or(Call::Read)
    }
}

// What a call answers: the number of RULES 2.1, the other fields, and with BrokenFat the entry and the rule.
#[derive(Clone, Copy)]
pub struct Said {
    pub number: u32,
    pub one: u64,
    pub two: u64,
    pub entry: u64,
    pub rule: u32,
}

impl From<Result<Counts, Refusal>> for Said {
    ghost from_gives = { λ _ _. Unit {0} };

    fn from(r: Result<Counts, Refusal>) -> Said {
        let found = order::broken_at(&r);
        let counts = r.unwrap_or(Counts { free: 0, files: 0 });
        Said {
            number: order::number(&r),
            one: counts.free as u64,
            two: counts.files as u64,
            entry: found.entry as u64,
            rule: found.rule,
        }
    }
}

impl From<Result<usize, Refusal>> for Said {
    ghost from_gives = { λ _ _. Unit {0} };

    fn from(r: Result<usize, Refusal>) -> Said {
        r.map(|free| Counts { free, files: 0 }).into()
    }
}

impl From<Result<(), Refusal>> for Said {
    ghost from_gives = { λ _ _. Unit {0} };

    fn from(r: Result<(), Refusal>) -> Said {
        r.map(|()| 0usize).into()
    }
}

// What is asked: count is also the position of a read or a write. The stretch query's n is the block length, and its stretch is from first up to and
// without count.
#[derive(Clone, Copy)]
pub struct Request {
    pub call: Call,
    pub block_len: usize,
    pub first: usize,
    pub count: usize,
}

// What a call is lent; the list is also the plan of a call that takes one, and the free map of a call that takes one.
#[derive(Drop)]
pub struct Lent<'a> {
    pub table: &'a mut [u8],
    pub data: &'a mut [u8],
    pub work: &'a mut [u32],
    pub list: &'a mut [u32],
    pub buf: &'a mut [u8],
}

// Makes a call on what is lent to it.
pub fn ask(request: Request, lent: Lent<'_>) -> Said {
    let Request {
        call,
        block_len,
        first,
        count,
    } = request;
    let Lent {
        table,
        data,
        work,
        list,
        buf,
    } = lent;
    match call {
        Call::Format => fat_node::format(table).into(),
        Call::Test => fat_test::test(table, work).into(),
        Call::OpenList => fat::open_list(table, data, block_len, work, first, list).into(),
        Call::Create => fat::create(table, data, block_len, work, count).into(),
        Call::Resize => fat::resize(table, data, block_len, work, first, count).into(),
        Call::Delete => fat::delete(table, data, block_len, work, first).into(),
        Call::Read => fat::read(table, data, block_len, work, first, count, buf).into(),
        Call::Write => fat::write(table, data, block_len, work, first, count, buf).into(),
        Call::ReadBlocks => fat_listed::read_blocks(data, block_len, list, count, buf).into(),
        Call::WriteBlocks => fat_listed::write_blocks(data, block_len, list, count, buf).into(),
        Call::Merge => fat_merge::merge(table, block_len, work).into(),
        Call::PlanCheck => fat_plan::check(table, data, block_len, work, first, list).into(),
        Call::PlanApply => fat_apply::apply(table, data, block_len, work, first, list).into(),
        Call::PlanFind => fat_plan::find(table, data, block_len, work, first, list).into(),
        Call::MapBuild => fat_map::build(table, data, block_len, work, list).into(),
        Call::MapCreate => fat_map::create(table, data, block_len, work, list, count).into(),
        Call::MapResize => fat_map::resize(table, data, block_len, work, list, first, count).into(),
        Call::MapDelete => fat_map::delete(table, data, block_len, work, list, first).into(),
        Call::MapCount => fat_map::count(list, block_len, first, count).into(),
        Call::KioskCreate => kiosk_create::create(table, data, block_len, work, count).into(),
    }
}
