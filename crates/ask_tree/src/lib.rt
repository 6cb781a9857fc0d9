// Each tree call by its number in oracle/stored/README.md, for the programs that read from their input what to ask.
#![tactic(auto)]

ghost use Rattle.std.specs.Prelude.{◌≡◌};
ghost use Rattle.std.specs.List.{slice_get};
ghost use Rattle.ask_tree.specs.Calls.{calls};

mod changes;
mod looks;
mod said;

pub use said::Said;
use tree_opens::Want;
use tree_promises::Kind;

// The calls that change no table.
#[derive(Clone, Copy)]
pub enum Look {
    Test,
    Lookup,
    List,
    Stat,
    Name,
    NameAnswer,
    Carried,
    Aged,
}

// The calls on one kind that change tables or open records.
#[derive(Clone, Copy)]
pub enum Change {
    Make,
    Rename,
    Delete,
    SetCarried,
    Open,
    Close,
}

#[derive(Clone, Copy)]
pub enum Call {
    Format,
    Look(Look),
    Change(Change),
}

// The calls in the order of their numbers.
const CALLS: [Call; 15] = [
    Call::Format,
    Call::Look(Look::Test),
    Call::Look(Look::Lookup),
    Call::Change(Change::Make),
    Call::Change(Change::Rename),
    Call::Change(Change::Delete),
    Call::Look(Look::List),
    Call::Look(Look::Stat),
    Call::Look(Look::Name),
    Call::Look(Look::NameAnswer),
    Call::Look(Look::Carried),
    Call::Change(Change::SetCarried),
    Call::Change(Change::Open),
    Call::Change(Change::Close),
    Call::Look(Look::Aged),
];

impl Call {
    // The call with a number, if there is one.
    pub fn numbered(number: u32) -> Option<Call>
        ensures { result ≡ slice_get calls number }
    {
        CALLS.get(number as usize).copied()
    }
}

// The call with a number; a number that no call has asks for carried bytes.
impl From<u32> for Call {
    ghost use Rattle.std.specs.Prelude.{◌≡◌, get_or};
    ghost use Rattle.ask_tree.specs.Calls.{calls};
    ghost use Rattle.ask_tree.specs.declared.Call.TheVariants as call;
    ghost use Rattle.ask_tree.specs.declared.Look.TheVariants as look;

    ghost from_gives = { λ number asked. asked ≡ get_or calls number (call.Look look.Carried) };

    fn from(number: u32) -> Call {
        Call::numbered(number).unwrap_or(Call::Look(Look::Carried))
    }
}

// What is asked; the maxima are format's.
#[derive(Clone, Copy)]
pub struct Request {
    pub call: Call,
    pub kind: Kind,
    pub inode: u32,
    pub parent: u32,
    pub name: [u8; 16],
    pub carried: [u8; 20],
    pub dir_max: usize,
    pub file_max: usize,
}

impl Request {
    // The open that open and close are asked for, by what stands in the parent's place: 0 is a reader's, another number the writer's.
    fn want(&self) -> Want {
        if self.parent == 0 {
            Want::Reader
        } else {
            Want::Writer
        }
    }

    // The four bytes that a directory takes.
    fn padding(&self) -> [u8; 4] {
        let carried = self.carried;
        [carried[0], carried[1], carried[2], carried[3]]
    }
}

// What a call is lent. In the last place of a list of open records is the number of records.
#[derive(Drop)]
pub struct Lent<'a> {
    pub dir_hash: &'a mut [u8],
    pub dir_table: &'a mut [u8],
    pub file_hash: &'a mut [u8],
    pub file_table: &'a mut [u8],
    pub work: &'a mut [u32],
    pub dir_opens: &'a mut [u32],
    pub file_opens: &'a mut [u32],
    pub list: &'a mut [u32],
}

// Makes a call on what is lent to it.
pub fn ask(request: &Request, lent: Lent<'_>) -> Said {
    let Lent {
        dir_hash: dh,
        dir_table: d,
        file_hash: fh,
        file_table: f,
        work,
        dir_opens,
        file_opens,
        list,
    } = lent;
    match request.call {
        Call::Format => {
            tree::format::format(dh, d, request.dir_max, fh, f, request.file_max).into()
        }
        Call::Look(look) => looks::ask(look, request, dh, d, fh, f, work, list),
        Call::Change(change) => match request.kind {
            Kind::Directory => changes::on_dirs(change, request, dh, d, fh, f, work, dir_opens),
            Kind::File => changes::on_files(change, request, dh, d, fh, f, work, file_opens),
        },
    }
}
