// Why a call is refused, by the names of RULES 2.1, and the work list's clearing.
#![tactic(auto)]

ghost use Rattle.std.specs.Prelude.{◌≡◌, Result, length, replicate};
ghost use Rattle.order.specs.Answer.{answer_of, fault_in, number_of, number_with};

// Where a block table is broken: an entry, and the rule of RULES 3.6 that it breaks, 1 to 7; 0 and 0 where it is not.
#[derive(Clone, Copy, PartialEq, Eq)]
pub struct Fault {
    pub entry: usize,
    pub rule: u32,
}

// Why a call is refused. A call that is not answers Done, which is Ok.
#[derive(Clone, Copy, PartialEq, Eq)]
pub enum Refusal {
    SizeMismatch,
    InvalidValue,
    WorkTooShort,
    BrokenFat(Fault),
    NotAFile,
    NoSpace,
    OutOfBound,
    ListTooShort,
    BrokenTree,
    NotFound,
    AlreadyExist,
    Busy,
    DeletingRoot,
    NotEmpty,
    IntoItself,
    NotOpen,
    TooManyOpens,
    ReadOnlyVolume,
}

impl Refusal {
    // The refusal's number, as a technician reads it and the C interface gives it.
    pub fn number(self) -> u32
        ensures { result ≡ number_with self }
    {
        match self {
            Refusal::SizeMismatch => 1,
            Refusal::InvalidValue => 2,
            Refusal::WorkTooShort => 3,
            Refusal::BrokenFat(_) => 4,
            Refusal::NotAFile => 5,
            Refusal::NoSpace => 6,
            Refusal::OutOfBound => 7,
            Refusal::ListTooShort => 8,
            Refusal::BrokenTree => 9,
            Refusal::NotFound => 10,
            Refusal::AlreadyExist => 11,
            Refusal::Busy => 12,
            Refusal::DeletingRoot => 13,
            Refusal::NotEmpty => 14,
            Refusal::IntoItself => 15,
            Refusal::NotOpen => 16,
            Refusal::TooManyOpens => 17,
            Refusal::ReadOnlyVolume => 20,
        }
    }
}

// The number of a call's answer: the refusal's, or 0 for Done.
pub fn number<T>(answer: &Result<T, Refusal>) -> u32
    ensures { result ≡ number_of (answer_of answer.now) }
{
    match answer {
        Ok(_) => 0,
        Err(why) => why.number(),
    }
}

// Where the block table is broken, as BrokenFat says; 0 and 0 with every other answer.
pub fn broken_at<T>(answer: &Result<T, Refusal>) -> Fault
    ensures { result ≡ fault_in (answer_of answer.now) }
{
    match answer {
        Err(Refusal::BrokenFat(found)) => *found,
        _ => Fault { entry: 0, rule: 0 },
    }
}

// Sets every place of a work list, or of a part of one, to 0. A loop and no `fill`: it compiles to one memset of the whole, and of two in a row one is left.
pub fn clear(work: &mut [u32])
    ensures { work.new ≡ replicate (length work.old) 0 }
{
    for place in work {
        *place = 0;
    }
}
