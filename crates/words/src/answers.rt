// Answers of calls: two values, or why a call is refused.
ghost use Rattle.std.specs.Prelude.{◌≡◌};
ghost use Rattle.words.specs.Answers.{number, outcome};

use crate::Outcome;
use std::error::Error;
use std::fmt;

// Why a call is refused: a case for each number of documents 01 and 02. The pool and the range tree take over the numbers where they speak of owners and ranges.
#[derive(Clone, Copy, Debug, PartialEq, Eq)]
pub enum Refused {
    WrongLength,
    Unsound,
    SeenTooMuch,
    WrongPoolSize,
    NoSuchSpace,
    WrongRights,
    WriteWithoutRead,
    WrongAccess,
    WrongSpan,
    AlreadyOpen,
    NotOpen,
    AlreadyMapped,
    NotMapped,
    RightLacking,
    TooFewFrames,
    NoNumberLeft,
    Malformed,
    NoCounterpart,
}

// The two values of an accepted call.
#[derive(Clone, Copy, Debug, PartialEq, Eq)]
pub struct Values {
    pub first: u32,
    pub second: u32,
}

// What a call answers.
pub type Answer = Result<Values, Refused>;

impl Refused {
    // The number of the refusal.
    pub fn number(self) -> u32
        ensures { result ≡ number self }
    {
        match self {
            Refused::WrongLength => 1,
            Refused::Unsound => 2,
            Refused::SeenTooMuch => 3,
            Refused::WrongPoolSize => 4,
            Refused::NoSuchSpace => 5,
            Refused::WrongRights => 6,
            Refused::WriteWithoutRead => 17,
            Refused::WrongAccess => 7,
            Refused::WrongSpan => 8,
            Refused::AlreadyOpen => 9,
            Refused::NotOpen => 10,
            Refused::AlreadyMapped => 11,
            Refused::NotMapped => 12,
            Refused::RightLacking => 13,
            Refused::TooFewFrames => 14,
            Refused::NoNumberLeft => 15,
            Refused::Malformed => 16,
            Refused::NoCounterpart => 18,
        }
    }
}

impl fmt::Display for Refused {
    fn fmt<W: fmt::Write>(&self, f: &mut fmt::Formatter<W>) -> fmt::Result {
        let number = self.number();
        write!(f, "refused {number}")
    }
}

impl Error for Refused {}

// A first value alone; the second is 0.
impl From<u32> for Values {
    ghost from_gives = { λ n v. v ≡ record { first = n; second = 0 } };

    fn from(first: u32) -> Values {
        Values { first, second: 0 }
    }
}

// The number, first and second value of an answer.
pub fn outcome(answer: Answer) -> Outcome
    ensures { result ≡ outcome answer }
{
    match answer {
        Ok(values) => Outcome {
            number: 0,
            first: values.first,
            second: values.second,
        },
        Err(refused) => Outcome {
            number: refused.number(),
            first: 0,
            second: 0,
        },
    }
}
