//! Why a call has no answer: 01's numbers 1 to 7.

#![tactic(auto)]

ghost use Rattle.std.specs.Prelude.{◌≡◌, Some};
ghost use Rattle.refusal.specs.Numbers.{number, needed, number_of};
ghost use Rattle.refusal.specs.Sentences.{sentence};

use std::error::Error;
use std::fmt;

// Why a call has no answer. `Short` tells how many records the caller's slots have to hold.
#[derive(Clone, Copy, Debug, PartialEq, Eq)]
pub enum Refusal {
    ImageEmpty,
    NoEntries,
    PastTop,
    Refused,
    Unbounded,
    Short(usize),
    Full,
}

impl Refusal {
    // The number that 01 gives the refusal.
    pub fn number(self) -> u8
        ensures { result ≡ number self }
    {
        match self {
            Refusal::ImageEmpty => 1,
            Refusal::NoEntries => 2,
            Refusal::PastTop => 3,
            Refusal::Refused => 4,
            Refusal::Unbounded => 5,
            Refusal::Short(_) => 6,
            Refusal::Full => 7,
        }
    }

    // How many records there are where the slots are too few; 0 for every other refusal.
    pub fn needed(self) -> usize
        ensures { result ≡ needed self }
    {
        match self {
            Refusal::Short(n) => n,
            _ => 0,
        }
    }
}

// The number of a call's outcome: 0 where it has an answer, and else the refusal's.
pub fn number_of<T>(answer: &Result<T, Refusal>) -> u8
    ensures { result ≡ number_of answer.now }
{
    match answer {
        Ok(_) => 0,
        Err(refusal) => refusal.number(),
    }
}

impl fmt::Display for Refusal {
    ghost output = { λ refusal. Some (sentence refusal) };

    fn fmt<W: fmt::Write>(&self, f: &mut fmt::Formatter<W>) -> fmt::Result {
        match self {
            Refusal::ImageEmpty => write!(f, "the image has no byte"),
            Refusal::NoEntries => write!(f, "there is no entry"),
            Refusal::PastTop => write!(f, "the image ends past FFFF"),
            Refusal::Refused => write!(f, "the walk of the image is refused"),
            Refusal::Unbounded => write!(f, "a store has no bounded span"),
            Refusal::Short(n) => write!(f, "the records are {n}, and the slots are too few"),
            Refusal::Full => write!(f, "too many addresses are pending"),
        }
    }
}

impl Error for Refusal {}
