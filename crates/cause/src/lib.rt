//! Why an instruction is a refused site.

#![tactic(auto)]

ghost use Rattle.std.specs.Prelude.{◌≡◌, ◌++◌, Some, codes, decimal};
ghost use Rattle.cause.specs.Cause.{number_of, cause_at, slug_of, key_of, NamedBy};

use std::error::Error;
use std::fmt;

// The causes in the order of their numbers, which 01 fixes.
#[derive(Clone, Copy, Debug, PartialEq, Eq)]
pub enum RefusalCause {
    IllegalOpcode,
    Brk,
    JmpIndirect,
    IndirectIndexedY,
    IndirectIndexedX,
    OperandOffEnd,
    RanOffEnd,
    Budget,
    EntryOutside,
}

// A number that no cause has.
#[derive(Clone, Copy, Debug, PartialEq, Eq)]
pub struct UnknownCause(pub u8);

impl RefusalCause {
    // How many causes there are; their numbers are below it.
    pub const KINDS: u8 = 9;

    // The length of the longest slug.
    pub const LONGEST_SLUG: usize = 15;

    // The number that 01 gives the cause, and the Rust's `cause as u8`.
    pub fn number(self) -> u8
        ensures { result ≡ number_of self }
    {
        self as u8
    }

    // The cause that has a number; the last one for every number that no cause has.
    pub fn from_number(n: u8) -> RefusalCause
        ensures { result ≡ cause_at n }
    {
        RefusalCause::try_from(n).unwrap_or(RefusalCause::EntryOutside)
    }

    // What a report prints.
    pub fn slug(self) -> &'static str
        ensures { result.now ≡ slug_of self }
    {
        match self {
            RefusalCause::IllegalOpcode => "illegal-opcode",
            RefusalCause::Brk => "brk",
            RefusalCause::JmpIndirect => "jmp-indirect",
            RefusalCause::IndirectIndexedY => "indirect-y",
            RefusalCause::IndirectIndexedX => "indirect-x",
            RefusalCause::OperandOffEnd => "operand-off-end",
            RefusalCause::RanOffEnd => "ran-off-end",
            RefusalCause::Budget => "budget",
            RefusalCause::EntryOutside => "entry-outside",
        }
    }

    // The order of records: by address, then cause.
    pub fn key(self, address: u16) -> u32
        ensures { result ≡ key_of self address }
    {
        address as u32 * 256 + self.number() as u32
    }
}

impl TryFrom<u8> for RefusalCause {
    type Error = UnknownCause;

    ghost try_from_gives = { NamedBy };

    fn try_from(n: u8) -> Result<Self, UnknownCause> {
        match n {
            0 => Ok(RefusalCause::IllegalOpcode),
            1 => Ok(RefusalCause::Brk),
            2 => Ok(RefusalCause::JmpIndirect),
            3 => Ok(RefusalCause::IndirectIndexedY),
            4 => Ok(RefusalCause::IndirectIndexedX),
            5 => Ok(RefusalCause::OperandOffEnd),
            6 => Ok(RefusalCause::RanOffEnd),
            7 => Ok(RefusalCause::Budget),
            8 => Ok(RefusalCause::EntryOutside),
            9..=255 => Err(UnknownCause(n)),
        }
    }
}

impl fmt::Display for RefusalCause {
    ghost output = { λ cause. Some (slug_of cause) };

    fn fmt<W: fmt::Write>(&self, f: &mut fmt::Formatter<W>) -> fmt::Result {
        f.write_str(self.slug())
    }
}

impl fmt::Display for UnknownCause {
    ghost output = { λ e. Some (codes "no cause has the number " ++ decimal e.0) };

    fn fmt<W: fmt::Write>(&self, f: &mut fmt::Formatter<W>) -> fmt::Result {
        write!(f, "no cause has the number {}", self.0)
    }
}

impl Error for UnknownCause {}
