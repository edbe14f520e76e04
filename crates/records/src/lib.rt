//! A refusal's record, packed into 64 bits as 01 lays it out.

#![tactic(auto)]

ghost use Rattle.std.specs.Prelude.{◌≡◌};
ghost use Rattle.records.specs.Packed.{packed, address_of, cause_of, opcode_of, pointer_byte_of, pointer_of, linear_of, walk_of, weight_of};

use cause::RefusalCause;

#[derive(Clone, Copy, Debug, PartialEq, Eq)]
pub struct Fields {
    pub address: u16,
    pub cause: RefusalCause,
    pub opcode: u8,
    // The zero-page pointer, for the two indirect causes only.
    pub pointer: Option<u8>,
    pub linear: bool,
    pub walk: bool,
    pub weight: u16,
}

#[tactic(auto, unfolding(crate::specs::Packed::packed))]
pub fn pack(f: Fields) -> u64
    ensures { result ≡ packed f }
{
    let head = f.address as u64 * 0x1_0000_0000_0000 + f.cause.number() as u64 * 0x100_0000_0000;
    let middle = f.opcode as u64 * 0x1_0000_0000 + f.pointer.unwrap_or(0) as u64 * 0x100_0000;
    let present = u64::from(f.pointer.is_some()) * 0x4_0000;
    let flags = present + u64::from(f.linear) * 0x2_0000 + u64::from(f.walk) * 0x1_0000;
    head + middle + flags + f.weight as u64
}

// The address of a record.
pub fn address_of(r: u64) -> u16
    ensures { result ≡ address_of r }
{
    (r / 0x1_0000_0000_0000) as u16
}

// The number of its cause.
pub fn cause_of(r: u64) -> u8
    ensures { result ≡ cause_of r }
{
    (r / 0x100_0000_0000 % 256) as u8
}

pub fn opcode_of(r: u64) -> u8
    ensures { result ≡ opcode_of r }
{
    (r / 0x1_0000_0000 % 256) as u8
}

// The byte at the pointer's place, present or not.
pub fn pointer_byte_of(r: u64) -> u8
    ensures { result ≡ pointer_byte_of r }
{
    (r / 0x100_0000 % 256) as u8
}

// The pointer, where one is present.
pub fn pointer_of(r: u64) -> Option<u8>
    ensures { result ≡ pointer_of r }
{
    if r / 0x4_0000 % 2 == 1 {
        Some(pointer_byte_of(r))
    } else {
        None
    }
}

// Whether the tracker before the site knows the pointer's bytes.
pub fn linear_of(r: u64) -> bool
    ensures { result ≡ linear_of r }
{
    r / 0x2_0000 % 2 == 1
}

// Whether the instructions met know the pointer's bytes.
pub fn walk_of(r: u64) -> bool
    ensures { result ≡ walk_of r }
{
    r / 0x1_0000 % 2 == 1
}

pub fn weight_of(r: u64) -> u16
    ensures { result ≡ weight_of r }
{
    (r % 0x1_0000) as u16
}
