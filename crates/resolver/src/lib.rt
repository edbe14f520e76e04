//! Which zero-page bytes the instructions met write from an immediate, unambiguously: one pass for all 256.

#![tactic(auto)]

ghost use Rattle.std.specs.Prelude.{◌≡◌, slice_set};
ghost use Rattle.address_set.specs.Map.{members_in};
ghost use Rattle.resolver.specs.Resolve.{argument_at, is_store, seen_with, is_held, seen_at, Passed, Tells};

use image::Image;
use tracker::Registers;

// What the stores to one zero-page byte say of it.
#[derive(Clone, Copy, Debug, PartialEq, Eq)]
pub enum Seen {
    Never,
    Holds(u8),
    Spoiled,
}

impl Seen {
    // What is known of a byte after one more value for it.
    pub fn with(self, value: Option<u8>) -> Seen
        ensures { result ≡ seen_with self value }
    {
        match (self, value) {
            (Seen::Never, Some(v)) => Seen::Holds(v),
            (Seen::Holds(p), Some(v)) if p == v => Seen::Holds(v),
            _ => Seen::Spoiled,
        }
    }

    // Whether it holds one value.
    pub fn is_held(self) -> bool
        ensures { result ≡ is_held self }
    {
        matches!(self, Seen::Holds(_))
    }
}

// The byte after an opcode. Addresses wrap on purpose: the byte after 0xFFFF is that at 0.
pub fn argument_at(image: &[u8], load: u16, a: u16) -> Option<u8>
    ensures { result ≡ argument_at image.now load a }
{
    image::wrapped_byte(image, load, a.wrapping_add(1))
}

// Whether the opcode stores a register.
fn is_store(op: u8) -> bool
    ensures { result ≡ is_store op }
{
    matches!(op, 0x85 | 0x86 | 0x84)
}

// Takes one more value for the byte `z` into the array.
pub fn note(z: u8, value: Option<u8>, seen: &mut [Seen; 256])
    ensures { seen.new ≡ slice_set seen.old z (seen_with (seen_at seen.old z) value) }
{
    let i = z as usize;
    seen[i] = seen[i].with(value);
}

// Takes what an instruction stores into the array.
fn note_store(op: u8, argument: Option<u8>, regs: Registers, seen: &mut [Seen; 256])
    ensures { Passed op argument regs seen.old seen.new }
{
    if is_store(op) {
        if let Some(z) = argument {
            note(z, tracker::stored(op, regs), seen);
        }
    }
}

// What the members of the map, ascending, write to each zero-page byte.
pub fn resolve_all(image: Image<'_>, map: &[u8; 8192]) -> [Seen; 256]
    ensures { Tells image.entry.bytes.now image.entry.bounds.load (members_in image.entry.bounds.load image.entry.bounds.last map.now) result }
{
    let mut seen = [Seen::Never; 256];
    let mut regs = Registers::unloaded();
    for a in address_set::members_in(map, image.bounds.load, image.bounds.last) {
        let op = image.byte(a);
        let argument = argument_at(image.bytes, image.bounds.load, a);
        note_store(op, argument, regs, &mut seen);
        regs = tracker::loaded(op, argument, regs);
    }
    seen
}
