//! What a linear scan knows of registers and zero page: immediate loads, and stores of what was loaded.

#![tactic(auto)]

ghost use Rattle.std.specs.Prelude.{◌≡◌, ◌+◌, ◌≤◌, ◌<◌, length};
ghost use Rattle.tracker.specs.Track.{unloaded, is_tracked, loaded, stored, zp_with, state_of, tracked, Reached, Stands};

// The registers' values, as far as they are known.
#[derive(Clone, Copy, Debug, PartialEq, Eq)]
pub struct Registers {
    pub a: Option<u8>,
    pub x: Option<u8>,
    pub y: Option<u8>,
}

impl Registers {
    // Before anything is loaded.
    pub fn unloaded() -> Self
        ensures { result ≡ unloaded }
    {
        Registers {
            a: None,
            x: None,
            y: None,
        }
    }
}

// What is known of the registers and of each zero-page byte.
#[derive(Clone, Copy, Debug, PartialEq, Eq)]
pub struct ImmState {
    pub regs: Registers,
    pub zp: [Option<u8>; 256],
}

// Where the tracker stands in a run, and what the registers hold there. The zero page is lent beside it.
#[derive(Clone, Copy, Debug, PartialEq, Eq)]
pub struct Place {
    pub at: usize,
    pub regs: Registers,
}

impl Place {
    // Before the first byte.
    pub fn start() -> Self
        ensures { (result.at ≡ 0) × (result.regs ≡ unloaded) }
    {
        Place {
            at: 0,
            regs: Registers::unloaded(),
        }
    }
}

// Whether the tracker knows the opcode. With an arm for each the compiler looks a byte up once; six patterns in one arm it compares
// one after the other, which takes up to three times as long for each byte of the code.
fn is_tracked(op: u8) -> bool
    ensures { result ≡ is_tracked op }
{
    match op {
        0xA9 => true,
        0xA2 => true,
        0xA0 => true,
        0x85 => true,
        0x86 => true,
        0x84 => true,
        _ => false,
    }
}

// The registers after a load of a value.
pub fn loaded(op: u8, value: Option<u8>, regs: Registers) -> Registers
    ensures { result ≡ loaded op value regs }
{
    match op {
        0xA9 => Registers { a: value, ..regs },
        0xA2 => Registers { x: value, ..regs },
        0xA0 => Registers { y: value, ..regs },
        _ => regs,
    }
}

// The register that a store stores.
pub fn stored(op: u8, regs: Registers) -> Option<u8>
    ensures { result ≡ stored op regs }
{
    match op {
        0x85 => regs.a,
        0x86 => regs.x,
        0x84 => regs.y,
        _ => None,
    }
}

// Puts a known value into zero page; an unknown one leaves it as it is.
fn store(value: Option<u8>, arg: u8, zp: &mut [Option<u8>; 256])
    ensures { zp.new ≡ zp_with value arg zp.old }
{
    if value.is_some() {
        zp[arg as usize] = value;
    }
}

// Goes on from a place until the first `n` bytes of `code` are read. A caller that asks for growing `n` reads each byte once.
pub fn advance(code: &[u8], n: usize, from: Place, zp: &mut [Option<u8>; 256]) -> Place
    requires { Reached code.now from.at (state_of from.regs zp.old) × (from.at ≤ n) × (n ≤ length code.now) }
    ensures { Stands code.now n result.at (state_of result.regs zp.new) }
{
    let Place { mut at, mut regs } = from;
    // A known opcode is passed with its argument, any other byte alone.
    while at + 1 < n {
        let op = code[at];
        let arg = code[at + 1];
        if is_tracked(op) {
            store(stored(op, regs), arg, zp);
            regs = loaded(op, Some(arg), regs);
            at += 2;
        } else {
            at += 1;
        }
    }
    Place { at, regs }
}

// What is known after all of `code`.
pub fn track_immediates(code: &[u8]) -> ImmState
    ensures { result ≡ tracked code.now }
{
    let mut zp = [None; 256];
    let end = advance(code, code.len(), Place::start(), &mut zp);
    ImmState { regs: end.regs, zp }
}
