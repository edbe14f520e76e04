//! What stands at one address. This is the only place that says what a refused site is, and the only one that turns an operand into covered bytes.

#![tactic(auto)]

ghost use Rattle.std.specs.Prelude.{◌≡◌, suc, ◌+◌, ◌≤◌};
ghost use Rattle.mos6502.specs.Class.{manual_class};
ghost use Rattle.image.specs.Image.{byte_at};
ghost use Rattle.site.specs.Site.{operand_at, target_of, pointer_cause, ran_off, flow_cause, also, broken_site, whole_site, site_in};
ghost use Rattle.site.specs.Named.{width_of, base_run, page_run, run_of};

use cause::RefusalCause;
use image::{Bounds, Image};
use mos6502::{Decoded, Flow, Mode};

// The causes of a site in cause order. A refused site is one that has any.
#[derive(Clone, Copy)]
pub enum Causes {
    Clear,
    One(RefusalCause),
    Two(RefusalCause, RefusalCause),
}

#[derive(Clone, Copy)]
pub struct Site {
    pub opcode: u8,
    pub mode: Mode,
    pub flow: Flow,
    // How many bytes the instruction has; 0 where the opcode is undefined.
    pub len: u16,
    // The opcode is defined, and all the instruction's bytes are inside.
    pub whole: bool,
    // What follows the opcode; 0 where nothing does, and where the instruction is not whole.
    pub operand: u16,
    // Where control goes on, and where else; nowhere where the instruction is not whole.
    pub next: Option<u16>,
    pub target: Option<u16>,
    pub causes: Causes,
}

// Which addresses count as named: the Rust's rule, or the guarded one.
#[derive(Clone, Copy)]
pub enum Reading {
    Plain,
    Guarded,
}

// How much an operand names.
#[derive(Clone, Copy)]
pub enum Width {
    Nothing,
    Base,
    Page,
}

// The least and the greatest of some addresses.
#[derive(Clone, Copy)]
pub struct Run {
    pub low: u16,
    pub high: u16,
}

// How far a run-time index can carry an access past its base.
const INDEX_SLACK: u16 = 0xFF;

fn operand(image: Image<'_>, a: u16, n: u16) -> u16
    requires { (image.bounds.load ≤ a) × (a + n ≤ suc image.bounds.last) }
    ensures { result ≡ operand_at (byte_at image.entry.bytes.now image.entry.bounds.load) a n }
{
    match n {
        2 => u16::from(image.byte(a + 1)),
        3 => image.word(a + 1),
        _ => 0,
    }
}

fn target_of(flow: Flow, operand: u16, next: Option<u16>) -> Option<u16>
    ensures { result ≡ target_of flow operand next }
{
    match flow {
        Flow::Jump | Flow::Call => Some(operand),
        Flow::Branch => {
            let n = next?;
            Some(image::branch_target(n, (operand % 256) as u8))
        }
        Flow::Next | Flow::Stop | Flow::Refuse => None,
    }
}

// The cause that the addressing mode gives.
fn pointer_cause(mode: Mode) -> Causes
    ensures { result ≡ pointer_cause mode }
{
    match mode {
        Mode::Izy => Causes::One(RefusalCause::IndirectIndexedY),
        Mode::Izx => Causes::One(RefusalCause::IndirectIndexedX),
        _ => Causes::Clear,
    }
}

// A next address that does not exist is a cause at once.
fn ran_off(next: Option<u16>) -> Causes
    ensures { result ≡ ran_off next }
{
    let Some(_) = next else {
        return Causes::One(RefusalCause::RanOffEnd);
    };
    Causes::Clear
}

// The cause that the flow gives.
fn flow_cause(flow: Flow, opcode: u8, next: Option<u16>) -> Causes
    ensures { result ≡ flow_cause flow opcode next }
{
    match flow {
        Flow::Stop | Flow::Jump => Causes::Clear,
        Flow::Refuse => Causes::One(if opcode == 0 {
            RefusalCause::Brk
        } else {
            RefusalCause::JmpIndirect
        }),
        Flow::Next | Flow::Call | Flow::Branch => ran_off(next),
    }
}

// The first causes, then the others: those of the mode stand before those of the flow in cause order.
fn also(first: Causes, then: Causes) -> Causes
    ensures { result ≡ also first then }
{
    match first {
        Causes::Clear => then,
        Causes::One(c) => match then {
            Causes::Clear => Causes::One(c),
            Causes::One(d) => Causes::Two(c, d),
            Causes::Two(d, _) => Causes::Two(c, d),
        },
        Causes::Two(b, c) => Causes::Two(b, c),
    }
}

// The site of an instruction that is undefined, or whose operand bytes are past the image's end.
fn broken_site(opcode: u8, decoded: Decoded) -> Site
    ensures { result ≡ broken_site opcode decoded }
{
    let len = decoded.mode.len();
    Site {
        opcode,
        mode: decoded.mode,
        flow: decoded.flow,
        len,
        whole: false,
        operand: 0,
        next: None,
        target: None,
        causes: Causes::One(if len == 0 {
            RefusalCause::IllegalOpcode
        } else {
            RefusalCause::OperandOffEnd
        }),
    }
}

// The site of an instruction whose bytes are all inside.
fn whole_site(opcode: u8, operand: u16, next: Option<u16>, decoded: Decoded) -> Site
    ensures { result ≡ whole_site opcode operand next decoded }
{
    let Decoded { mode, flow } = decoded;
    Site {
        opcode,
        mode,
        flow,
        len: mode.len(),
        whole: true,
        operand,
        next,
        target: target_of(flow, operand, next),
        causes: also(pointer_cause(mode), flow_cause(flow, opcode, next)),
    }
}

// What stands at an address inside.
pub fn site_at(image: Image<'_>, a: u16) -> Site
    requires { (image.bounds.load ≤ a) × (a ≤ image.bounds.last) }
    ensures { result ≡ site_in manual_class image.entry.bytes.now image.entry.bounds.load image.entry.bounds.last a }
{
    let opcode = image.byte(a);
    let decoded = mos6502::decode(opcode);
    let len = decoded.mode.len();
    if len == 0 || image.bounds.last - a < len - 1 {
        return broken_site(opcode, decoded);
    }
    let operand = operand(image, a, len);
    let next = image.bounds.next(a, len);
    whole_site(opcode, operand, next, decoded)
}

// How much the operand of a mode names.
pub fn width_of(mode: Mode) -> Width
    ensures { result ≡ width_of mode }
{
    match mode {
        Mode::Abs => Width::Base,
        Mode::AbX | Mode::AbY => Width::Page,
        _ => Width::Nothing,
    }
}

// An operand that is not indexed names its base.
fn base_run(bounds: Bounds, base: u16) -> Option<Run>
    ensures { result ≡ base_run bounds.load bounds.last base }
{
    if bounds.inside(base) {
        Some(Run {
            low: base,
            high: base,
        })
    } else {
        None
    }
}

// An indexed operand names the page from its base on, by the reading's rule.
fn page_run(bounds: Bounds, base: u16, reading: Reading) -> Option<Run>
    ensures { result ≡ page_run reading bounds.load bounds.last base }
{
    let high = base.saturating_add(INDEX_SLACK).min(bounds.last);
    match reading {
        Reading::Plain => {
            if bounds.inside(base) {
                Some(Run { low: base, high })
            } else {
                None
            }
        }
        Reading::Guarded => {
            let low = base.max(bounds.load);
            if low <= high {
                Some(Run { low, high })
            } else {
                None
            }
        }
    }
}

// The least and the greatest of the addresses inside that the site's operand names.
pub fn named(s: Site, bounds: Bounds, reading: Reading) -> Option<Run>
    ensures { result ≡ run_of reading bounds.load bounds.last s }
{
    if !s.whole {
        return None;
    }
    match width_of(s.mode) {
        Width::Nothing => None,
        Width::Base => base_run(bounds, s.operand),
        Width::Page => page_run(bounds, s.operand, reading),
    }
}
