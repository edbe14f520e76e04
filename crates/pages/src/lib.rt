//! Where a store through a pointer goes: what the tracker knows of the pointer, what the instructions met do with its high byte, and the pages between.

#![tactic(auto)]

ghost use Rattle.std.specs.Prelude.{◌≡◌};
ghost use Rattle.address_set.specs.Map.{has, members_in};
ghost use Rattle.tracker.specs.Track.{state_of};
ghost use Rattle.pages.specs.Pages.{pointer_in, any_of, is_op, compared_at, pages_from, page_limit};
ghost use Rattle.pages.specs.Pages.{over_pages, span_from, indy_store_span};
ghost use Rattle.pages.specs.Surveys.{AllMarked, AllLimited, Surveyed, habit_in};

use image::{Bounds, Image};
use resolver::Seen;
use tracker::Registers;

// The opcodes that step or limit a pointer's high byte: INC, DEC, LDA of a zero-page byte, CMP of an immediate, and DEX.
const INC: u8 = 0xE6;

const DEC: u8 = 0xC6;

const LDA: u8 = 0xA5;

const CMP: u8 = 0xC9;

const DEX: u8 = 0xCA;

// What one instruction stores, outside zero page and the stack.
#[derive(Clone, Copy, Debug, PartialEq, Eq)]
pub enum StoreSpan {
    Nothing,
    Bytes(u16, u16),
    // No span bounds it.
    Anywhere,
}

// What the tracker knows of a pointer, and of X.
#[derive(Clone, Copy, Debug, PartialEq, Eq)]
pub struct Pointer {
    pub low: Option<u8>,
    pub high: Option<u8>,
    pub x: Option<u8>,
}

// What the instructions met do with a pointer's high byte: INC, DEC, the limit that LDA and CMP give; and whether there is a DEX.
#[derive(Clone, Copy, Debug, PartialEq, Eq)]
pub struct Habit {
    pub up: bool,
    pub down: bool,
    pub limit: Seen,
    pub dex: bool,
}

// The habits of all zero-page bytes.
#[derive(Clone, Copy, Debug, PartialEq, Eq)]
pub struct Survey {
    pub ups: [bool; 256],
    pub downs: [bool; 256],
    pub limits: [Seen; 256],
    pub dex: bool,
}

// What is known of the pointer `z`. One at 0xFF has no second byte.
pub fn pointer_in(z: u8, regs: Registers, zp: &[Option<u8>; 256]) -> Pointer
    ensures { result ≡ pointer_in (state_of regs zp.now) z }
{
    let high = match z.checked_add(1) {
        Some(next) => zp[next as usize],
        None => None,
    };
    Pointer {
        low: zp[z as usize],
        high,
        x: regs.x,
    }
}

// ── what the instructions met do ──

impl Survey {
    // What the members of the map do with each zero-page byte.
    pub fn of(image: Image<'_>, map: &[u8; 8192]) -> Survey
        ensures { Surveyed image.entry.bytes.now image.entry.bounds.load (members_in image.entry.bounds.load image.entry.bounds.last map.now) result }
    {
        Survey {
            ups: mark_operands(image.bytes, image.bounds, map, INC),
            downs: mark_operands(image.bytes, image.bounds, map, DEC),
            limits: note_limits(image.bytes, image.bounds, map),
            dex: is_met(image.bytes, image.bounds, map, DEX),
        }
    }

    // What they do with the byte `z`.
    pub fn habit(&self, z: u8) -> Habit
        ensures { result ≡ habit_in self.now z }
    {
        let i = z as usize;
        Habit {
            up: self.ups[i],
            down: self.downs[i],
            limit: self.limits[i],
            dex: self.dex,
        }
    }
}

// Whether there is this opcode at an address.
fn is_op(image: &[u8], load: u16, op: u8, a: u16) -> bool
    ensures { result ≡ is_op image.now load op a }
{
    image::wrapped_byte(image, load, a) == Some(op)
}

// Marks every zero-page byte that a member of the map with the opcode has for its operand.
pub fn mark_operands(image: &[u8], bounds: Bounds, map: &[u8; 8192], op: u8) -> [bool; 256]
    ensures { AllMarked image.now bounds.load op (members_in bounds.load bounds.last map.now) result }
{
    let mut marks = [false; 256];
    for a in address_set::members_in(map, bounds.load, bounds.last) {
        if is_op(image, bounds.load, op, a) {
            if let Some(z) = resolver::argument_at(image, bounds.load, a) {
                marks[z as usize] = true;
            }
        }
    }
    marks
}

// Whether a member of the map has the opcode.
pub fn is_met(image: &[u8], bounds: Bounds, map: &[u8; 8192], op: u8) -> bool
    ensures { result ≡ any_of (is_op image.now bounds.load op) (members_in bounds.load bounds.last map.now) }
{
    for a in address_set::members_in(map, bounds.load, bounds.last) {
        if is_op(image, bounds.load, op, a) {
            return true;
        }
    }
    false
}

// The operand of a CMP directly after the two bytes at `a`, if the CMP is a member of the map.
fn compared_at(image: &[u8], load: u16, map: &[u8; 8192], a: u16) -> Option<u8>
    ensures { result ≡ compared_at image.now load (has map.now) a }
{
    let next = a.wrapping_add(2);
    if address_set::contains(map, next) && is_op(image, load, CMP, next) {
        return resolver::argument_at(image, load, next);
    }
    None
}

// The limits that the pairs LDA, CMP among the map's members give, for all zero-page bytes.
pub fn note_limits(image: &[u8], bounds: Bounds, map: &[u8; 8192]) -> [Seen; 256]
    ensures { AllLimited image.now bounds.load (has map.now) (members_in bounds.load bounds.last map.now) result }
{
    let mut limits = [Seen::Never; 256];
    for a in address_set::members_in(map, bounds.load, bounds.last) {
        if is_op(image, bounds.load, LDA, a) {
            if let Some(z) = resolver::argument_at(image, bounds.load, a) {
                if let Some(v) = compared_at(image, bounds.load, map, a) {
                    resolver::note(z, Some(v), &mut limits);
                }
            }
        }
    }
    limits
}

// ── the pages ──

// `n` pages up or down from a page.
fn pages_from(up: bool, page: u8, n: u8) -> Option<u8>
    ensures { result ≡ pages_from up page n }
{
    if up {
        page.checked_add(n)
    } else {
        page.checked_sub(n)
    }
}

// The last page that is written, from the page `hi` up or down.
fn page_limit(limit: Seen, x: Option<u8>, dex: bool, hi: u8, up: bool) -> Option<u8>
    ensures { result ≡ page_limit limit x dex hi up }
{
    match limit {
        Seen::Holds(v) => pages_from(!up, v, 1),
        Seen::Spoiled => None,
        Seen::Never => match x {
            Some(n) if 0 < n && dex => pages_from(up, hi, n - 1),
            _ => None,
        },
    }
}

// From the place `lo` in the first page to 255 past it in the last.
fn over_pages(lo: u8, first: u8, last: u8) -> StoreSpan
    ensures { result ≡ over_pages lo first last }
{
    if last < first {
        return StoreSpan::Anywhere;
    }
    let lowest = 256 * u16::from(first) + u16::from(lo);
    match (256 * u16::from(last) + u16::from(lo)).checked_add(0xFF) {
        Some(highest) => StoreSpan::Bytes(lowest, highest),
        None => StoreSpan::Anywhere,
    }
}

// One page where the high byte stays; up or down to the limit where it is stepped; not both.
fn span_from(lo: u8, hi: u8, x: Option<u8>, h: Habit) -> StoreSpan
    ensures { result ≡ span_from lo hi x h }
{
    if h.up && h.down {
        return StoreSpan::Anywhere;
    }
    if h.up {
        let last = page_limit(h.limit, x, h.dex, hi, true);
        return last.map_or(StoreSpan::Anywhere, |page| over_pages(lo, hi, page));
    }
    if h.down {
        let first = page_limit(h.limit, x, h.dex, hi, false);
        return first.map_or(StoreSpan::Anywhere, |page| over_pages(lo, page, hi));
    }
    over_pages(lo, hi, hi)
}

// The span that a `STA (zp),Y` can cover.
pub fn indy_store_span(p: Pointer, h: Habit) -> StoreSpan
    ensures { result ≡ indy_store_span p h }
{
    let (Some(lo), Some(hi)) = (p.low, p.high) else {
        return StoreSpan::Anywhere;
    };
    span_from(lo, hi, p.x, h)
}
