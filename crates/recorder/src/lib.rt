//! The records of a walk: which address, which cause, and what stands there.

#![tactic(auto)]

ghost use Rattle.std.specs.Prelude.{◌≡◌, ◌+◌, ◌≤◌, length};
ghost use Rattle.mos6502.specs.Class.{manual_class};
ghost use Rattle.address_set.specs.Map.{Within, members_in};
ghost use Rattle.site.specs.Site.{list_of};
ghost use Rattle.walk.specs.Walked.{as_end};
ghost use Rattle.resolver.specs.Resolve.{Tells};
ghost use Rattle.records.specs.Packed.{packed};
ghost use Rattle.recorder.specs.Recorded.{undecoded_of, causes_at};
ghost use Rattle.recorder.specs.Records.{is_y, KnowsBoth, facts_at, fields_with, pairs_of, Put, Written};

use cause::RefusalCause;
use image::{Bounds, Image};
use records::Fields;
use resolver::Seen;
use site::Causes;
use tracker::Place;
use walk::End;

// An address and a cause recorded there.
#[derive(Clone, Copy, Debug, PartialEq, Eq)]
pub struct Pair {
    pub address: u16,
    pub cause: RefusalCause,
}

// What the records of one address share.
#[derive(Clone, Copy, Debug, PartialEq, Eq)]
pub struct Facts {
    pub opcode: u8,
    pub pointer: u8,
    pub linear: bool,
    pub walk: bool,
}

// What is recorded at an address that was met or is an outside entry.
#[tactic(auto, using(image::proofs::Inside::inside_bounds))]
pub fn causes_at(image: Image<'_>, undecoded: Option<u16>, a: u16) -> Causes
    ensures { list_of result ≡ causes_at manual_class image.entry.bytes.now image.entry.bounds.load image.entry.bounds.last undecoded a }
{
    if !image.bounds.inside(a) {
        return Causes::One(RefusalCause::EntryOutside);
    }
    if extent::is_skipped(undecoded, a) {
        return Causes::One(RefusalCause::Budget);
    }
    site::site_at(image, a).causes
}

// The address that was met one past the limit, if the walk ended there.
pub fn undecoded_of(end: End) -> Option<u16>
    ensures { result ≡ undecoded_of (as_end end) }
{
    match end {
        End::Spent(pc) => Some(pc),
        End::Finished | End::Refused(_) | End::Full(_) => None,
    }
}

// How many causes there are.
fn count_of(causes: Causes) -> usize
    ensures { (result ≡ length (list_of causes)) × (result ≤ 2) }
{
    match causes {
        Causes::Clear => 0,
        Causes::One(_) => 1,
        Causes::Two(_, _) => 2,
    }
}

// How many records the members of the map have. All of them lie in `range`, and no more is searched, so that a small image costs little.
pub fn count_pairs(
    image: Image<'_>,
    map: &[u8; 8192],
    range: Bounds,
    undecoded: Option<u16>,
) -> usize
    requires { Within range.load range.last map.now }
    ensures { result ≡ length (pairs_of image.entry.bytes.now image.entry.bounds.load image.entry.bounds.last undecoded map.now) }
{
    let mut n: usize = 0;
    for a in address_set::members_in(map, range.load, range.last) {
        n += count_of(causes_at(image, undecoded, a));
    }
    n
}

// The flags are asked for indirect-y alone.
fn is_y(cause: RefusalCause) -> bool
    ensures { result ≡ is_y cause }
{
    matches!(cause, RefusalCause::IndirectIndexedY)
}

// Whether a pointer's two bytes are known. A pointer at 0xFF has no second byte.
fn pair_known<F: Fn(u8) -> bool>(known: F, z: u8) -> bool
    requires { F.IsAlwaysCallable known }
    ensures { KnowsBoth (F.post known) z result }
{
    if z == 0xFF {
        return false;
    }
    known(z) && known(z + 1)
}

// What the records of an address inside share, from the tracker before it and what the instructions met write.
fn facts_at(image: Image<'_>, a: u16, zp: &[Option<u8>; 256], seen: &[Seen; 256]) -> Facts
    requires { (image.bounds.load ≤ a) × (a ≤ image.bounds.last) }
    ensures { result ≡ facts_at image.entry.bytes.now image.entry.bounds.load image.entry.bounds.last a zp.now seen.now }
{
    let s = site::site_at(image, a);
    let pointer = (s.operand % 256) as u8;
    Facts {
        opcode: s.opcode,
        pointer,
        linear: pair_known(|z| zp[z as usize].is_some(), pointer),
        walk: pair_known(|z| seen[z as usize].is_held(), pointer),
    }
}

// The record of a pair, with weight 0.
fn record_of(a: u16, cause: RefusalCause, facts: Facts) -> u64
    ensures { result ≡ packed (fields_with facts (record { address = a; cause = cause })) }
{
    let y = is_y(cause);
    let mut pointer = None;
    if walk::is_pointer(cause) {
        pointer = Some(facts.pointer);
    }
    records::pack(Fields {
        address: a,
        cause,
        opcode: facts.opcode,
        pointer,
        linear: y && facts.linear,
        walk: y && facts.walk,
        weight: 0,
    })
}

// Writes the records of an address from slot `n` on, in cause order; where the next one goes.
fn put(slots: &mut [u64], n: usize, a: u16, causes: Causes, facts: Facts) -> usize
    requires { n + length (list_of causes) ≤ length slots.old }
    ensures { Put slots.old n a (list_of causes) facts result slots.new }
{
    match causes {
        Causes::Clear => n,
        Causes::One(c) => {
            slots[n] = record_of(a, c, facts);
            n + 1
        }
        Causes::Two(c, d) => {
            slots[n] = record_of(a, c, facts);
            slots[n + 1] = record_of(a, d, facts);
            n + 2
        }
    }
}

// Writes the records of the map's members, ascending, each with weight 0. One pass of the tracker serves all sites. The members lie in `range`, as above.
pub fn write_records(
    image: Image<'_>,
    map: &[u8; 8192],
    range: Bounds,
    undecoded: Option<u16>,
    seen: &[Seen; 256],
    slots: &mut [u64],
)
    requires within { Within range.load range.last map.now }
    requires told { Tells image.bytes.now image.bounds.load (members_in image.bounds.load image.bounds.last map.now) seen.now }
    requires room { length (pairs_of image.bytes.now image.bounds.load image.bounds.last undecoded map.now) ≤ length slots.old }
    ensures { Written image.entry.bytes.now image.entry.bounds.load image.entry.bounds.last undecoded map.now slots.old slots.new }
{
    let mut zp = [None; 256];
    let mut place = Place::start();
    let mut n: usize = 0;
    for a in address_set::members_in(map, range.load, range.last) {
        let causes = causes_at(image, undecoded, a);
        let mut facts = Facts {
            opcode: 0,
            pointer: 0,
            linear: false,
            walk: false,
        };
        if image.bounds.inside(a) {
            let code = image.bytes;
            place = tracker::advance(code, (a - image.bounds.load) as usize, place, &mut zp);
            facts = facts_at(image, a, &zp, seen);
        }
        n = put(slots, n, a, causes, facts);
    }
}
