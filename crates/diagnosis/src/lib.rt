//! The diagnosis: every refusal of the walk, with its weight, instead of the first one.

#![tactic(auto)]

ghost use Rattle.std.specs.Prelude.{◌≡◌, ◌≤◌, length};
ghost use Rattle.mos6502.specs.Class.{manual_class};
ghost use Rattle.address_set.specs.Map.{Within};
ghost use Rattle.recorder.specs.Records.{pairs_of};
ghost use Rattle.diagnosis.specs.Answers.{Answers};
ghost use Rattle.diagnosis.specs.Steps.{BytesFit, Added, Covers, Fills};

use image::{Bounds, Image};
use refusal::Refusal;
use site::Reading;
use walk::{End, Rule};

// The range, the number of addresses met, and the number of records.
#[derive(Clone, Copy, Debug, PartialEq, Eq)]
pub struct Summary {
    pub low: u16,
    pub high: u16,
    pub count: u32,
    pub records: usize,
}

// Adds the entries that are outside to the map, so that one ascending pass meets them in their places.
fn add_outside(entries: &[u16], bounds: Bounds, map: &mut [u8; 8192])
    ensures { Added bounds.load bounds.last entries.now map.old map.new }
{
    for &e in entries {
        if !bounds.inside(e) {
            address_set::insert(map, e);
        }
    }
}

// A range with every address that can be met and every entry. Where all entries are inside it is the image's own, so that a small image costs little.
fn concerned_range(entries: &[u16], bounds: Bounds) -> Bounds
    ensures { Covers bounds.load bounds.last entries.now result }
{
    if opening::all_inside(entries, bounds) {
        return bounds;
    }
    Bounds {
        load: 0,
        last: 0xFFFF,
    }
}

// Writes the `n` records of the map's members, which lie in `range`, ascending, with their weights.
fn fill(
    image: Image<'_>,
    entries: &[u16],
    map: &[u8; 8192],
    range: Bounds,
    undecoded: Option<u16>,
    n: usize,
    slots: &mut [u64],
)
    requires fit { BytesFit image.bytes.now }
    requires within { Within range.load range.last map.now }
    requires number { n ≡ length (pairs_of image.bytes.now image.bounds.load image.bounds.last undecoded map.now) }
    requires room { n ≤ length slots.old }
    ensures { Fills image.entry.bytes.now image.entry.bounds.load image.entry.bounds.last entries.now map.now undecoded slots.old slots.new }
{
    // Nothing to write: then no entry need be walked for its weights.
    if n == 0 {
        return;
    }
    let seen = resolver::resolve_all(image, map);
    recorder::write_records(image, map, range, undecoded, &seen, slots);
    weights::fill_weights(image, entries, &mut slots[..n]);
}

// Walks the image from `entries` and records every refusal with its weight. The lent list gets the records in its first slots, or is left as it was.
// A list too short is refused with the number of records it needs.
pub fn diagnose(
    image: &[u8],
    load: u16,
    entries: &[u16],
    slots: &mut [u64],
) -> Result<Summary, Refusal>
    ensures { Answers manual_class image.now load entries.now slots.old slots.new result }
{
    let opened = opening::open(image, load, entries)?;
    let mut map = [0u8; 8192];
    let end = walk::walk(opened, entries, Rule::Diagnosis, &mut map);
    if let End::Full(_) = end {
        return Err(Refusal::Full);
    }
    let undecoded = recorder::undecoded_of(end);
    let range = extent::extent_of(opened, entries, &map, undecoded, Reading::Plain);
    let count = address_set::size(&map, opened.bounds.load, opened.bounds.last);
    add_outside(entries, opened.bounds, &mut map);
    let concerned = concerned_range(entries, opened.bounds);
    let n = recorder::count_pairs(opened, &map, concerned, undecoded);
    if slots.len() < n {
        return Err(Refusal::Short(n));
    }
    fill(opened, entries, &map, concerned, undecoded, n, slots);
    Ok(Summary {
        low: range.low,
        high: range.high,
        count,
        records: n,
    })
}
