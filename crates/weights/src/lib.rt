//! The weights: one walk for each entry, and a pass over the records found.

#![tactic(auto)]

ghost use Rattle.std.specs.Prelude.{◌≡◌};
ghost use Rattle.mos6502.specs.Class.{manual_class};
ghost use Rattle.address_set.specs.Map.{has};
ghost use Rattle.site.specs.Site.{list_of};
ghost use Rattle.records.specs.Packed.{address_of};
ghost use Rattle.weights.specs.Weights.{is_some, is_recorded, one_at, raised, raised_by, Counted, Filled};

use image::Image;
use site::Causes;
use walk::Rule;

fn is_some(causes: Causes) -> bool
    ensures { result ≡ is_some (list_of causes) }
{
    matches!(causes, Causes::One(_) | Causes::Two(_, _))
}

// Whether an address is a member of the map with something recorded there.
fn is_recorded(image: Image<'_>, map: &[u8; 8192], undecoded: Option<u16>, a: u16) -> bool
    ensures { result ≡ is_recorded manual_class image.entry.bytes.now image.entry.bounds.load image.entry.bounds.last undecoded (has map.now) a }
{
    address_set::contains(map, a) && is_some(recorder::causes_at(image, undecoded, a))
}

// A record with one more, up to a weight of 65,535.
fn heavier(r: u64) -> u64
    ensures { result ≡ raised 1 r }
{
    if records::weight_of(r) < 0xFFFF {
        return r + 1;
    }
    r
}

// A record with one more where its address is recorded, and else as it is.
fn raised_once(image: Image<'_>, map: &[u8; 8192], undecoded: Option<u16>, r: u64) -> u64
    ensures { result ≡ raised (one_at image.entry.bytes.now image.entry.bounds.load image.entry.bounds.last undecoded map.now (address_of r)) r }
{
    if is_recorded(image, map, undecoded, records::address_of(r)) {
        heavier(r)
    } else {
        r
    }
}

// Raises each slot whose address is recorded.
fn raise_recorded(image: Image<'_>, map: &[u8; 8192], undecoded: Option<u16>, slots: &mut [u64])
    ensures { slots.new ≡ raised_by (one_at image.entry.bytes.now image.entry.bounds.load image.entry.bounds.last undecoded map.now) slots.old }
{
    for slot in slots.iter_mut() {
        *slot = raised_once(image, map, undecoded, *slot);
    }
}

// Walks one entry alone, with a fresh limit, and raises the slots that it records.
fn count_entry(image: Image<'_>, entry: u16, slots: &mut [u64])
    ensures { Counted image.entry.bytes.now image.entry.bounds.load image.entry.bounds.last entry slots.old slots.new }
{
    let mut map = [0u8; 8192];
    let end = walk::walk(image, &[entry], Rule::Diagnosis, &mut map);
    if !image.bounds.inside(entry) {
        address_set::insert(&mut map, entry);
    }
    raise_recorded(image, &map, recorder::undecoded_of(end), slots);
}

// Raises each slot by the weight of its address: how many entries record it, each in a walk of its own.
pub fn fill_weights(image: Image<'_>, entries: &[u16], slots: &mut [u64])
    ensures { Filled image.entry.bytes.now image.entry.bounds.load image.entry.bounds.last entries.now slots.old slots.new }
{
    for &entry in entries {
        count_entry(image, entry, slots);
    }
}
