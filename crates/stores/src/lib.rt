//! The store spans: what the reachable stores of an image can cover, outside zero page and the stack.

#![tactic(auto)]

ghost use Rattle.std.specs.Prelude.{◌≡◌, [], ◌++◌, ◌+◌, ◌≤◌, length};
ghost use Rattle.mos6502.specs.Class.{manual_class};
ghost use Rattle.writes.specs.Writes.{manual_writes};
ghost use Rattle.address_set.specs.Map.{members_in};
ghost use Rattle.stores.specs.Stores.{store_of, is_anywhere, records_of};
ghost use Rattle.stores.specs.Answers.{Answers};
ghost use Rattle.stores.specs.Steps.{GathersIn};

use arrayvec::ArrayVec;
use image::Image;
use pages::{Habit, Pointer, StoreSpan, Survey};
use refusal::Refusal;
use tracker::Place;
use walk::Rule;
use writes::Wr;

// How far a run-time index can carry a store past its base.
const INDEX_SLACK: u16 = 0xFF;

// No more records than a walk may meet instructions.
type Records = ArrayVec<u32, 4096>;

// What an instruction stores, where it writes so wide.
fn store_of(wr: Wr, operand: u16, p: Pointer, h: Habit) -> StoreSpan
    ensures { result ≡ store_of wr operand p h }
{
    match wr {
        Wr::None => StoreSpan::Nothing,
        Wr::One => StoreSpan::Bytes(operand, operand),
        Wr::Page => StoreSpan::Bytes(operand, operand.saturating_add(INDEX_SLACK)),
        Wr::IndY => pages::indy_store_span(p, h),
        Wr::IndX => StoreSpan::Anywhere,
    }
}

fn is_anywhere(store: StoreSpan) -> bool
    ensures { result ≡ is_anywhere store }
{
    matches!(store, StoreSpan::Anywhere)
}

// Adds the record of a store, if it has one.
fn put(records: &mut Records, store: StoreSpan)
    requires { length records.old.items + length (records_of store) ≤ 4096 }
    ensures { records.new.items ≡ records.old.items ++ records_of store }
{
    if let StoreSpan::Bytes(low, high) = store {
        records.push(low as u32 * 65536 + high as u32);
    }
}

// The records of the map's members, ascending, into a list that is lent empty; refused where a store has no bounded span. One pass of
// the tracker serves all of them. The list is lent and not given, since it is large: given, it would be copied, and stand on the stack
// more than once.
fn gather(image: Image<'_>, map: &[u8; 8192], records: &mut Records) -> Result<(), Refusal>
    requires empty { records.old.items ≡ [] }
    requires room { length (members_in image.bounds.load image.bounds.last map.now) ≤ 4096 }
    ensures { GathersIn image.entry.bytes.now image.entry.bounds.load image.entry.bounds.last map.now records.new.items result }
{
    let bounds = image.bounds;
    let survey = Survey::of(image, map);
    let mut zp: [Option<u8>; 256] = [None; 256];
    let mut place = Place::start();
    for a in address_set::members_in(map, bounds.load, bounds.last) {
        place = tracker::advance(image.bytes, (a - bounds.load) as usize, place, &mut zp);
        let s = site::site_at(image, a);
        let z = (s.operand % 256) as u8;
        let p = pages::pointer_in(z, place.regs, &zp);
        let h = survey.habit(z.wrapping_add(1));
        let store = store_of(writes::writes(s.opcode), s.operand, p, h);
        if is_anywhere(store) {
            return Err(Refusal::Unbounded);
        }
        put(records, store);
    }
    Ok(())
}

// The spans that the stores reachable from `entries` can cover, as low x 65,536 + high. The lent list gets them in its first slots, or is left as it was.
pub fn write_extent(
    image: &[u8],
    load: u16,
    entries: &[u16],
    slots: &mut [u32],
) -> Result<usize, Refusal>
    ensures { Answers manual_class manual_writes image.now load entries.now slots.old slots.new result }
{
    let opened = opening::open(image, load, entries)?;
    if !opening::all_inside(entries, opened.bounds) {
        return Err(Refusal::Refused);
    }
    let mut map = [0u8; 8192];
    walk::walk(opened, entries, Rule::Stores, &mut map).finished()?;
    let mut records = Records::new();
    gather(opened, &map, &mut records)?;
    let count = records.len();
    if slots.len() < count {
        return Err(Refusal::Short(count));
    }
    slots[..count].copy_from_slice(records.as_slice());
    Ok(count)
}
