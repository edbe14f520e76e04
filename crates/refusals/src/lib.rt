//! The refusals of a diagnosis as structs, for callers who lend a slice of them.

#![tactic(auto)]

ghost use Rattle.std.specs.Prelude.{◌≡◌};
ghost use Rattle.mos6502.specs.Class.{manual_class};
ghost use Rattle.refusals.specs.Refusals.{refusal_of, Unpacks};
ghost use Rattle.refusals.specs.Into.{AnswersFirst, AnswersInto};

use cause::RefusalCause;
use diagnosis::Summary;
use refusal::Refusal;

// A record, unpacked: the Rust's fields in its order. `zp` is the pointer, where the cause has one.
#[derive(Clone, Copy, Debug, PartialEq, Eq)]
pub struct ReachRefusal {
    pub addr: u16,
    pub opcode: u8,
    pub cause: RefusalCause,
    pub zp: Option<u8>,
    pub zp_linear: bool,
    pub zp_from_walk: bool,
    pub from_entries: u16,
}

pub fn unpack(record: u64) -> ReachRefusal
    ensures { result ≡ refusal_of «record» }
{
    ReachRefusal {
        addr: records::address_of(record),
        opcode: records::opcode_of(record),
        cause: RefusalCause::from_number(records::cause_of(record)),
        zp: records::pointer_of(record),
        zp_linear: records::linear_of(record),
        zp_from_walk: records::walk_of(record),
        from_entries: records::weight_of(record),
    }
}

// Unpacks every record into the first structs of the lent slice, and leaves the others: how many. A slice too short is refused, and left as it was.
pub fn unpack_all(packed: &[u64], out: &mut [ReachRefusal]) -> Result<usize, Refusal>
    ensures { Unpacks packed.now out.old out.new result }
{
    let n = packed.len();
    if out.len() < n {
        return Err(Refusal::Short(n));
    }
    for (i, &record) in packed.iter().enumerate() {
        out[i] = unpack(record);
    }
    Ok(n)
}

// The diagnosis into the first `most` slots, or into all where they are fewer.
fn diagnose_first(
    image: &[u8],
    load: u16,
    entries: &[u16],
    slots: &mut [u64],
    most: usize,
) -> Result<Summary, Refusal>
    ensures { AnswersFirst manual_class image.now load entries.now most slots.old slots.new result }
{
    if slots.len() < most {
        return diagnosis::diagnose(image, load, entries, slots);
    }
    diagnosis::diagnose(image, load, entries, &mut slots[..most])
}

// The diagnosis, with its records in `slots` and the same as structs in `refusals`. Where either list is too short, neither is written.
pub fn diagnose_into(
    image: &[u8],
    load: u16,
    entries: &[u16],
    slots: &mut [u64],
    refusals: &mut [ReachRefusal],
) -> Result<Summary, Refusal>
    ensures { AnswersInto manual_class image.now load entries.now slots.old slots.new refusals.old refusals.new result }
{
    let summary = diagnose_first(image, load, entries, slots, refusals.len())?;
    unpack_all(&slots[..summary.records], refusals)?;
    Ok(summary)
}
