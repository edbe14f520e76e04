//! The face for other languages: span, diagnosis, stores and tracker as functions on numbers and lists. Each answers as the plain call does.
//! `image_reach_c` exports them to C.

#![tactic(auto)]

ghost use Rattle.std.specs.Prelude.{◌≡◌, map};
ghost use Rattle.site.specs.declared.Reading.TheVariants.{Plain, Guarded};
ghost use Rattle.refusal.specs.Numbers.{number_of};
ghost use Rattle.span.specs.Answers.{values_of};
ghost use Rattle.diagnosis.specs.Answers.{values_of as diag_values_of};
ghost use Rattle.stores.specs.Answers.{count_of};
ghost use Rattle.image_reach.specs.Face.{span_of, value_of, mark_of, TellsSpan, TellsEnd, TellsDiagnosis, TellsStores, TellsTracker};

use diagnosis::Summary;
use refusal::Refusal;
use span::Span;
use tracker::Registers;

// ── values of each answer ──

// What a refused span tells.
const NO_SPAN: Span = Span {
    low: 0,
    high: 0,
    count: 0,
};

// A refusal's numbers are 0, but for the number of records that a list too short would need.
fn diag_values_of(answer: Result<Summary, Refusal>) -> Summary
    ensures { result ≡ diag_values_of answer }
{
    match answer {
        Ok(s) => s,
        Err(refusal) => Summary {
            low: 0,
            high: 0,
            count: 0,
            records: refusal.needed(),
        },
    }
}

// The number of records written, or needed.
fn count_of(answer: Result<usize, Refusal>) -> usize
    ensures { result ≡ count_of answer }
{
    match answer {
        Ok(n) => n,
        Err(refusal) => refusal.needed(),
    }
}

// ── what the tracker knows ──

// The value of a register or of a zero-page byte, 0 where it is not known.
fn value_of(held: Option<u8>) -> u8
    ensures { result ≡ value_of held }
{
    held.unwrap_or(0)
}

// 1 where it is known.
fn mark_of(held: Option<u8>) -> u8
    ensures { result ≡ mark_of held }
{
    u8::from(held.is_some())
}

// Each byte's value, and its mark.
fn tell_page(page: &[Option<u8>; 256], values: &mut [u8; 256], marks: &mut [u8; 256])
    ensures values { values.new ≡ map value_of page.now }
    ensures marks { marks.new ≡ map mark_of page.now }
{
    for (z, &held) in page.iter().enumerate() {
        values[z] = value_of(held);
        marks[z] = mark_of(held);
    }
}

// ── an answer of numbers alone, told ──

fn tell_span(answer: Result<Span, Refusal>, low: &mut u16, high: &mut u16, count: &mut u32) -> u32
    ensures { (result ≡ number_of answer) × (span_of low.new high.new count.new ≡ values_of answer) }
{
    let s = answer.unwrap_or(NO_SPAN);
    *low = s.low;
    *high = s.high;
    *count = s.count;
    refusal::number_of(&answer) as u32
}

// ── the calls ──

// The plain span: low, high and the number of reachable instructions.
pub fn image_reach_span(
    image: &[u8],
    load: u16,
    entries: &[u16],
    low: &mut u16,
    high: &mut u16,
    count: &mut u32,
) -> u32
    ensures { TellsSpan image.now load entries.now Plain result low.new high.new count.new }
{
    tell_span(span::reachable_span(image, load, entries), low, high, count)
}

// The guarded span, told in the same way.
pub fn image_reach_guarded_span(
    image: &[u8],
    load: u16,
    entries: &[u16],
    low: &mut u16,
    high: &mut u16,
    count: &mut u32,
) -> u32
    ensures { TellsSpan image.now load entries.now Guarded result low.new high.new count.new }
{
    tell_span(span::guarded_span(image, load, entries), low, high, count)
}

// The plain span's high alone.
pub fn image_reach_end(image: &[u8], load: u16, entries: &[u16], high: &mut u16) -> u32
    ensures { TellsEnd image.now load entries.now result high.new }
{
    let answer = span::reachable_end(image, load, entries);
    *high = answer.unwrap_or(0);
    refusal::number_of(&answer) as u32
}

// The diagnosis: the range, the number of addresses met, and the number of records, which the lent list gets. On 6 `records` is the number needed.
pub fn image_reach_diagnose(
    image: &[u8],
    load: u16,
    entries: &[u16],
    slots: &mut [u64],
    low: &mut u16,
    high: &mut u16,
    count: &mut u32,
    records: &mut usize,
) -> u32
    ensures { TellsDiagnosis image.now load entries.now slots.old slots.new result low.new high.new count.new records.new }
{
    let answer = diagnosis::diagnose(image, load, entries, slots);
    let summary = diag_values_of(answer);
    *low = summary.low;
    *high = summary.high;
    *count = summary.count;
    *records = summary.records;
    refusal::number_of(&answer) as u32
}

// The store spans: the number of records, which the lent list gets. On 6 `records` is the number needed.
pub fn image_reach_write_extent(
    image: &[u8],
    load: u16,
    entries: &[u16],
    slots: &mut [u32],
    records: &mut usize,
) -> u32
    ensures { TellsStores image.now load entries.now slots.old slots.new result records.new }
{
    let answer = stores::write_extent(image, load, entries, slots);
    *records = count_of(answer);
    refusal::number_of(&answer) as u32
}

// The tracker: A, X and Y with a mark of 1 for each that is known, and the zero page with its marks. What is not known is 0.
pub fn image_reach_track_immediates(
    code: &[u8],
    registers: &mut [u8; 3],
    known: &mut [u8; 3],
    zp: &mut [u8; 256],
    marks: &mut [u8; 256],
)
    ensures { TellsTracker code.now registers.new known.new zp.new marks.new }
{
    let state = tracker::track_immediates(code);
    let Registers { a, x, y } = state.regs;
    *registers = [value_of(a), value_of(x), value_of(y)];
    *known = [mark_of(a), mark_of(x), mark_of(y)];
    tell_page(&state.zp, zp, marks);
}
