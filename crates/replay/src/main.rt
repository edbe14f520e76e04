//! Reads inputs from standard input, one after the other, and writes what every public call answers to each: one side of a comparison with the original.

#![tactic(auto)]

ghost use Rattle.std.specs.Prelude.{◌≡◌, ◌+◌, ◌*◌, ◌≤◌, length, take};
ghost use Rattle.report.specs.Report.{Enough, EnoughStores};

use arrayvec::ArrayVec;
use diagnosis::Summary;
use reading::read_full;
use refusal::Refusal;
use report::{LINE_END, SPACE};
use span::Span;
use std::io;
use std::io::Read;
use tracker::Registers;

// The largest input. The library takes larger ones than a job may have, so these go past 01's limits.
const MOST_ENTRIES: usize = 70000;

const MOST_BYTES: usize = 66000;

const HEADER: usize = 10;

// The most records: two for each address met, `budget`, and every address as an entry outside; and a store for each address met.
const MOST_REFUSALS: usize = 2 * 4096 + 1 + 65536;

const MOST_STORES: usize = 4096;

// How many slots more than needed a list has, to see that they stay as they were.
const SPARE: usize = 3;

// The longest answers to an input: 39 bytes for a refusal, 12 for a store, 8 for a zero-page byte, and the other lines. The contracts spell the sums out:
// 39 x 73,729 + 196 = 2,875,627 bytes for the diagnosis, 12 x 4,096 + 196 = 49,348 for the stores, 2,927,187 for all.
const MOST_TEXT: usize = 39 * MOST_REFUSALS + 12 * MOST_STORES + 8 * 256 + 556;

// All answers to an input.
type Text = ArrayVec<u8, MOST_TEXT>;

// What no record is, so that a slot that was written is seen: a cause 255, and a store whose low is above its high.
const NO_REFUSAL: u64 = 0xFFFF_FFFF_FFFF_FFFF;

const NO_STORE: u32 = 0xFFFF_0000;

// What a call with a list of another length gave: the number of records that it told, and how many slots are not what they must be.
#[derive(Clone, Copy)]
struct Tried {
    records: usize,
    unlike: usize,
}

// What a call answers with exactly as many slots as it needs, with one fewer and with some to spare.
#[derive(Clone, Copy)]
struct Tests<A> {
    answer: Result<A, Refusal>,
    short: Tried,
    spare: Tried,
}

// ── SPAN, COUNT, END, GUARDED ──

// The count, where a span was given.
fn put_count(out: &mut Text, answer: Result<Span, Refusal>)
    requires { length out.old.items + 27 ≤ 2927187 }
    ensures { length out.new.items ≤ length out.old.items + 27 }
{
    if let Ok(s) = answer {
        report::put_number(out, b"COUNT", s.count as u64);
    }
}

fn put_end(out: &mut Text, answer: Result<u16, Refusal>)
    requires { length out.old.items + 40 ≤ 2927187 }
    ensures { length out.new.items ≤ length out.old.items + 40 }
{
    match answer {
        Ok(high) => {
            report::put_word(out, b"END", SPACE);
            report::put_hex(out, 4, high, LINE_END);
        }
        Err(refusal) => report::put_none(out, b"END", refusal.number()),
    }
}

fn put_spans(out: &mut Text, image: &[u8], load: u16, entries: &[u16])
    requires { length out.old.items + 147 ≤ 2927187 }
    ensures { length out.new.items ≤ length out.old.items + 147 }
{
    let plain = span::reachable_span(image, load, entries);
    report::put_span(out, b"SPAN", plain);
    put_count(out, plain);
    put_end(out, span::reachable_end(image, load, entries));
    report::put_span(out, b"GUARDED", span::guarded_span(image, load, entries));
}

// ── DIAG, STORES: with lists of several lengths ──

// SHORT or SPARE, where it is to be shown.
fn put_tried(out: &mut Text, name: &[u8], tried: Tried, is_shown: bool)
    requires { (length name.now ≤ 5) × (length out.old.items + 48 ≤ 2927187) }
    ensures { length out.new.items ≤ length out.old.items + 48 }
{
    if is_shown {
        report::put_word(out, name, SPACE);
        report::put_decimal(out, tried.records as u64, SPACE);
        report::put_decimal(out, tried.unlike as u64, LINE_END);
    }
}

// SHORT, where a list can have fewer slots than needed, and SPARE, where the call has an answer.
fn put_tests<A>(out: &mut Text, tests: &Tests<A>, is_any_needed: bool)
    requires { length out.old.items + 96 ≤ 2927187 }
    ensures { length out.new.items ≤ length out.old.items + 96 }
{
    put_tried(out, b"SHORT", tests.short, is_any_needed);
    put_tried(out, b"SPARE", tests.spare, tests.answer.is_ok());
}

// The number of records that an answer tells: those that it gives, or those that it needs.
fn records_in(answer: Result<usize, Refusal>) -> usize {
    answer.unwrap_or_else(|refusal| refusal.needed())
}

// How many of the first `n` slots of two lists are not the same.
fn unlike<T: PartialEq + Copy>(expected: &[T], slots: &[T], n: usize) -> usize
    requires { (n ≤ length expected.now) × (n ≤ length slots.now) }
{
    slots[..n]
        .iter()
        .zip(&expected[..n])
        .filter(|(slot, wanted)| slot != wanted)
        .count()
}

// Calls `diagnose` with the first `n` slots, all pattern, which are to be as expected after it.
fn try_diagnose(
    image: &[u8],
    load: u16,
    entries: &[u16],
    expected: &[u64],
    slots: &mut [u64],
    n: usize,
) -> Tried
    requires { (n ≤ length expected.now) × (n ≤ length slots.old) }
{
    slots[..n].fill(NO_REFUSAL);
    let answer = diagnosis::diagnose(image, load, entries, &mut slots[..n]);
    Tried {
        records: records_in(answer.map(|s| s.records)),
        unlike: unlike(expected, slots, n),
    }
}

// Calls `write_extent` in the same way. Its list is short enough to be made anew for each call.
fn try_write_extent(image: &[u8], load: u16, entries: &[u16], expected: &[u32], n: usize) -> Tried
    requires { (n ≤ length expected.now) × (n ≤ 4099) }
{
    let mut slots = [NO_STORE; MOST_STORES + SPARE];
    let answer = stores::write_extent(image, load, entries, &mut slots[..n]);
    Tried {
        records: records_in(answer),
        unlike: unlike(expected, &slots, n),
    }
}

// Calls `diagnose` with one slot fewer than needed, with as many, and with some to spare. Before the second call `exact` is all pattern, as a list too short
// must stay; after it, it is what a list with slots to spare must be.
fn test_diagnose(
    image: &[u8],
    load: u16,
    entries: &[u16],
    exact: &mut [u64],
    other: &mut [u64],
    needed: usize,
) -> Tests<Summary>
    requires { (needed + 3 ≤ length exact.old) × (needed + 3 ≤ length other.old) }
    ensures { Enough result.answer (take needed exact.new) }
{
    exact[..needed + SPARE].fill(NO_REFUSAL);
    let short = try_diagnose(image, load, entries, exact, other, needed.saturating_sub(1));
    let answer = diagnosis::diagnose(image, load, entries, &mut exact[..needed]);
    let spare = try_diagnose(image, load, entries, exact, other, needed + SPARE);
    Tests {
        answer,
        short,
        spare,
    }
}

// Calls `write_extent` in the same way.
fn test_write_extent(
    image: &[u8],
    load: u16,
    entries: &[u16],
    exact: &mut [u32],
    needed: usize,
) -> Tests<usize>
    requires { (needed ≤ 4096) × (length exact.old ≡ 4099) }
    ensures { EnoughStores result.answer (take needed exact.new) }
{
    let short = try_write_extent(image, load, entries, exact, needed.saturating_sub(1));
    let answer = stores::write_extent(image, load, entries, &mut exact[..needed]);
    let spare = try_write_extent(image, load, entries, exact, needed + SPARE);
    Tests {
        answer,
        short,
        spare,
    }
}

// DIAG, its records, SHORT and SPARE.
fn put_diag_tests(out: &mut Text, tests: Tests<Summary>, slots: &[u64])
    requires { (length out.old.items + 2875627 ≤ 2927187) × (length slots.now ≤ 73729) × Enough tests.answer slots.now }
    ensures { length out.new.items ≤ length out.old.items + 2875627 }
{
    report::put_diag(out, tests.answer, slots);
    put_tests(out, &tests, !slots.is_empty());
}

// STORES, its records, SHORT and SPARE.
fn put_stores_tests(out: &mut Text, tests: Tests<usize>, slots: &[u32])
    requires { (length out.old.items + 49348 ≤ 2927187) × (length slots.now ≤ 4096) × EnoughStores tests.answer slots.now }
    ensures { length out.new.items ≤ length out.old.items + 49348 }
{
    report::put_extent(out, tests.answer, slots);
    put_tests(out, &tests, !slots.is_empty());
}

fn put_diagnosis(
    out: &mut Text,
    image: &[u8],
    load: u16,
    entries: &[u16],
    exact: &mut [u64],
    other: &mut [u64],
)
    requires { (length out.old.items + 2875627 ≤ 2927187) × (length exact.old ≡ 73732) × (length other.old ≡ 73732) }
    ensures { length out.new.items ≤ length out.old.items + 2875627 }
{
    let answer = diagnosis::diagnose(image, load, entries, &mut []);
    let needed = records_in(answer.map(|s| s.records));
    // Not met, and not proved so.
    if needed > MOST_REFUSALS {
        return report::put_word(out, b"TOOMANY", LINE_END);
    }
    let tests = test_diagnose(image, load, entries, exact, other, needed);
    put_diag_tests(out, tests, &exact[..needed]);
}

fn put_stores(out: &mut Text, image: &[u8], load: u16, entries: &[u16])
    requires { length out.old.items + 49348 ≤ 2927187 }
    ensures { length out.new.items ≤ length out.old.items + 49348 }
{
    let needed = records_in(stores::write_extent(image, load, entries, &mut []));
    // Not met, and not proved so.
    if needed > MOST_STORES {
        return report::put_word(out, b"TOOMANY", LINE_END);
    }
    let mut exact = [NO_STORE; MOST_STORES + SPARE];
    let tests = test_write_extent(image, load, entries, &mut exact, needed);
    put_stores_tests(out, tests, &exact[..needed]);
}

// ── TRACK, Z ──

fn put_registers(out: &mut Text, regs: Registers)
    requires { length out.old.items + 15 ≤ 2927187 }
    ensures { length out.new.items ≤ length out.old.items + 15 }
{
    report::put_word(out, b"TRACK", SPACE);
    report::put_held(out, regs.a, SPACE);
    report::put_held(out, regs.x, SPACE);
    report::put_held(out, regs.y, LINE_END);
}

// A line for a byte that is known.
fn put_zero_page_byte(out: &mut Text, address: u16, value: Option<u8>)
    requires { length out.old.items + 8 ≤ 2927187 }
    ensures { length out.new.items ≤ length out.old.items + 8 }
{
    if let Some(byte) = value {
        report::put_word(out, b"Z", SPACE);
        report::put_hex(out, 2, address, SPACE);
        report::put_hex(out, 2, byte as u16, LINE_END);
    }
}

fn put_zero_page(out: &mut Text, zp: &[Option<u8>; 256])
    requires { length out.old.items + 2048 ≤ 2927187 }
    ensures { length out.new.items ≤ length out.old.items + 2048 }
{
    for z in 0..256u16 {
        put_zero_page_byte(out, z, zp[z as usize]);
    }
}

fn put_tracked(out: &mut Text, image: &[u8])
    requires { length out.old.items + 2063 ≤ 2927187 }
    ensures { length out.new.items ≤ length out.old.items + 2063 }
{
    let state = tracker::track_immediates(image);
    put_registers(out, state.regs);
    put_zero_page(out, &state.zp);
}

// ── an input ──

// All answers to an input.
fn put_answers(
    out: &mut Text,
    image: &[u8],
    load: u16,
    entries: &[u16],
    exact: &mut [u64],
    other: &mut [u64],
)
    requires { (length out.old.items ≡ 0) × (length exact.old ≡ 73732) × (length other.old ≡ 73732) }
{
    put_spans(out, image, load, entries);
    put_diagnosis(out, image, load, entries, exact, other);
    put_stores(out, image, load, entries);
    put_tracked(out, image);
    report::put_word(out, b".", LINE_END);
}

// Decodes the entries into the first slots of the list.
fn decode_entries(bytes: &[u8], count: usize, entries: &mut [u16])
    requires { (2 * count ≤ length bytes.now) × (count ≤ length entries.old) }
{
    for i in 0..count {
        entries[i] = job::word16(bytes, 2 * i);
    }
}

// Answers an input whose entries and image are in `bytes`.
fn answer(
    rt: &impl Print,
    load: u16,
    count: usize,
    bytes: &[u8],
    entries: &mut [u16; MOST_ENTRIES],
    exact: &mut [u64; MOST_REFUSALS + SPARE],
    other: &mut [u64; MOST_REFUSALS + SPARE],
    out: &mut Text,
) -> io::Result<()>
    requires { (count ≤ 70000) × (2 * count ≤ length bytes.now) }
{
    // As a slice, it tells the proof its length.
    let slots = &mut entries[..];
    decode_entries(bytes, count, slots);
    let decoded = &slots[..];
    out.clear();
    put_answers(
        out,
        &bytes[2 * count..],
        load,
        &decoded[..count],
        &mut exact[..],
        &mut other[..],
    );
    rt.write_all(out.as_slice())
}

// Ends the stream at an input that is cut short or too large.
fn cut(rt: &impl Print) -> io::Result<bool> {
    rt.write_all(b"CUT\n")?;
    Ok(false)
}

// Answers the next input. Whether there may be another one.
fn answer_next(
    rt: &impl Print,
    input: &mut impl Read,
    bytes: &mut [u8; 2 * MOST_ENTRIES + MOST_BYTES],
    entries: &mut [u16; MOST_ENTRIES],
    exact: &mut [u64; MOST_REFUSALS + SPARE],
    other: &mut [u64; MOST_REFUSALS + SPARE],
    out: &mut Text,
) -> io::Result<bool> {
    let mut header = [0u8; HEADER];
    let got = read_full(input, &mut header)?;
    if got == 0 {
        return Ok(false);
    }
    let load = job::word16(&header, 0);
    let count = job::word32(&header, 2) as usize;
    let size = job::word32(&header, 6) as usize;
    if got < HEADER || count > MOST_ENTRIES || size > MOST_BYTES {
        return cut(rt);
    }
    let end = 2 * count + size;
    let body = &mut bytes[..];
    if read_full(input, &mut body[..end])? < end {
        return cut(rt);
    }
    let read = &body[..];
    answer(rt, load, count, &read[..end], entries, exact, other, out)?;
    Ok(true)
}

// Answers the inputs one after the other, until the stream ends.
fn answer_all(rt: &(impl io::Input + Print), out: &mut Text) -> io::Result<()> {
    let mut input = rt.reader();
    // Lent to every turn, and not made anew in each: they are large, and most inputs are small.
    let mut bytes = [0u8; 2 * MOST_ENTRIES + MOST_BYTES];
    let mut entries = [0u16; MOST_ENTRIES];
    let mut exact = [0u64; MOST_REFUSALS + SPARE];
    let mut other = [0u64; MOST_REFUSALS + SPARE];
    // A proved loop has to end, and nothing says that a stream does. So the turns are counted down, from a number that no run uses up.
    let mut turns = u64::MAX;
    while turns > 0
        && answer_next(
            rt,
            &mut input,
            &mut bytes,
            &mut entries,
            &mut exact,
            &mut other,
            out,
        )?
    {
        turns -= 1;
    }
    Ok(())
}

fn main(rt: HostRuntime) -> io::Result<()> {
    // Made before the other lists, since making it takes its size once more on the stack.
    let mut out = Text::new();
    answer_all(&rt, &mut out)
}
