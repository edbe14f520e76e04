//! The report: what span, guarded span, diagnosis and stores answer to a job, as text in a lent buffer.

#![tactic(auto)]

ghost use Rattle.std.specs.Prelude.{◌≡◌, [], ◌∷◌, ◌++◌, Some, codes, decimal};
ghost use Rattle.cause.specs.Cause.{slug_of};
ghost use Rattle.text.specs.Text.{hex_of, decimal_of, Room};
ghost use Rattle.report.specs.Lines.{none, number_line, span_line, held_word, pointer_word, flag_words, cause_words};
ghost use Rattle.report.specs.Lines.{record_line, lines, count_words, summary_line, diag_lines, store_line, stores_lines, job_line};
ghost use Rattle.report.specs.Report.{Enough, EnoughStores, Tells, TellsAll, Delivers, Reports};

use arrayvec::ArrayVec;
use cause::RefusalCause;
use diagnosis::Summary;
use refusal::Refusal;
use span::Span;
use std::error::Error;
use std::fmt;

/// The lent buffer is shorter than the report, which needs so many bytes.
#[derive(Clone, Copy, Debug, PartialEq, Eq)]
pub struct TooShort {
    pub needed: usize,
}

impl fmt::Display for TooShort {
    ghost output = { λ e. Some (codes "the report needs " ++ decimal e.needed ++ codes " bytes") };

    fn fmt<W: fmt::Write>(&self, f: &mut fmt::Formatter<W>) -> fmt::Result {
        write!(f, "the report needs {} bytes", self.needed)
    }
}

impl Error for TooShort {}

// The longest report.
pub const MOST_TEXT: usize = 262144;

// What follows a word: a space, or the end of its line.
pub const SPACE: u8 = 0x20;

pub const LINE_END: u8 = 0x0A;

// ── words ──

// A word, and the byte after it.
pub fn put_word<const N: usize>(out: &mut ArrayVec<u8, N>, word: &[u8], after: u8)
    requires { Room out.old.items (word.now ++ after ∷ []) N }
    ensures { out.new.items ≡ out.old.items ++ (word.now ++ after ∷ []) }
{
    text::put(out, word);
    out.push(after);
}

pub fn put_hex<const N: usize>(out: &mut ArrayVec<u8, N>, width: usize, value: u16, after: u8)
    requires { Room out.old.items (hex_of width value ++ after ∷ []) N }
    ensures { out.new.items ≡ out.old.items ++ (hex_of width value ++ after ∷ []) }
{
    text::put_hex(out, width, value);
    out.push(after);
}

pub fn put_decimal<const N: usize>(out: &mut ArrayVec<u8, N>, value: u64, after: u8)
    requires { Room out.old.items (decimal_of value ++ after ∷ []) N }
    ensures { out.new.items ≡ out.old.items ++ (decimal_of value ++ after ∷ []) }
{
    text::put_decimal(out, value);
    out.push(after);
}

// A byte, or `--` where there is none.
pub fn put_held<const N: usize>(out: &mut ArrayVec<u8, N>, value: Option<u8>, after: u8)
    requires { Room out.old.items (held_word value ++ after ∷ []) N }
    ensures { out.new.items ≡ out.old.items ++ (held_word value ++ after ∷ []) }
{
    match value {
        Some(byte) => put_hex(out, 2, byte as u16, after),
        None => put_word(out, b"--", after),
    }
}

// A line of a name and a number.
pub fn put_number<const N: usize>(out: &mut ArrayVec<u8, N>, name: &[u8], value: u64)
    requires { Room out.old.items (number_line name.now value) N }
    ensures { out.new.items ≡ out.old.items ++ number_line name.now value }
{
    put_word(out, name, SPACE);
    put_decimal(out, value, LINE_END);
}

// ── SPAN, GUARDED ──

// NONE and the number of a refusal.
pub fn put_none<const N: usize>(out: &mut ArrayVec<u8, N>, name: &[u8], number: u8)
    requires { Room out.old.items (none name.now number) N }
    ensures { out.new.items ≡ out.old.items ++ none name.now number }
{
    put_word(out, name, SPACE);
    put_number(out, b"NONE", number as u64);
}

pub fn put_span<const N: usize>(
    out: &mut ArrayVec<u8, N>,
    name: &[u8],
    answer: Result<Span, Refusal>,
)
    requires { Room out.old.items (span_line name.now answer) N }
    ensures { out.new.items ≡ out.old.items ++ span_line name.now answer }
{
    match answer {
        Ok(s) => {
            put_word(out, name, SPACE);
            put_hex(out, 4, s.low, SPACE);
            put_hex(out, 4, s.high, LINE_END);
        }
        Err(refusal) => put_none(out, name, refusal.number()),
    }
}

// ── DIAG, R ──

// Both flags and the weight, to the line's end.
fn put_flags<const N: usize>(out: &mut ArrayVec<u8, N>, r: u64)
    requires { Room out.old.items (flag_words r) N }
    ensures { out.new.items ≡ out.old.items ++ flag_words r }
{
    put_hex(out, 1, u16::from(records::linear_of(r)), SPACE);
    put_hex(out, 1, u16::from(records::walk_of(r)), SPACE);
    put_decimal(out, records::weight_of(r) as u64, LINE_END);
}

// Slug and pointer, and what follows.
fn put_cause<const N: usize>(out: &mut ArrayVec<u8, N>, r: u64)
    requires { Room out.old.items (cause_words r) N }
    ensures { out.new.items ≡ out.old.items ++ cause_words r }
{
    let cause = RefusalCause::from_number(records::cause_of(r));
    put_word(out, cause.slug().as_bytes(), SPACE);
    put_held(out, records::pointer_of(r), SPACE);
    put_flags(out, r);
}

fn put_record<const N: usize>(out: &mut ArrayVec<u8, N>, r: u64)
    requires { Room out.old.items (record_line r) N }
    ensures { out.new.items ≡ out.old.items ++ record_line r }
{
    put_word(out, b"R", SPACE);
    put_hex(out, 4, records::address_of(r), SPACE);
    put_hex(out, 2, records::opcode_of(r) as u16, SPACE);
    put_cause(out, r);
}

fn put_records<const N: usize>(out: &mut ArrayVec<u8, N>, records: &[u64])
    requires { Room out.old.items (lines record_line records.now) N }
    ensures { out.new.items ≡ out.old.items ++ lines record_line records.now }
{
    for &r in records {
        put_record(out, r);
    }
}

fn put_summary<const N: usize>(out: &mut ArrayVec<u8, N>, s: Summary)
    requires { Room out.old.items (summary_line s) N }
    ensures { out.new.items ≡ out.old.items ++ summary_line s }
{
    put_word(out, b"DIAG", SPACE);
    put_hex(out, 4, s.low, SPACE);
    put_hex(out, 4, s.high, SPACE);
    put_decimal(out, s.count as u64, SPACE);
    put_decimal(out, s.records as u64, LINE_END);
}

pub fn put_diag<const N: usize>(
    out: &mut ArrayVec<u8, N>,
    answer: Result<Summary, Refusal>,
    slots: &[u64],
)
    requires { Room out.old.items (diag_lines answer slots.now) N × Enough answer slots.now }
    ensures { out.new.items ≡ out.old.items ++ diag_lines answer slots.now }
{
    match answer {
        Ok(s) => {
            put_summary(out, s);
            put_records(out, &slots[..s.records]);
        }
        Err(refusal) => put_none(out, b"DIAG", refusal.number()),
    }
}

// ── STORES, W ──

fn put_store<const N: usize>(out: &mut ArrayVec<u8, N>, r: u32)
    requires { Room out.old.items (store_line r) N }
    ensures { out.new.items ≡ out.old.items ++ store_line r }
{
    put_word(out, b"W", SPACE);
    put_hex(out, 4, (r / 65536) as u16, SPACE);
    put_hex(out, 4, (r % 65536) as u16, LINE_END);
}

fn put_stores<const N: usize>(out: &mut ArrayVec<u8, N>, records: &[u32])
    requires { Room out.old.items (lines store_line records.now) N }
    ensures { out.new.items ≡ out.old.items ++ lines store_line records.now }
{
    for &r in records {
        put_store(out, r);
    }
}

pub fn put_extent<const N: usize>(
    out: &mut ArrayVec<u8, N>,
    answer: Result<usize, Refusal>,
    slots: &[u32],
)
    requires { Room out.old.items (stores_lines answer slots.now) N × EnoughStores answer slots.now }
    ensures { out.new.items ≡ out.old.items ++ stores_lines answer slots.now }
{
    match answer {
        Ok(count) => {
            put_number(out, b"STORES", count as u64);
            put_stores(out, &slots[..count]);
        }
        Err(refusal) => put_none(out, b"STORES", refusal.number()),
    }
}

// ── the whole ──

// A text into the buffer, or how many bytes it needs.
fn deliver(text: &[u8], out: &mut [u8]) -> Result<usize, TooShort>
    ensures { Delivers text.now out.old out.new result }
{
    let needed = text.len();
    if out.len() < needed {
        return Err(TooShort { needed });
    }
    text::put_at(out, 0, text);
    Ok(needed)
}

// A refused job's number.
fn refuse(number: u8, out: &mut [u8]) -> Result<usize, TooShort>
    ensures { Delivers (job_line number) out.old out.new result }
{
    let mut line: ArrayVec<u8, 32> = ArrayVec::new();
    put_number(&mut line, b"JOB", number as u64);
    deliver(line.as_slice(), out)
}

// The four answers to a job, one after the other, into a text that is lent empty. It is lent and not given, since it is large: given,
// it would be copied, and stand on the stack more than once.
fn put_answers(text: &mut ArrayVec<u8, MOST_TEXT>, image: &[u8], load: u16, entries: &[u16])
    requires { text.old.items ≡ [] }
    ensures { Tells image.now load entries.now text.new.items }
{
    let mut refusals = [0u64; 5122];
    let mut spans = [0u32; 4096];
    let plain = span::reachable_span(image, load, entries);
    let guarded = span::guarded_span(image, load, entries);
    let diag = diagnosis::diagnose(image, load, entries, &mut refusals);
    let written = stores::write_extent(image, load, entries, &mut spans);
    put_span(text, b"SPAN", plain);
    put_span(text, b"GUARDED", guarded);
    put_diag(text, diag, &refusals);
    put_extent(text, written, &spans);
}

// The text of the four answers, delivered.
fn answer(image: &[u8], load: u16, entries: &[u16], out: &mut [u8]) -> Result<usize, TooShort>
    ensures { TellsAll image.now load entries.now out.old out.new result }
{
    let mut text = ArrayVec::new();
    put_answers(&mut text, image, load, entries);
    deliver(text.as_slice(), out)
}

// The report of a job, as one text.
pub fn report(bytes: &[u8], out: &mut [u8]) -> Result<usize, TooShort>
    ensures { Reports bytes.now out.old out.new result }
{
    let mut entries = [0u16; 1024];
    match job::read_job(bytes, &mut entries) {
        Ok(job) => answer(&bytes[job.image..], job.load, &entries[..job.count], out),
        Err(e) => refuse(e.number(), out),
    }
}
