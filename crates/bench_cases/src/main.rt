//! Runs the cases of 01's bench through the public calls, and writes what each call answers.

#![tactic(auto)]

ghost use Rattle.std.specs.Prelude.{◌+◌, ◌<◌, ◌≤◌, length};

use arrayvec::ArrayVec;
use refusal::Refusal;
use report::{LINE_END, SPACE};
use span::Span;
use std::io;

// What one case writes.
type Text = ArrayVec<u8, 1024>;

// ── lines, each behind those that stand there ──

// The name of a case.
fn put_name(out: &mut Text, name: &[u8])
    requires { (length name.now ≤ 32) × (length out.old.items + 38 ≤ 1024) }
    ensures { length out.new.items ≤ length out.old.items + 38 }
{
    report::put_word(out, b"CASE", SPACE);
    report::put_word(out, name, LINE_END);
}

// A span, and its count where it was given.
fn put_counted(out: &mut Text, call: &[u8], answer: Result<Span, Refusal>)
    requires { (length call.now ≤ 7) × (length out.old.items + 67 ≤ 1024) }
    ensures { length out.new.items ≤ length out.old.items + 67 }
{
    report::put_span(out, call, answer);
    if let Ok(s) = answer {
        report::put_number(out, b"COUNT", s.count as u64);
    }
}

// What `diagnose` answers, and its records.
fn put_diagnosed(out: &mut Text, image: &[u8], load: u16, entries: &[u16])
    requires { length out.old.items + 412 ≤ 1024 }
    ensures { length out.new.items ≤ length out.old.items + 412 }
{
    let mut slots = [0u64; 8];
    let answer = diagnosis::diagnose(image, load, entries, &mut slots);
    report::put_diag(out, answer, &slots);
}

// What `write_extent` answers, and its records.
fn put_stored(out: &mut Text, image: &[u8], load: u16, entries: &[u16])
    requires { length out.old.items + 196 ≤ 1024 }
    ensures { length out.new.items ≤ length out.old.items + 196 }
{
    let mut slots = [0u32; 8];
    let answer = stores::write_extent(image, load, entries, &mut slots);
    report::put_extent(out, answer, &slots);
}

// What the tracker knows of the zero-page byte `z`.
fn put_tracked(out: &mut Text, zp: &[Option<u8>; 256], z: u8)
    requires { length out.old.items + 9 ≤ 1024 }
    ensures { length out.new.items ≤ length out.old.items + 9 }
{
    report::put_word(out, b"ZP", SPACE);
    report::put_hex(out, 2, z as u16, SPACE);
    report::put_held(out, zp[z as usize], LINE_END);
}

// ── cases ──

// What the four calls answer.
fn case(rt: &impl Print, name: &[u8], image: &[u8], load: u16, entries: &[u16]) -> io::Result<()>
    requires { length name.now ≤ 32 }
{
    let mut out = Text::new();
    put_name(&mut out, name);
    put_counted(
        &mut out,
        b"SPAN",
        span::reachable_span(image, load, entries),
    );
    put_counted(
        &mut out,
        b"GUARDED",
        span::guarded_span(image, load, entries),
    );
    put_diagnosed(&mut out, image, load, entries);
    put_stored(&mut out, image, load, entries);
    rt.write_all(out.as_slice())
}

// A case at 01's load address and entry.
fn plain_case(rt: &impl Print, name: &[u8], image: &[u8]) -> io::Result<()>
    requires { length name.now ≤ 32 }
{
    case(rt, name, image, 0xC000, &[0xC000])
}

// The cases that 01 stars.
fn starred_cases(rt: &impl Print) -> io::Result<()> {
    case(rt, b"empty", &[], 0xC000, &[])?;
    case(rt, b"two bytes at FFFF", &[0x60, 0x60], 0xFFFF, &[0xC000])?;
    plain_case(rt, b"60", &[0x60])?;
    plain_case(rt, b"EA", &[0xEA])?;
    plain_case(rt, b"20 00 10", &[0x20, 0x00, 0x10])?;
    plain_case(rt, b"4C 00 10", &[0x4C, 0x00, 0x10])?;
    plain_case(rt, b"4C E4 FF", &[0x4C, 0xE4, 0xFF])?;
    plain_case(
        rt,
        b"BD 04 C0 60 11 22 33",
        &[0xBD, 0x04, 0xC0, 0x60, 0x11, 0x22, 0x33],
    )?;
    plain_case(
        rt,
        b"BD 07 C0 60 11 22 33",
        &[0xBD, 0x07, 0xC0, 0x60, 0x11, 0x22, 0x33],
    )?;
    case(
        rt,
        b"11 22 BD FF BF 60",
        &[0x11, 0x22, 0xBD, 0xFF, 0xBF, 0x60],
        0xC000,
        &[0xC002],
    )?;
    plain_case(rt, b"D0 FE 60", &[0xD0, 0xFE, 0x60])?;
    plain_case(rt, b"D0 7F 60", &[0xD0, 0x7F, 0x60])?;
    case(rt, b"10 80 60 at 0000", &[0x10, 0x80, 0x60], 0, &[0])?;
    plain_case(rt, b"91 FF 60", &[0x91, 0xFF, 0x60])?;
    plain_case(rt, b"91 FB", &[0x91, 0xFB])?;
    plain_case(rt, b"9D F0 FF 60", &[0x9D, 0xF0, 0xFF, 0x60])
}

// What the tracker knows after a run that hides a load behind the operand of a BIT.
fn tracker_case(rt: &impl Print) -> io::Result<()> {
    let state = tracker::track_immediates(b"\x85\xFB\x2C\xA9\x01\x85\x10");
    let mut out = Text::new();
    put_name(&mut out, b"85 FB 2C A9 01 85 10");
    put_tracked(&mut out, &state.zp, 0x10);
    put_tracked(&mut out, &state.zp, 0xFB);
    rt.write_all(out.as_slice())
}

// A walk of `N` instructions, one byte each, in an image that fits the memory.
fn long_walk<const N: usize>(rt: &impl Print, name: &[u8]) -> io::Result<()>
    requires { (length name.now ≤ 32) × (0 < N) × (N ≤ 65536) }
{
    let mut image = [0xEAu8; N];
    image[N - 1] = 0x60;
    plain_case(rt, name, &image)
}

// The two entries meet more together, and each alone does not.
fn two_long_entries(rt: &impl Print) -> io::Result<()> {
    let mut image = [0xEAu8; 5000];
    image[2499] = 0x60;
    image[4999] = 0x60;
    case(rt, b"2499 EA, 60, twice", &image, 0x1000, &[0x1000, 0x19C4])
}

fn main(rt: HostRuntime) -> io::Result<()> {
    starred_cases(&rt)?;
    tracker_case(&rt)?;
    // As many instructions as a walk may meet, and one more.
    long_walk::<4096>(&rt, b"4095 EA, 60")?;
    long_walk::<4097>(&rt, b"4096 EA, 60")?;
    two_long_entries(&rt)?;
    case(&rt, b"60, entries 0 and 0", &[0x60], 0xC000, &[0, 0])?;
    // A loop that stores page after page, up to the page that it compares with.
    plain_case(
        &rt,
        b"store loop to C5",
        b"\xA9\x00\x85\xFB\xA9\xC1\x85\xFC\x91\xFB\xE6\xFC\xA5\xFC\xC9\xC5\xD0\xF6\x60",
    )?;
    plain_case(
        &rt,
        b"store loop to C1",
        b"\xA9\x00\x85\xFB\xA9\xC1\x85\xFC\x91\xFB\xE6\xFC\xA5\xFC\xC9\xC1\xD0\xF6\x60",
    )
}
