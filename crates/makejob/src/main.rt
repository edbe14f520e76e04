//! Makes a job of an image on standard input: `makejob C000 C000 C123 < face.bin | reachreport`.

#![tactic(auto)]

ghost use Rattle.std.specs.Prelude.{◌≡◌, ◌<◌, ◌≤◌, length, get_or, take, true, IfSome};
ghost use Rattle.std.specs.Io.KnownBytes.{Consumes, IsAtEnd, Keeps};
ghost use Rattle.makejob.specs.Words.{digit_of, mark_of, address_of, input_of};

use job::WriteError;
use reading::read_full;
use std::env::{Env, FillError};
use std::io;
use std::io::{Read, Write};

// Where an image's load address comes from: an argument, or its own first two bytes. Not an `Option`, since a prg lacks no address.
#[derive(Clone, Copy)]
pub enum Load {
    Told(u16),
    Prg,
}

// The length of the largest job.
const MOST: usize = 16 + 2 * job::MOST_ENTRIES + job::MOST_BYTES;

// The longest argument that is read whole.
const MOST_WORD: usize = 4096;

// The value of a hexadecimal digit, if the byte is one.
fn digit(c: u8) -> Option<u8>
    ensures { result ≡ digit_of c }
{
    match c {
        b'0'..=b'9' => Some(c - b'0'),
        b'A'..=b'F' => Some(c - b'A' + 10),
        b'a'..=b'f' => Some(c - b'a' + 10),
        _ => None,
    }
}

// The byte at `i`, or 0 past the end.
fn byte(word: &[u8], i: usize) -> u8
    ensures { result ≡ get_or word.now i 0 }
{
    word.get(i).copied().unwrap_or(0)
}

// The length of a `$` or `0x` in front.
fn mark(word: &[u8]) -> usize
    ensures { result ≡ mark_of word.now }
{
    match (byte(word, 0), byte(word, 1)) {
        (b'$', _) => 1,
        (b'0', b'x') => 2,
        _ => 0,
    }
}

// The address that a word spells, if it spells one.
fn address(word: &[u8]) -> Option<u16>
    ensures { result ≡ address_of word.now }
{
    let from = mark(word);
    if word.len() <= from {
        return None;
    }
    let mut value: u32 = 0;
    for &c in &word[from..] {
        let d = digit(c)?;
        value = 16 * value + d as u32;
        if value > 0xFFFF {
            return None;
        }
    }
    Some(value as u16)
}

// The load address of what was read, and where its image begins; nothing where a prg is shorter than its load address.
fn image_in(load: Load, bytes: &[u8]) -> Option<(u16, usize)>
    ensures { result ≡ input_of load bytes.now }
{
    match load {
        Load::Told(a) => Some((a, 0)),
        Load::Prg if bytes.len() < 2 => None,
        Load::Prg => Some((job::word16(bytes, 0), 2)),
    }
}

// How many words the program was started with, its own name among them.
fn word_count(rt: &impl Env) -> usize {
    for i in 0..usize::MAX {
        if let Err(FillError::NotPresent) = rt.arg(i, &mut []) {
            return i;
        }
    }
    usize::MAX
}

// Puts argument `i` at the front of the buffer, and answers its length: nothing where it is missing or longer than the buffer.
fn read_word(rt: &impl Env, i: usize, word: &mut [u8]) -> Option<usize>
    ensures { IfSome result (λ n. n ≤ length word.new) }
{
    rt.arg(i, word).ok()
}

// Says that argument `i` is not an address. The word need not be text.
fn say_other(errors: &impl Print, i: usize, word: &[u8]) -> io::Result<()> {
    print!(errors; "makejob: argument {i} is not an address: ")?;
    errors.write_all(word)?;
    errors.write_all(b"\n")
}

// The address that argument `i` spells.
fn entry(rt: &impl Env, errors: &impl Print, i: usize) -> io::Result<Option<u16>> {
    let mut word = [0u8; MOST_WORD];
    let Some(n) = read_word(rt, i, &mut word) else {
        say_other(errors, i, b"")?;
        return Ok(None);
    };
    let parsed = address(&word[..n]);
    if parsed.is_none() {
        say_other(errors, i, &word[..n])?;
    }
    Ok(parsed)
}

// Reads the entries, which begin at argument 2. Whether all are addresses.
fn read_entries(
    rt: &impl Env,
    errors: &impl Print,
    count: usize,
    entries: &mut [u16; 1024],
) -> io::Result<bool>
    requires { count ≤ 1024 }
    ensures { length entries.new ≡ 1024 }
{
    for (i, slot) in entries[..count].iter_mut().enumerate() {
        let Some(a) = entry(rt, errors, i + 2)? else {
            return Ok(false);
        };
        *slot = a;
    }
    Ok(true)
}

// Whether an input has ended. Where it cannot be read, it has not.
fn is_ended<I: Read>(input: &mut I) -> bool
    ensures { result ≡ true → Keeps (I.remaining input.old) (I.remaining input.new) × IsAtEnd (I.remaining input.new) }
{
    let mut one = [0u8; 1];
    matches!(input.read(&mut one), Ok(0))
}

// Reads an input to its end or until the buffer is full, and answers how long it is: nothing where it cannot be read.
fn read_input<I: Read>(input: &mut I, bytes: &mut [u8]) -> Option<usize>
    ensures within { IfSome result (λ n. n ≤ length bytes.new) }
    ensures bytes { IfSome result (λ n. Consumes (I.remaining input.old) (I.remaining input.new) (take n bytes.new)) }
    ensures short_only_at_end { IfSome result (λ n. n < length bytes.new → IsAtEnd (I.remaining input.new)) }
{
    let n = read_full(input, bytes).ok()?;
    if n < bytes.len() && !is_ended(input) {
        return None;
    }
    Some(n)
}

// Writes the job to the output, by way of a lent buffer.
fn write(
    output: &mut impl Write,
    errors: &impl Print,
    load: u16,
    entries: &[u16],
    image: &[u8],
    out: &mut [u8],
) -> io::Result<()> {
    match job::write_job(load, entries, image, out) {
        Ok(n) => {
            if output.write_all(&out[..n]).is_err() {
                return println!(errors; "makejob: standard output cannot be written");
            }
            Ok(())
        }
        Err(WriteError::TooLarge) => {
            println!(errors; "makejob: the image is longer than 49,152 bytes")
        }
        // Not met: the buffer holds the largest job.
        Err(WriteError::Short(_)) => Ok(()),
    }
}

// Writes the job of what was read.
fn convert(
    output: &mut impl Write,
    errors: &impl Print,
    load: Load,
    entries: &[u16],
    bytes: &[u8],
    out: &mut [u8],
) -> io::Result<()> {
    let Some((a, from)) = image_in(load, bytes) else {
        return println!(errors; "makejob: a prg begins with its load address, two bytes");
    };
    write(output, errors, a, entries, &bytes[from..], out)
}

// Reads entries and image, and writes their job.
fn make(
    rt: &(impl Env + io::Input + Print),
    errors: &impl Print,
    load: Load,
    count: usize,
) -> io::Result<()>
    requires { count ≤ 1024 }
{
    let mut entries = [0u16; 1024];
    if !read_entries(rt, errors, count, &mut entries)? {
        return Ok(());
    }
    // Longer than any image.
    let mut bytes = [0u8; 65536];
    let Some(n) = read_input(&mut rt.reader(), &mut bytes) else {
        return println!(errors; "makejob: standard input cannot be read");
    };
    let mut out = [0u8; MOST];
    convert(
        &mut io::writer(rt),
        errors,
        load,
        &entries[..count],
        &bytes[..n],
        &mut out,
    )
}

fn main(rt: HostRuntime) -> io::Result<()> {
    let errors = rt.stderr();
    let words = word_count(&rt);
    if words < 2 {
        return println!(errors; "usage: makejob LOAD|prg ENTRY.. < IMAGE > JOB");
    }
    if words == 2 {
        return println!(errors; "makejob: no entry");
    }
    let count = words - 2;
    if count > job::MOST_ENTRIES {
        return println!(errors; "makejob: more than 1,024 entries");
    }
    let mut word = [0u8; MOST_WORD];
    let Some(n) = read_word(&rt, 1, &mut word) else {
        return say_other(&errors, 1, b"");
    };
    if &word[..n] == b"prg".as_slice() {
        return make(&rt, &errors, Load::Prg, count);
    }
    match address(&word[..n]) {
        Some(a) => make(&rt, &errors, Load::Told(a), count),
        None => say_other(&errors, 1, &word[..n]),
    }
}
