//! The job file: load address, entries and image in one run of bytes.

#![tactic(auto)]

ghost use Rattle.std.specs.Prelude.{◌≡◌, ◌++◌, ◌+◌, ◌*◌, ◌≤◌, ◌<◌, length, drop, Some};
ghost use Rattle.job.specs.Written.{bytes16, bytes32, header_of, words_of, job_for, job_bytes, written_of, placed, job_in};
ghost use Rattle.job.specs.Job.{number, word16, word32, headed, is_large, is_right, words_at, job_of, entries_in};
ghost use Rattle.job.specs.Sentences.{read_sentence, write_sentence};

use std::error::Error;
use std::fmt;

// The length of the header.
const HEADER: usize = 16;

// The most entries, and the longest image, that a job may have.
pub const MOST_ENTRIES: usize = 1024;

pub const MOST_BYTES: usize = 49152;

// Where the parts of a job stand in its bytes.
#[derive(Clone, Copy)]
pub struct Job {
    pub load: u16,
    // How many entries there are.
    pub count: usize,
    // Where the image begins, and how long it is.
    pub image: usize,
    pub size: usize,
}

/// Why bytes are no job: they are shorter than a header; they have too many entries or too long an image; or an offset or their length is wrong.
#[derive(Clone, Copy, Debug, PartialEq, Eq)]
pub enum JobError {
    Short,
    TooLarge,
    Wrong,
}

impl JobError {
    /// The number that 01 gives the refusal.
    pub fn number(self) -> u8
        ensures { result ≡ number self }
    {
        match self {
            JobError::Short => 8,
            JobError::TooLarge => 9,
            JobError::Wrong => 10,
        }
    }
}

impl fmt::Display for JobError {
    ghost output = { λ e. Some (read_sentence e) };

    fn fmt<W: fmt::Write>(&self, f: &mut fmt::Formatter<W>) -> fmt::Result {
        f.write_str(match self {
            JobError::Short => "the job is shorter than its header",
            JobError::TooLarge => "the job has too many entries or too long an image",
            JobError::Wrong => "an offset or the length of the job is wrong",
        })
    }
}

impl Error for JobError {}

/// Why a job is not written: it has too many entries or too long an image; or the lent buffer is shorter than the bytes that it needs.
#[derive(Clone, Copy, Debug, PartialEq, Eq)]
pub enum WriteError {
    TooLarge,
    Short(usize),
}

impl fmt::Display for WriteError {
    ghost output = { λ e. Some (write_sentence e) };

    fn fmt<W: fmt::Write>(&self, f: &mut fmt::Formatter<W>) -> fmt::Result {
        match self {
            WriteError::TooLarge => write!(f, "the job has too many entries or too long an image"),
            WriteError::Short(n) => write!(f, "the job needs {n} bytes"),
        }
    }
}

impl Error for WriteError {}

// Two bytes from `i` on, the least significant first.
#[tactic(auto, unfolding(crate::specs::Job::word16))]
pub fn word16(bytes: &[u8], i: usize) -> u16
    requires { i + 1 < length bytes.now }
    ensures { result ≡ word16 bytes.now i }
{
    u16::from_le_bytes([bytes[i], bytes[i + 1]])
}

// Four bytes from `i` on, the least significant first.
#[tactic(auto, unfolding(crate::specs::Job::word16, crate::specs::Job::word32))]
pub fn word32(bytes: &[u8], i: usize) -> u32
    requires { i + 3 < length bytes.now }
    ensures { result ≡ word32 bytes.now i }
{
    u32::from_le_bytes([bytes[i], bytes[i + 1], bytes[i + 2], bytes[i + 3]])
}

// What the header says of a job, whose image is to follow its entries.
fn header(bytes: &[u8]) -> Job
    requires { 16 ≤ length bytes.now }
    ensures { result ≡ headed bytes.now }
{
    let load = word16(bytes, 0);
    let count = word16(bytes, 2) as usize;
    let size = word32(bytes, 4) as usize;
    Job {
        load,
        count,
        image: HEADER + 2 * count,
        size,
    }
}

// 9: too many entries, or too long an image.
fn is_large(job: Job) -> bool
    ensures { result ≡ is_large job }
{
    job.count > MOST_ENTRIES || job.size > MOST_BYTES
}

// Not 10: both offsets and the total length are right.
fn is_right(bytes: &[u8], job: Job) -> bool
    requires { (16 ≤ length bytes.now) × (job.image + job.size < 0x100000000) }
    ensures { result ≡ is_right bytes.now job }
{
    word32(bytes, 8) as usize == HEADER
        && word32(bytes, 12) as usize == job.image
        && bytes.len() == job.image + job.size
}

// Decodes the entries into the first slots of the lent list.
fn read_entries(bytes: &[u8], count: usize, entries: &mut [u16; 1024])
    requires { (16 + 2 * count ≤ length bytes.now) × (count ≤ 1024) }
    ensures { entries.new ≡ words_at bytes.now 16 count ++ drop count entries.old }
{
    let slots = &mut entries[..count];
    let mut n = HEADER;
    for slot in slots.iter_mut() {
        *slot = word16(bytes, n);
        n += 2;
    }
}

// Reads a job. Its entries go to the first slots of the lent list.
pub fn read_job(bytes: &[u8], entries: &mut [u16; 1024]) -> Result<Job, JobError>
    ensures { (result ≡ job_of bytes.now) × (entries.new ≡ entries_in bytes.now entries.old result) }
{
    if bytes.len() < HEADER {
        return Err(JobError::Short);
    }
    let job = header(bytes);
    if is_large(job) {
        return Err(JobError::TooLarge);
    }
    if !is_right(bytes, job) {
        return Err(JobError::Wrong);
    }
    read_entries(bytes, job.count, entries);
    Ok(job)
}

// Puts bytes at `n`.
fn put_bytes(out: &mut [u8], n: usize, bytes: &[u8])
    requires { n + length bytes.now ≤ length out.old }
    ensures { out.new ≡ placed out.old n bytes.now }
{
    out[n..n + bytes.len()].copy_from_slice(bytes);
}

// Puts a number's two bytes at `n`, the least significant first.
#[tactic(auto, unfolding(crate::specs::Written::bytes16))]
fn put16(out: &mut [u8], n: usize, word: u16)
    requires { n + 2 ≤ length out.old }
    ensures { out.new ≡ placed out.old n (bytes16 word) }
{
    put_bytes(out, n, &word.to_le_bytes());
}

// Puts a number's four bytes at `n`, the least significant first.
#[tactic(auto, unfolding(crate::specs::Written::bytes16, crate::specs::Written::bytes32))]
fn put32(out: &mut [u8], n: usize, value: u32)
    requires { n + 4 ≤ length out.old }
    ensures { out.new ≡ placed out.old n (bytes32 value) }
{
    put_bytes(out, n, &value.to_le_bytes());
}

// Puts the header of a job whose numbers fit their bytes.
fn put_header(out: &mut [u8], job: Job)
    requires { (16 ≤ length out.old) × (job.count < 0x10000) × (job.size < 0x100000000) × (job.image < 0x100000000) }
    ensures { out.new ≡ placed out.old 0 (header_of job) }
{
    let count = job.count as u16;
    let size = job.size as u32;
    let image = job.image as u32;
    put16(out, 0, job.load);
    put16(out, 2, count);
    put32(out, 4, size);
    put32(out, 8, HEADER as u32);
    put32(out, 12, image);
}

// Puts the entries behind the header.
fn put_entries(out: &mut [u8], entries: &[u16])
    requires { 16 + 2 * length entries.now ≤ length out.old }
    ensures { out.new ≡ placed out.old 16 (words_of entries.now) }
{
    let mut n = HEADER;
    for &e in entries {
        put16(out, n, e);
        n += 2;
    }
}

// Writes a job to the front of the lent buffer, or leaves the buffer as it was.
pub fn write_job(
    load: u16,
    entries: &[u16],
    image: &[u8],
    out: &mut [u8],
) -> Result<usize, WriteError>
    ensures { (result ≡ written_of (job_for load entries.now image.now) (length out.old))
        × (out.new ≡ job_in (job_bytes load entries.now image.now) out.old result) }
{
    let count = entries.len();
    let job = Job {
        load,
        count,
        image: HEADER + 2 * count,
        size: image.len(),
    };
    if is_large(job) {
        return Err(WriteError::TooLarge);
    }
    let needed = job.image + job.size;
    if out.len() < needed {
        return Err(WriteError::Short(needed));
    }
    put_header(out, job);
    put_entries(out, entries);
    put_bytes(out, job.image, image);
    Ok(needed)
}
