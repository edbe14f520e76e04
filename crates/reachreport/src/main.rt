//! Reads a job from standard input to its end, and writes its report to standard output.

#![tactic(auto)]

use reading::read_full;
use std::io;

fn main(rt: HostRuntime) -> io::Result<()> {
    // One byte more than the longest job has, so that a longer input is seen to be too long.
    let mut bytes = [0u8; 51217];
    let n = read_full(&mut rt.reader(), &mut bytes)?;
    let mut out = [0u8; report::MOST_TEXT];
    match report::report(&bytes[..n], &mut out) {
        Ok(m) => rt.write_all(&out[..m]),
        // Not met: no report is longer.
        Err(_) => Ok(()),
    }
}
