// The listing program: a facts line and a frame on standard input, its listing on standard output.
#![tactic(auto)]

use std::io;
use std::io::Write;

fn main(rt: HostRuntime) -> io::Result<()> {
    // 32,768 bytes of a frame, and a facts line, which has at most 34 where its facts are within bounds. More input changes nothing of the text:
    // this and the length below are proved enough in crates/theorems/proofs/Arrays.antt.
    let mut input = [0u8; 32802];
    let n = input::read_full(&mut rt.stdin(), &mut input)?;
    // 1,026 lines of at most 79 bytes
    let mut out = [0u8; 81054];
    if let Ok(length) = listing_job::list_frame(&input[..n], &mut out) {
        rt.stdout().write_all(&out[..length])?;
    }
    Ok(())
}
