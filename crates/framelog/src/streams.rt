//! Standard input as a log, and standard output.

use super::answerers::Answerer;
use super::logs::Log;
use std::io;
use std::io::Read;

// How many bytes of the input are read at once, at most.
const CHUNK: usize = 65536;

// Answers all lines of standard input on standard output, and gives back what answered.
pub fn answer_input<A: Answerer>(rt: &HostRuntime, answerer: A) -> io::Result<A> {
    let mut input = rt.stdin();
    let output = rt.stdout();
    // Lent to `read`, which says how much of it is new.
    let mut chunk = [0; CHUNK];
    let mut log = Log::new(answerer);
    let mut text = Vec::new(rt.alloc());
    // The bound is for the proof that the loop ends: no input is that long.
    for _ in 0..u64::MAX {
        let count = input.read(&mut chunk)?;
        if count == 0 {
            break;
        }
        log.feed(&mut text, &chunk[..count])?;
        output.write_all(&text)?;
        text.clear();
    }
    log.finish(&mut text)?;
    output.write_all(&text)?;
    Ok(log.into_answerer())
}
