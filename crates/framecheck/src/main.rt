//! Answers each line of a log of frames on standard input: the frame's line again, or its refusal.
#![tactic(auto)]

use framelog::checks::FrameCheck;
use framelog::streams::answer_input;
use std::io;

fn main(rt: HostRuntime) -> io::Result<()> {
    answer_input(&rt, FrameCheck)?;
    Ok(())
}
