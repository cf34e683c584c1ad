//! The check of a log of frames.
ghost use Rattle.framelog.specs.Checks.{frame_machine, knows_fronts};

use super::answerers::Answerer;
use lines::answers::answer;
use std::alloc::AllocError;

// Answers each line by itself: a frame's line comes out again, any other with its refusal.
#[derive(Clone, Copy)]
pub struct FrameCheck;

impl Answerer for FrameCheck {
    ghost machine = { frame_machine };

    ghost fronts = { knows_fronts };

    fn answer(&mut self, out: &mut Vec<u8>, line: &[u8]) -> Result<(), AllocError> {
        answer(out, line)
    }
}
