//! A log: chunks in, answers out.
ghost use Rattle.std.specs.Prelude.{◌≡◌, []};
ghost use Rattle.lines.specs.Fields.{Whole};
ghost use Rattle.framelog.specs.Lines.{Holds, Ends, Feeds, Finishes, AnswersAll};

use super::answerers::Answerer;
use super::buffers::LineBuffer;
use super::parts::{Part, Parts};
use std::alloc::AllocError;

// A log under way: the line that has not ended yet, and what answers its lines.
#[derive(Drop)]
pub struct Log<A> {
    line: LineBuffer,
    answerer: A,
}

impl<A: Answerer> Log<A> {
    // A log at its start.
    pub fn new(answerer: A) -> Log<A>
        ensures { Holds A.machine answerer result [] }
    {
        Log {
            line: LineBuffer::new(),
            answerer,
        }
    }

    // Takes the last part of a line and its end, and appends the line's answer.
    fn end_line(&mut self, out: &mut Vec<u8>, part: &[u8]) -> Result<(), AllocError>
        requires { Whole 10 part.now }
        ensures { Ends A.machine self.old self.new out.old out.new part.now result }
    {
        self.line.extend(part);
        self.answerer.answer(out, self.line.text())?;
        self.line.clear();
        Ok(())
    }

    // Takes the next chunk of the log, and appends the answers to the lines that end in it.
    pub fn feed(&mut self, out: &mut Vec<u8>, chunk: &[u8]) -> Result<(), AllocError>
        ensures { Feeds A.machine self.old self.new out.old out.new chunk.now result }
    {
        for part in Parts::new(chunk) {
            match part {
                Part::Ended(last) => self.end_line(out, last)?,
                Part::Open(part) => self.line.extend(part),
            }
        }
        Ok(())
    }

    // Appends the answer to a last line that lacks its end, unless it is empty. The line stays as it was; for want of memory
    // nothing is appended, and all of the log stays so.
    pub fn finish(&mut self, out: &mut Vec<u8>) -> Result<(), AllocError>
        ensures { Finishes A.machine self.old self.new out.old out.new result }
    {
        let line = self.line.text();
        if !line.is_empty() {
            self.answerer.answer(out, line)?;
        }
        Ok(())
    }

    // Gives back what answered.
    pub fn into_answerer(self) -> A
        ensures { result ≡ self.answerer }
    {
        self.answerer
    }
}

// Appends the answers to all lines of a log, and gives back what answered.
pub fn answer_log<A: Answerer>(
    answerer: A,
    out: &mut Vec<u8>,
    bytes: &[u8],
) -> Result<A, AllocError>
    ensures { AnswersAll A.machine answerer out.old out.new bytes.now result }
{
    let mut log = Log::new(answerer);
    log.feed(out, bytes)?;
    log.finish(out)?;
    Ok(log.into_answerer())
}
