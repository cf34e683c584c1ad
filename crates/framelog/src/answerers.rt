//! What answers the lines of a log.
ghost use Rattle.framelog.specs.Machines.{Machine, Answers, KnowsFronts};

use std::alloc::AllocError;

// Answers the lines of a log, one after the other. An answer may depend on the lines before.
pub trait Answerer: Drop {
    ghost machine: { Machine Self };

    // Appends the answer to a line. For want of memory it appends nothing, and stays as it was.
    fn answer(&mut self, out: &mut Vec<u8>, line: &[u8]) -> Result<(), AllocError>
        ensures { Answers machine self.old self.new out.old out.new line.now result };

    ghost fronts: { KnowsFronts machine };
}
