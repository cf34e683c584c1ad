//! Answers each line of a log on standard input that opens an hour and fills it with frames, and then reports which of the
//! frames carried something new and how the hour settles.
#![tactic(auto)]

use framelog::streams::answer_input;
use profilelog::ends::final_report;
use profilelog::sessions::Session;
use std::io;

fn main(rt: HostRuntime) -> io::Result<()> {
    let session = answer_input(&rt, Session::new())?;
    let report = final_report(rt.alloc(), &session)?;
    rt.stdout().write_all(report.as_bytes())
}
