//! Answers the logs in the files that are named as arguments, one after the other, as program profile answers one on standard
//! input. A line with the file's name stands before each.
#![tactic(auto)]

use framelog::logs::answer_log;
use profilelog::ends::final_report;
use profilelog::sessions::Session;
use std::{env, fs, io};

fn main(rt: HostRuntime) -> io::Result<()> {
    for path in env::args(&rt)?.skip(1) {
        let log = fs::read(&rt, path.as_str())?;
        let mut text = Vec::new(rt.alloc());
        let session = answer_log(Session::new(), &mut text, &log)?;
        let report = final_report(rt.alloc(), &session)?;
        println!(rt; "{path}")?;
        rt.stdout().write_all(&text)?;
        rt.stdout().write_all(report.as_bytes())?;
    }
    Ok(())
}
