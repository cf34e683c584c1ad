//! The report on rows.
ghost use Rattle.std.specs.Prelude.{◌≡◌, ◌≤◌, IfOk, take};
ghost use Rattle.std.specs.String.{string_bytes};
ghost use Rattle.notes.specs.Layers.{codes_in, system_below};
ghost use Rattle.reports.specs.Reports.{shown, ScanSettles, report_text, Reports, ReportsNoted};
ghost use Rattle.solver.specs.Profiling.{profile_of};

use crate::numbers::Numbers;
use crate::outcomes::OutcomeText;
use field::fields::Field;
use notes::layers::Noted;
use rows::reading::Rows;
use rows::sizes::MOST_ROWS;
use solver::findings::Findings;
use solver::outcomes::Outcome;
use solver::profiles::profile;
use solver::runs::settle_by_scan;
use solver::spaces::WORK_WORDS;
use std::alloc::{AllocError, Global};
use std::fmt;

/// A report: the row rank profile, and how the rows settle.
#[derive(Clone, Copy)]
pub struct Report<'a> {
    pub profile: &'a [u16],
    pub settle: OutcomeText<'a>,
}

/// Each in a line of its own.
impl fmt::Display for Report<'_> {
    ghost use Rattle.std.specs.Prelude.{Some};
    ghost use Rattle.reports.specs.Reports.{lines_text};

    ghost output = { λ report. let settle = report.settle in
        let rows = report.profile.now in
        Some (lines_text rows settle.outcome settle.noted settle.width settle.codes.now) };

    fn fmt<W: fmt::Write>(&self, f: &mut fmt::Formatter<W>) -> fmt::Result {
        let count = self.profile.len();
        let rows = Numbers {
            numbers: self.profile,
        };
        let settle = self.settle;
        write!(f, "profile,{count}{rows}\n{settle}\n")
    }
}

// The codes that are reported of a run of these rows.
fn shown<'a, R: Rows>(outcome: Outcome, rows: &R, findings: &'a Findings) -> &'a [u16]
    ensures { result.now
        ≡ shown outcome (R.system rows.now) findings.now.minutes findings.now.blame }
{
    match outcome {
        Outcome::Solved(_) => &findings.minutes[..rows.width()],
        Outcome::Contradiction(_) => &findings.blame[..rows.row_count()],
        Outcome::Failed(_) => &[],
    }
}

// How many rows are in the row rank profile, which stands at the head of the list.
fn profiled<F: Field, R: Rows>(
    rows: &R,
    work: &mut [u16; WORK_WORDS],
    list: &mut [u16; MOST_ROWS],
) -> usize
    ensures few { result ≤ MOST_ROWS }
    ensures profile { take result list.new ≡ profile_of F.ops (R.system rows.now) }
{
    // The work space and the list are long enough, so this does not refuse.
    profile::<F, R>(rows, work, list).unwrap()
}

// How the rows settle by the scan, and what the run has found.
fn settled<F: Field, R: Rows>(rows: &R, work: &mut [u16; WORK_WORDS]) -> (Outcome, Findings)
    ensures { ScanSettles F.ops (R.system rows.now) result.0 result.1 }
{
    let mut findings = Findings::new();
    // The work space is long enough, so this does not refuse.
    let outcome = settle_by_scan::<F, R>(rows, work, &mut findings).unwrap();
    (outcome, findings)
}

// The text of a report on rows that settled so, with so many noted minutes.
fn text_of<F: Field, R: Rows>(
    heap: Global,
    rows: &R,
    noted: usize,
    outcome: Outcome,
    findings: &Findings,
) -> Result<String, AllocError>
    ensures { let f = findings.now in
        let text = report_text F.ops (R.system rows.now) outcome noted f.minutes f.blame in
        IfOk result (λ string. string_bytes string ≡ text) }
{
    let mut work = [0; WORK_WORDS];
    let mut list = [0; MOST_ROWS];
    let count = profiled::<F, R>(rows, &mut work, &mut list);
    let settle = OutcomeText {
        outcome,
        noted,
        width: rows.width(),
        codes: shown(outcome, rows, findings),
    };
    let report = Report {
        profile: &list[..count],
        settle,
    };
    report.to_string(heap)
}

/// A line with the row rank profile and a line with how the rows settle by the scan. Of rows under
/// notes `report_noted` tells more: here no minute counts as noted. Fails for want of memory alone.
pub fn report_on<F: Field, R: Rows>(heap: Global, rows: &R) -> Result<String, AllocError>
    ensures { IfOk result (λ text. Reports F.ops (R.system rows.now) (string_bytes text)) }
{
    let mut work = [0; WORK_WORDS];
    let (outcome, findings) = settled::<F, R>(rows, &mut work);
    text_of::<F, R>(heap, rows, 0, outcome, &findings)
}

/// The same of rows under notes: noted minutes count towards a whole hour, and a noted minute is
/// reported with its code.
pub fn report_noted<F: Field, R: Rows>(
    heap: Global,
    noted: &Noted<F, R>,
) -> Result<String, AllocError>
    ensures { let codes = codes_in noted.now in
        let S = system_below noted.now in
        IfOk result (λ text. ReportsNoted F.ops codes S (string_bytes text)) }
{
    let mut work = [0; WORK_WORDS];
    let (outcome, mut findings) = settled::<F, Noted<F, R>>(noted, &mut work);
    noted.put_in(&mut findings.minutes);
    text_of::<F, Noted<F, R>>(heap, noted, noted.noted_count(), outcome, &findings)
}
