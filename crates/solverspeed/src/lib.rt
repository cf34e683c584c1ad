//! Settles with the scan in both fields, with C's calling convention: what a benchmark links.
#![tactic(auto)]

ghost use Rattle.std.specs.Prelude.{◌≡◌, ℕ, ◌*◌, ◌<◌, ◌≤◌, min, length, take, slice_index, IfSome};
ghost use Rattle.std.specs.Option.{option_map};
ghost use Rattle.field.specs.Modulo.{modulo};
ghost use Rattle.field.specs.Octets.{octets};
ghost use Rattle.field.specs.Slices.{Filled};
ghost use Rattle.frame.specs.declared.checks.TheConstants.{MOST_TERMS};
ghost use Rattle.rows.specs.Tables.{system_of};
ghost use Rattle.solverspeed.specs.Hours.{terms_words};
ghost use Rattle.solverspeed.specs.Steps.{RowTaken, HourRead};
ghost use Rattle.solverspeed.specs.Answers.{word, Written, Says, Settled, SettledHour};

use field::fields::Field;
use field::octets::Octets;
use field::primes::Prime;
use frame::checks::MOST_TERMS;
use frame::frames::Frame;
use frame::terms::Term;
use rows::ledgers::Ledger;
use rows::reading::Rows;
use rows::sizes::Width;
use rows::tables::Table;
use solver::findings::Findings;
use solver::outcomes::{Count, Extent, Outcome};
use solver::runs::settle_by_scan;
use solver::spaces::WORK_WORDS;

// How many words of an answer go before what was found: the kind, the number of pivots, and that
// of questions.
const HEAD_WORDS: usize = 3;

// The kinds of answer, as the first word says them.
#[derive(Clone, Copy)]
enum Kind {
    // solved, with fewer pivots than minutes
    Part,
    // solved, with as many pivots as minutes
    Whole,
    Contradiction,
    Failed,
    // the words are no hour
    NoHour,
}

// The terms that words say, a minute and a weight for each, with empty terms behind them.
fn read_terms(pairs: &[u16]) -> [Term; MOST_TERMS]
    ensures { (n : ℕ) → length pairs.now ≡ 2 * n → n ≤ MOST_TERMS
        → terms_words (take n result) ≡ pairs.now }
{
    let mut terms = [Term::default(); MOST_TERMS];
    let count = terms.len().min(pairs.len() / 2);
    for k in 0..count {
        terms[k] = Term {
            minute: pairs[2 * k],
            weight: pairs[2 * k + 1],
        };
    }
    terms
}

// Takes the row that words begin with: the number of its terms, its sum, and the terms. Gives the
// words behind it; none where they begin with no row, or the table refuses it.
fn take_row<'a>(table: &mut Table, words: &'a [u16]) -> Option<&'a [u16]>
    ensures taken { RowTaken words.now (system_of table.old) (system_of table.new)
        (option_map (λ rest. rest.now) result) }
    ensures fewer { IfSome result (λ rest. length rest.now < length words.now) }
{
    let (count, words) = words.split_first()?;
    let (sum, words) = words.split_first()?;
    let count = usize::from(*count);
    if count > MOST_TERMS || words.len() < 2 * count {
        return None;
    }
    let (pairs, rest) = words.split_at(2 * count);
    let terms = read_terms(pairs);
    let frame = Frame::check(*sum, &terms[..count]).ok()?;
    table.take(&frame).ok()?;
    Some(rest)
}

// The table of an hour: the width, and then the rows.
fn read_hour(hour: &[u16]) -> Option<Table>
    ensures { HourRead hour.now (option_map system_of result) }
{
    let (width, mut rest) = hour.split_first()?;
    let width = Width::try_from(usize::from(*width)).ok()?;
    let mut table = Table::new(width);
    while !rest.is_empty() {
        rest = take_row(&mut table, rest)?;
    }
    Some(table)
}

// A number as a word; numbers of pivots and of questions fit.
fn word(number: usize) -> u16
    ensures { result ≡ word number }
{
    u16::try_from(number).unwrap_or(u16::MAX)
}

// Copies words, as many as there is room for.
fn copy(to: &mut [u16], from: &[u16])
    ensures { Filled (min (length to.old) (length from.now)) (slice_index from.now) to.old to.new }
{
    let count = to.len().min(from.len());
    to[..count].copy_from_slice(&from[..count]);
}

// Writes an answer, as far as there is room for it.
fn write_answer(answer: &mut [u16], kind: Kind, count: Count, found: &[u16])
    ensures { Written kind count found.now answer.old answer.new }
{
    let (head, tail) = answer.split_at_mut(HEAD_WORDS.min(answer.len()));
    copy(
        head,
        &[
            u16::from(kind as u8),
            word(count.pivots),
            word(count.questions),
        ],
    );
    copy(tail, found);
}

// No pivots and no questions.
const NOTHING: Count = Count {
    pivots: 0,
    questions: 0,
};

// Writes how a run on a table ended.
fn write_outcome(answer: &mut [u16], table: &Table, outcome: Outcome, findings: &Findings)
    ensures { Says (system_of table.now) outcome findings.now answer.old answer.new }
{
    match outcome {
        Outcome::Solved(count) => {
            let kind = match count.extent(0, table.width()) {
                Extent::Whole => Kind::Whole,
                Extent::Part => Kind::Part,
            };
            write_answer(answer, kind, count, &findings.minutes[..table.width()]);
        }
        Outcome::Contradiction(count) => {
            let blame = &findings.blame[..table.row_count()];
            write_answer(answer, Kind::Contradiction, count, blame);
        }
        Outcome::Failed(_) => write_answer(answer, Kind::Failed, NOTHING, &[]),
    }
}

// Settles a table and writes how that ended.
fn settle_table<F: Field>(answer: &mut [u16], table: &Table)
    ensures { Settled F.ops (system_of table.now) answer.old answer.new }
{
    let mut findings = Findings::new();
    let mut work = [0; WORK_WORDS];
    match settle_by_scan::<F, Table>(table, &mut work, &mut findings) {
        Ok(outcome) => write_outcome(answer, table, outcome, &findings),
        // Of a shorter work space only.
        Err(_) => write_answer(answer, Kind::Failed, NOTHING, &[]),
    }
}

// Writes how the settle of an hour ends.
fn settle_hour<F: Field>(hour: &[u16], answer: &mut [u16])
    ensures { SettledHour F.ops hour.now answer.old answer.new }
{
    match read_hour(hour) {
        Some(table) => settle_table::<F>(answer, &table),
        None => write_answer(answer, Kind::NoHour, NOTHING, &[]),
    }
}

/// Settles an hour in words by the scan, modulo 65521, and writes how that ended. An hour is the
/// number of its minutes, and for each frame the number of its terms, its sum, and a minute and a
/// weight for each term. An answer is its kind (0 solved in part, 1 whole, 2 a contradiction, 4 no
/// hour; 3 would be a failed run), the numbers of pivots and of questions, and then the minutes or
/// the blame, as far as there is room.
#[unsafe(no_mangle)]
pub extern "C" fn prime_settle(hour: &[u16], answer: &mut [u16])
    ensures { SettledHour (modulo 65521) hour.now answer.old answer.new }
{
    settle_hour::<Prime>(hour, answer);
}

/// The same in the octets.
#[unsafe(no_mangle)]
pub extern "C" fn octets_settle(hour: &[u16], answer: &mut [u16])
    ensures { SettledHour octets hour.now answer.old answer.new }
{
    settle_hour::<Octets>(hour, answer);
}
