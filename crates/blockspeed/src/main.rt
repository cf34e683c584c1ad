//! A settle of a full hour through a block, with 0, 8 and 32 minutes noted, beside one of the bare
//! table: how each ended, and with an argument, how many nanoseconds it took, by so many settles.
#![tactic(auto)]

use field::fields::Field;
use field::octets::Octets;
use field::primes::Prime;
use frame::frames::Frame;
use frame::refusals::Refusal;
use frame::terms::Term;
use receiver::blocks::Block;
use rows::ledgers::Ledger;
use rows::sizes::{MOST_MINUTES, MOST_ROWS, Width};
use rows::tables::Table;
use solver::findings::Findings;
use solver::outcomes::Outcome;
use solver::runs::settle;
use solver::scouts::Scan;
use solver::spaces::WORK_WORDS;
use std::rt::Runtime;
use std::time::Instant;
use std::{env, io};

// How many minutes are noted in turn.
const NOTED: [usize; 3] = [0, 8, 32];

// A generator of 32 bits, whose upper half is a word.
#[derive(Drop)]
struct Words {
    state: u32,
}

impl Words {
    fn next(&mut self) -> u16 {
        self.state = self.state.wrapping_mul(1664525).wrapping_add(1013904223);
        (self.state >> 16) as u16
    }

    // A code that is not 0.
    fn weight<F: Field>(&mut self) -> u16 {
        match self.next() % F::Q {
            0 => 1,
            code => code,
        }
    }
}

// A code for each minute.
fn minutes<F: Field>(words: &mut Words) -> [u16; MOST_MINUTES] {
    let mut minutes = [0; MOST_MINUTES];
    for minute in &mut minutes {
        *minute = words.next() % F::Q;
    }
    minutes
}

// Sixteen terms, one in each four minutes.
fn terms<F: Field>(words: &mut Words) -> [Term; 16] {
    let mut terms = [Term::default(); 16];
    let mut first = 0;
    for term in &mut terms {
        *term = Term {
            minute: first | words.next() % 4,
            weight: words.weight::<F>(),
        };
        first = first.wrapping_add(4);
    }
    terms
}

// What the terms add up to at these minutes.
fn sum<F: Field>(terms: &[Term], minutes: &[u16]) -> u16 {
    let mut sum = 0;
    for term in terms {
        let minute = minutes.get(usize::from(term.minute)).copied();
        sum = F::plus(sum, F::times(term.weight, minute.unwrap_or(0)));
    }
    sum
}

// A sum and its sixteen terms.
#[derive(Clone, Copy, Default)]
struct Sixteen {
    sum: u16,
    terms: [Term; 16],
}

impl Sixteen {
    fn frame(&self) -> Result<Frame<'_>, Refusal> {
        Frame::check(self.sum, &self.terms)
    }
}

// An hour: a code for each minute, and frames that they satisfy.
#[derive(Drop)]
struct Hour {
    minutes: [u16; MOST_MINUTES],
    frames: [Sixteen; MOST_ROWS],
}

impl Hour {
    fn new<F: Field>(words: &mut Words) -> Hour {
        let minutes = minutes::<F>(words);
        let mut frames = [Sixteen::default(); MOST_ROWS];
        for frame in &mut frames {
            let terms = terms::<F>(words);
            let sum = sum::<F>(&terms, &minutes);
            *frame = Sixteen { sum, terms };
        }
        Hour { minutes, frames }
    }

    // The frames in a bare table.
    fn table(&self) -> Result<Table, Refusal> {
        let mut table = Table::new(Width::try_from(MOST_MINUTES)?);
        for sixteen in &self.frames {
            table.take(&sixteen.frame()?)?;
        }
        Ok(table)
    }

    // The frames in a block, with the first minutes noted.
    fn block<F: Field>(&self, noted: usize) -> Result<Block<F, Table>, Refusal> {
        let mut block = Block::new(0, Table::new(Width::try_from(MOST_MINUTES)?));
        for sixteen in &self.frames {
            block.take(&sixteen.frame()?)?;
        }
        for (minute, code) in self.minutes.iter().enumerate().take(noted) {
            block.note(minute, *code)?;
        }
        Ok(block)
    }
}

// A refusal, of which there is none here, as an error of the program.
fn refused(_refusal: Refusal) -> io::Error {
    io::Error::from(io::ErrorKind::InvalidData)
}

// How a settle of the bare table ends.
fn settle_table<F: Field>(table: &Table, work: &mut [u16]) -> Result<Outcome, Refusal> {
    settle::<F, Table, Scan>(table, &mut Scan, work, &mut Findings::new())
}

// The nanoseconds of one settle of the bare table, by so many.
fn time_table<F: Field>(rt: &impl Runtime, table: &Table, times: u32) -> io::Result<u128> {
    let mut work = [0; WORK_WORDS];
    let start = Instant::now(rt)?;
    for _ in 0..times {
        settle_table::<F>(table, &mut work).map_err(refused)?;
    }
    Ok(start.elapsed(rt)?.as_nanos() / u128::from(times.max(1)))
}

// The same through a block.
fn time_block<F: Field>(
    rt: &impl Runtime,
    block: &mut Block<F, Table>,
    times: u32,
) -> io::Result<u128> {
    let mut work = [0; WORK_WORDS];
    let start = Instant::now(rt)?;
    for _ in 0..times {
        block.settle(&mut Scan, &mut work).map_err(refused)?;
    }
    Ok(start.elapsed(rt)?.as_nanos() / u128::from(times.max(1)))
}

// Both, in one field: how they end where no number of settles is given, and else their times.
fn report<F: Field>(rt: &impl Runtime, field: &str, times: Option<u32>) -> io::Result<()> {
    let hour = Hour::new::<F>(&mut Words { state: 1 });
    let mut work = [0; WORK_WORDS];
    let table = hour.table().map_err(refused)?;
    match times {
        Some(times) => println!(rt; "{field} table {}", time_table::<F>(rt, &table, times)?)?,
        None => println!(rt; "{field} table {:?}", settle_table::<F>(&table, &mut work))?,
    }
    for noted in NOTED {
        let mut block = hour.block::<F>(noted).map_err(refused)?;
        match times {
            Some(times) => {
                let time = time_block(rt, &mut block, times)?;
                println!(rt; "{field} {noted} noted {time}")?;
            }
            None => println!(rt;
                "{field} {noted} noted {:?}",
                block.settle(&mut Scan, &mut work)
            )?,
        }
    }
    Ok(())
}

fn main(rt: HostRuntime) -> io::Result<()> {
    println!(rt; "{} bytes", size_of::<Block<Prime, Table>>())?;
    let times = match env::args(&rt)?.nth(1) {
        Some(times) => times.parse().ok(),
        None => None,
    };
    report::<Prime>(&rt, "primes", times)?;
    report::<Octets>(&rt, "octets", times)
}
