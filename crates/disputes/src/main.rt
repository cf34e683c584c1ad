//! An hour of two minutes, call by call: its frames are settled, a false one among them brings a
//! dispute, which a strike ends, and the next is abandoned.
#![tactic(auto)]

pub mod clients;

use clients::{abandon_now, strike_now};
use field::primes::Prime;
use frame::frames::Frame;
use frame::refusals::Refusal;
use frame::terms::Term;
use receiver::blocks::Block;
use receiver::settlements::Settlement;
use receiver::stages::Stage;
use rows::reading::Rows;
use rows::sizes::Width;
use rows::tables::Table;
use solver::scouts::Scan;
use solver::spaces::WORK_WORDS;
use std::alloc::{AllocError, Global};

type Hour = Block<Prime, Table>;

// A frame of this sum and of these weights, at the first minutes.
fn take(hour: &mut Hour, sum: u16, weights: [u16; 2]) -> Result<usize, Refusal> {
    let [first, second] = weights;
    let terms = [
        Term {
            minute: 0,
            weight: first,
        },
        Term {
            minute: 1,
            weight: second,
        },
    ];
    hour.take(&Frame::check(sum, &terms)?)
}

fn settle(hour: &mut Hour) -> Result<Settlement, Refusal> {
    let mut work = [0; WORK_WORDS];
    hour.settle(&mut Scan, &mut work)
}

fn put_number(text: &mut String, number: Option<u16>) -> Result<(), AllocError> {
    match number {
        Some(number) => write!(text, " {number}"),
        None => text.push_str(" none"),
    }
}

// The stage, with the minutes shown or the blame of the rows.
fn state_text(alloc: Global, hour: &Hour) -> Result<String, AllocError> {
    let stage = hour.stage();
    let mut text = format!(in alloc; "{stage:?}")?;
    match stage {
        Stage::Gathering => (),
        Stage::Settled => {
            for minute in 0..hour.width() {
                put_number(&mut text, hour.show(minute))?;
            }
        }
        Stage::Disputed => {
            for row in 0..hour.rows().row_count() {
                put_number(&mut text, hour.blame(row))?;
            }
        }
    }
    Ok(text)
}

fn main(rt: HostRuntime) -> anyhow::Result<()> {
    let Ok(width) = Width::try_from(2) else {
        return Ok(());
    };
    let mut hour = Block::new(0, Table::new(width));
    println!(rt; "take {:?}", take(&mut hour, 12, [1, 1]))?;
    println!(rt; "take {:?}", take(&mut hour, 17, [2, 1]))?;
    println!(rt; "settle {:?}", settle(&mut hour))?;
    println!(rt; "{}", state_text(rt.alloc(), &hour)?)?;
    println!(rt; "take {:?}", take(&mut hour, 18, [2, 1]))?;
    println!(rt; "settle {:?}", settle(&mut hour))?;
    println!(rt; "{}", state_text(rt.alloc(), &hour)?)?;
    println!(rt; "take {:?}", take(&mut hour, 12, [1, 1]))?;
    println!(rt; "strike {:?}", strike_now(&mut hour, 3))?;
    println!(rt; "strike {:?}", strike_now(&mut hour, 2))?;
    println!(rt; "settle {:?}", settle(&mut hour))?;
    println!(rt; "{}", state_text(rt.alloc(), &hour)?)?;
    println!(rt; "take {:?}", take(&mut hour, 18, [2, 1]))?;
    println!(rt; "settle {:?}", settle(&mut hour))?;
    println!(rt; "abandon {:?}", abandon_now(&mut hour))?;
    println!(rt; "{}", state_text(rt.alloc(), &hour)?)?;
    Ok(())
}
