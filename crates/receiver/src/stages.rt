//! The stages of a block.
ghost use Rattle.std.specs.Prelude.{◌≡◌, not, IfOk};
ghost use Rattle.frame.specs.Refusals.{refusal_only};
ghost use Rattle.frame.specs.Orders.{refuse, when};
ghost use Rattle.receiver.specs.declared.stages.State.TheVariants.{Disputed};
ghost use Rattle.receiver.specs.Stages.{stage_case, state_case};
ghost use Rattle.receiver.specs.Stages.{shown_in, blamed_in, slip_due};

use frame::refusals::Refusal;
use rows::sizes::{MOST_MINUTES, MOST_ROWS};

/// Where a block stands.
#[derive(Clone, Copy, PartialEq, Eq, Debug)]
pub enum Stage {
    /// it takes readings and frames, and shows nothing
    Gathering,
    /// it shows the minutes that a settle found
    Settled,
    /// no minutes fit its frames and readings
    Disputed,
}

// A dispute: u for each row, and whether the one slip is out.
#[derive(Clone, Copy)]
pub(crate) struct Dispute {
    pub(crate) blame: [u16; MOST_ROWS],
    pub(crate) slip_out: bool,
}

// A stage with what the last settle found.
#[derive(Clone, Copy)]
pub(crate) enum State {
    Gathering,
    // the minutes, the noted ones among them
    Settled([u16; MOST_MINUTES]),
    Disputed(Dispute),
}

impl State {
    // The stage alone.
    pub(crate) fn stage(&self) -> Stage
        ensures { stage_case result ≡ state_case self.now }
    {
        match self {
            State::Gathering => Stage::Gathering,
            State::Settled(_) => Stage::Settled,
            State::Disputed(_) => Stage::Disputed,
        }
    }

    // What is shown at a minute of an hour of `width` minutes.
    pub(crate) fn shown(&self, minute: usize, width: usize) -> Option<u16>
        ensures { result ≡ shown_in self.now width minute }
    {
        match self {
            State::Settled(minutes) if minute < width => minutes.get(minute).copied(),
            _ => None,
        }
    }

    // The dispute, where its slip is not out. Refuses without one (7).
    pub(crate) fn dispute_to_slip(&self) -> Result<Dispute, Refusal>
        ensures answer { refusal_only result ≡ refuse 7 (when (not (slip_due self.now))) (Ok tt) }
        ensures dispute { IfOk result (λ dispute. self.now ≡ Disputed dispute) }
    {
        match self {
            State::Disputed(dispute) if !dispute.slip_out => Ok(*dispute),
            _ => Err(Refusal::NoSlipToGive),
        }
    }

    // The blame of a row of `rows` rows.
    pub(crate) fn blamed(&self, row: usize, rows: usize) -> Option<u16>
        ensures { result ≡ blamed_in self.now rows row }
    {
        match self {
            State::Disputed(dispute) if row < rows => dispute.blame.get(row).copied(),
            _ => None,
        }
    }
}
