//! The slip of a dispute.
ghost use Rattle.std.specs.Prelude.{◌≡◌, IfErr};
ghost use Rattle.frame.specs.Refusals.{numbered};
ghost use Rattle.receiver.specs.Slips.{slip_name, IsSpent, unspent_numbered};

use frame::refusals::Refusal;

/// The slip of a dispute: who holds it may strike a row, return it, or abandon the hour, and has to
/// do one of these, once. It bears its block's name.
// Only this crate spends a slip, and its drop demands that it was spent.
pub struct Slip {
    name: u16,
    spent: bool,
}

impl Drop for Slip {
    fn drop(self)
        requires { IsSpent self }
    {
        let Slip { name: _, spent: _ } = self;
    }
}

/// A refusal that hands the slip back, unspent.
#[derive(Drop)]
pub struct Unspent {
    /// why the call was refused
    pub refusal: Refusal,
    /// the slip that came in
    pub slip: Slip,
}

impl Slip {
    /// The name of its block.
    pub fn name(&self) -> u16
        ensures { result ≡ slip_name self.now }
    {
        self.name
    }

    // A slip that bears a name.
    pub(crate) fn new(name: u16) -> Slip
        ensures name { slip_name result ≡ name }
        ensures unspent { ¬ IsSpent result }
    {
        Slip { name, spent: false }
    }

    // Spends the slip where a call is accepted, and hands it back where it is refused.
    pub(crate) fn spend_on(self, answer: Result<(), Refusal>) -> Result<(), Unspent>
        ensures answer { unspent_numbered result ≡ numbered answer }
        ensures slip { IfErr result (λ unspent. unspent.slip ≡ self) }
    {
        let mut slip = self;
        match answer {
            Ok(()) => {
                slip.spent = true;
                Ok(())
            }
            Err(refusal) => Err(Unspent { refusal, slip }),
        }
    }
}
