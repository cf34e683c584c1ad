//! A cap over a ledger.
ghost use Rattle.std.specs.Prelude.{◌≡◌};
ghost use Rattle.frame.specs.Refusals.{numbered};
ghost use Rattle.frame.specs.Orders.{KeepsOrder};
ghost use Rattle.frame.specs.Parts.{terms_of};
ghost use Rattle.rows.specs.Ledgers.{row_of, take_answer, take_order, after_take};
ghost use Rattle.rows.specs.Sizes.{size_number};
ghost use Rattle.rows.specs.Caps.{own_number, ledger_below, cap_system, cap_limit, cap_limits};
ghost use Rattle.rows.specs.Caps.{two_caps_system, two_caps_limit, two_caps_limits};
ghost use Rattle.rows.specs.Caps.{NestedCapsLaw};

use crate::ledgers::{Ledger, admit};
use crate::reading::Rows;
use crate::sizes::{Limit, MOST_ROWS};
use frame::frames::Frame;
use frame::refusals::Refusal;
use frame::terms::Term;

/// A cap: a ledger over another one, which takes no more rows than its own number.
#[derive(Drop)]
pub struct Cap<L> {
    own: Limit,
    below: L,
}

impl<L> Cap<L> {
    /// A cap of this number, 1 to 96, over a ledger, whose rows stay.
    pub fn new(own: Limit, below: L) -> Cap<L>
        ensures own { own_number result ≡ size_number MOST_ROWS own }
        ensures below { ledger_below result ≡ below }
    {
        Cap { own, below }
    }

    /// The ledger below, for reading.
    pub fn below(&self) -> &L
        ensures { result.now ≡ ledger_below self.now }
    {
        &self.below
    }

    /// The ledger below; the cap is gone.
    pub fn into_below(self) -> L
        ensures { result ≡ ledger_below self }
    {
        self.below
    }
}

impl<L: Ledger> Rows for Cap<L> {
    ghost system = { cap_system L.system };

    ghost formed = { λ cap. L.formed cap.below };

    fn width(&self) -> usize {
        self.below.width()
    }

    fn row_count(&self) -> usize {
        self.below.row_count()
    }

    fn term_count(&self, row: usize) -> Option<usize> {
        self.below.term_count(row)
    }

    fn term(&self, row: usize, number: usize) -> Option<Term> {
        self.below.term(row, number)
    }

    fn sum(&self, row: usize) -> Option<u16> {
        self.below.sum(row)
    }
}

impl<L: Ledger> Ledger for Cap<L> {
    ghost use Rattle.std.specs.Prelude.{min};
    ghost use Rattle.std.proofs.Common.{ap};
    ghost use Rattle.rows.specs.Lemmas.Limits.{smaller_limit};

    ghost most = { cap_limit L.most };

    ghost limits = { cap_limits L.limits };

    ghost limited = { λ cap.
        smaller_limit cap.own.number (L.most cap.below) cap.own.some (L.limited cap.below) };

    ghost limit_is_smallest = { λ cap.
        ap (min cap.own.number) (L.limit_is_smallest cap.below) };

    fn limit(&self) -> usize {
        self.own.number().min(self.below.limit())
    }

    fn take(&mut self, frame: &Frame<'_>) -> Result<usize, Refusal> {
        // The ledger below looks at the terms, so that they are looked at once, however many caps
        // there are.
        if self.row_count() < self.own.number() {
            return self.below.take(frame);
        }
        // The cap is full: `admit` refuses, a minute beyond the width first.
        admit(frame, self.width(), self.row_count(), self.own.number())
    }

    fn strike(&mut self, row: usize) -> Result<(), Refusal> {
        self.below.strike(row)
    }

    fn clear(&mut self) {
        self.below.clear();
    }
}

/// Takes a frame into a ledger under two caps, as every ledger takes one: the smallest of the three
/// limits counts. Returns the row's number; refuses as `take` does (2, then 5).
pub fn take_under_caps<L: Ledger>(
    caps: &mut Cap<Cap<L>>,
    frame: &Frame<'_>,
) -> Result<usize, Refusal>
    ensures answer { let before = two_caps_system L.system caps.old in
        let limit = two_caps_limit L.most caps.old in
        numbered result ≡ take_answer before limit (row_of frame.now) }
    ensures order { let before = two_caps_system L.system caps.old in
        let limit = two_caps_limit L.most caps.old in
        KeepsOrder (take_order before limit (terms_of frame.now)) (numbered result) }
    ensures after { two_caps_system L.system caps.new
        ≡ after_take result (two_caps_system L.system caps.old) (row_of frame.now) }
    ensures kept { two_caps_limit L.most caps.new ≡ two_caps_limit L.most caps.old }
    ensures limits { two_caps_limits L.limits caps.new ≡ two_caps_limits L.limits caps.old }
{
    caps.take(frame)
}

/// A law: however many caps stand over a ledger, they mean what it means, and the smallest limit
/// counts. The call does nothing.
pub fn nested_caps_mean_their_base<L: Ledger>()
    ensures { NestedCapsLaw L.system L.most }
{}
