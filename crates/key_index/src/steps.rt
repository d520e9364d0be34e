//! A count that contracts alone read.
ghost use Rattle.std.specs.Prelude.{◌≡◌, ◌<◌, ◌+◌};

use std::marker::Model;
use std::sync::ledger::{Blank, Book, Ledger, Share};

/// How many steps were made. It has no bytes.
#[derive(Drop)]
pub struct Steps<L: Ledger> {
    all: Book<L>,
    own: Share<L>,
}

impl<L: Ledger> Model for Steps<L> {
    ghost use Rattle.std.specs.Prelude.{ℕ, ◌<◌};

    ghost Value = { ℕ };

    ghost view = { λ s. s.all.total };

    ghost invariant = { λ s. 0 < s.own.parts };
}

impl<L: Ledger> Steps<L> {
    /// None yet, in the ledger of this blank.
    pub fn new(blank: Blank) -> Steps<L>
        requires name { blank.name ≡ L.name }
        requires parts { blank.parts ≡ L.parts }
        requires some { 0 < blank.parts }
        ensures { result ≡ 0 }
    {
        let (all, own) = blank.open::<L>();
        Steps { all, own }
    }

    /// One more.
    pub fn tick(&mut self)
        ensures { self.new ≡ self.old + 1 }
    {
        self.all.add(&mut self.own, 1);
    }
}
