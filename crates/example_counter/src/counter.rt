//! A number that counts what was added to it.
ghost use Rattle.std.specs.Prelude.{◌≡◌, ℕ, ◌+◌, ◌%◌, ◌^◌, ◌<◌};

use lfm_mutex::Kept;
use std::sync::ledger::{Book, Ledger, Share};

/// A number, and the book of a ledger, which has the sum of all that was added to it.
#[derive(Drop)]
pub struct Counter<L: Ledger> {
    number: u64,
    book: Book<L>,
    pub ghost counted: { number ≡ book.total % 2 ^ 64 },
}

impl<L: Ledger> Counter<L> {
    /// A counter at 0, with an empty book.
    pub fn new(book: Book<L>) -> Counter<L>
        requires { book.total ≡ 0 }
    {
        Counter { number: 0, book }
    }

    /// Adds 1, and returns the share, which has added 1 more.
    pub fn add(&mut self, mut share: Share<L>) -> Share<L>
        requires { 0 < share.parts }
        ensures amount { result.amount ≡ share.amount + 1 }
        ensures parts { result.parts ≡ share.parts }
    {
        self.book.add(&mut share, 1);
        self.number = self.number.wrapping_add(1);
        share
    }

    /// The number: the sum of what all shares of the ledger have added.
    pub fn total(mut self, mut all: Share<L>) -> u64
        requires { all.parts ≡ L.parts }
        ensures { result ≡ all.amount % 2 ^ 64 }
    {
        self.book.audit(&mut all);
        self.number
    }
}

/// A thread may leave any counter, since the book says how the number has changed.
impl<L: Ledger> Kept for Counter<L> {
    ghost fits = { λ _ _. Unit {0} };

    ghost follows = { λ _ _ _. Unit {0} };
}
