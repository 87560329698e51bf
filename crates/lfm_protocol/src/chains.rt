//! A walk along the link words of queued seats, newest first. It only reads.
ghost use Rattle.std.specs.Prelude.{◌≡◌, ◌≤◌, drop, length};
ghost use Rattle.lfm_protocol.specs.Limits.{max_seats};
ghost use Rattle.lfm_protocol.specs.Queue.{chain};
ghost use Rattle.lfm_protocol.specs.Seats.{link};
ghost use Rattle.lfm_words.specs.Popped.{oldest};

use lfm_model::SeatNo;
use lfm_words::{Link, Record};
use std::marker::Model;

/// A walk along the links. It ends at a number that no seat has, or after one record for each seat. A contract sees the records
/// that are left, the next one first.
#[derive(Drop)]
pub(crate) struct Chain<'a> {
    links: &'a [Link],
    at: u64,
    left: usize,
}

impl<'a> Model for Chain<'a> {
    ghost use Rattle.std.specs.Prelude.{List, ◌≤◌, length};
    ghost use Rattle.lfm_protocol.specs.Limits.{max_seats};
    ghost use Rattle.lfm_protocol.specs.Queue.{chain_of};
    ghost use Rattle.lfm_words.specs.declared.pop_lists.Record.{Record};

    ghost Value = { List Record };

    ghost view = { λ c. chain_of c.left c.links.now c.at };

    ghost invariant = { λ c. length c.links.now ≤ max_seats };
}

impl<'a> Chain<'a> {
    /// A walk that starts at this seat; it is empty if the seat is 0.
    pub(crate) fn new(links: &'a [Link], from: u64) -> Chain<'a>
        requires { length links.now ≤ max_seats }
        ensures { result ≡ chain links.now from }
    {
        Chain {
            links,
            at: from,
            left: links.len(),
        }
    }

    /// Returns the next record, one older than the record before, and moves past it. None at the end.
    pub(crate) fn next(&mut self) -> Option<Record>
        ensures record { result ≡ oldest self.old }
        ensures left { self.new ≡ drop 1 self.old }
    {
        if self.left == 0 || self.at == 0 || self.at > self.links.len() as u64 {
            self.left = 0;
            return None;
        }
        let link = self.links[(self.at - 1) as usize];
        let record = Record {
            seat: SeatNo::known(self.at),
            stamp: link.stamp,
        };
        self.at = link.next;
        self.left -= 1;
        Some(record)
    }
}
