//! A desk for two parties and one request. A mutex guards the request, and on a condition variable a party waits for the
//! other one to change it.
ghost use Rattle.std.specs.Prelude.{IfOk, OnOk};
ghost use Rattle.example_time_limit.specs.Parties.{AreReady, HasLeft, IsOf, IsOut, IsReady};

use crate::request::Request;
use anyhow::bail;
use lfm_model::Refusal;
use lfm_mutex::{Mutex, Seat};
use lfm_plain_condvar::{PlainCondvar, PlainSeat, Waited};
use std::alloc::Global;
use std::sync::Wait;
use std::time::{Clock, Duration};

/// How many parties there are.
const PARTIES: u64 = 2;

/// How many takes each seat may make. A lock, a wait or a wake costs one, and a wait with a time limit may cost two. No seat
/// makes as many here.
const BUDGET: u64 = 10;

/// What the parties share.
#[derive(Drop)]
pub struct Desk {
    /// It guards the request.
    pub request: Mutex<Request>,
    /// A party waits here for the other one to change the request.
    pub changed: PlainCondvar,
}

/// The seats of a party: one of the mutex, and one of the condition variable.
#[derive(Drop)]
pub struct Party {
    pub seat: Seat<Request>,
    pub waits: PlainSeat,
}

impl Desk {
    /// A desk with an open request, and its parties.
    pub fn new(alloc: Global) -> anyhow::Result<(Desk, Vec<Party>)>
        ensures { IfOk result (λ r. AreReady r.1.items r.0) }
    {
        let (request, seats) = Mutex::new(alloc, PARTIES, BUDGET, Request::Open)?;
        let (changed, mut plain_seats) = PlainCondvar::new(alloc, PARTIES, BUDGET)?;
        let mut parties = Vec::new(alloc);
        for seat in seats {
            let Some(waits) = plain_seats.pop() else {
                bail!("a seat of the condition variable is missing");
            };
            parties.push(Party { seat, waits })?;
        }
        Ok((Desk { request, changed }, parties))
    }

    /// Waits for the other party to change the request, but at most this time. It doesn't test the request first, so it
    /// also waits if the other party has already changed it.
    pub fn wait_for_change<R: Wait + Clock>(
        &self,
        rt: &R,
        party: &mut Party,
        limit: Duration,
    ) -> Result<Waited, Refusal>
        requires { IsReady party.old self.now }
        ensures belongs { IsOf party.new self.now }
        ensures out { OnOk result (IsOut party.new) }
    {
        self.request.lock_barging(rt, &mut party.seat)?;
        let waited = self.changed.wait_for(
            rt,
            &mut party.waits,
            &self.request,
            &mut party.seat,
            limit,
        );
        // the seat holds now, also if the time was over or the wait was refused
        self.request.unlock(&mut party.seat)?;
        waited
    }

    /// Waits until the request is this one, without a limit. If it is this one already, it doesn't wait.
    pub fn wait_until_it_is<R: Wait>(
        &self,
        rt: &R,
        party: &mut Party,
        wanted: Request,
    ) -> Result<(), Refusal>
        requires { IsReady party.old self.now }
        ensures belongs { IsOf party.new self.now }
        ensures left { OnOk result (HasLeft party.new wanted) }
    {
        self.request.lock_barging(rt, &mut party.seat)?;
        let waited = self.changed.wait_while(
            rt,
            &mut party.waits,
            &self.request,
            &mut party.seat,
            move |request: &Request| *request != wanted,
        );
        self.request.unlock(&mut party.seat)?;
        waited?;
        Ok(())
    }

    /// Changes the request to this one. Then it wakes the other party, if that waits: the wake needs no hold of the mutex.
    pub fn change<R: Wait>(&self, rt: &R, party: &mut Party, next: Request) -> Result<(), Refusal>
        requires { IsReady party.old self.now }
        ensures belongs { IsOf party.new self.now }
        ensures left { OnOk result (HasLeft party.new next) }
    {
        self.request
            .with(rt, &mut party.seat, move |request| *request = next)?;
        self.changed.wake_one(rt, &mut party.waits)?;
        Ok(())
    }
}
