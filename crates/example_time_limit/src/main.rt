//! A client waits for the reply to its request for at most 10 milliseconds. The server replies only once it is reminded, so
//! this wait times out. Then the client reminds the server, and waits for the reply without a limit. A mutex guards the
//! request, and both threads wait on one condition variable, without a monitor. It is proved that the request that is
//! printed is answered.
#![tactic(auto)]

ghost use Rattle.std.specs.Prelude.{◌≡◌, IfOk};
ghost use Rattle.example_time_limit.specs.Parties.{IsDone, IsReady};

mod desk;
mod request;

use crate::desk::{Desk, Party};
use crate::request::Request;
use anyhow::bail;
use lfm_model::Refusal;
use lfm_plain_condvar::Waited;
use lfm_threads::share;
use std::alloc::Global;
use std::sync::Wait;
use std::thread::Threads;
use std::time::{Clock, Duration};

/// The number of the client's seat. The server has the other seat.
const CLIENT: u64 = 1;

/// How long the client waits before it reminds the server, in milliseconds.
const LIMIT: u64 = 10;

/// What the client does: it reminds the server, if the wait for a change times out, and waits for the reply.
fn ask<R: Wait + Clock>(rt: &R, desk: &Desk, mut party: Party) -> Result<Party, Refusal>
    requires { IsReady party desk.now }
    ensures { IfOk result (λ p. IsDone p desk.now) }
{
    let waited = desk.wait_for_change(rt, &mut party, Duration::from_millis(LIMIT))?;
    match waited {
        // only the server wakes the client, and only after its reply
        Waited::Woken(_) => {}
        Waited::TimedOut(_) => desk.change(rt, &mut party, Request::Reminded)?,
    }
    desk.wait_until_it_is(rt, &mut party, Request::Answered)?;
    Ok(party)
}

/// What the server does: it waits until it is reminded, and replies.
fn reply<R: Wait>(rt: &R, desk: &Desk, mut party: Party) -> Result<Party, Refusal>
    requires { IsReady party desk.now }
    ensures { IfOk result (λ p. IsDone p desk.now) }
{
    desk.wait_until_it_is(rt, &mut party, Request::Reminded)?;
    desk.change(rt, &mut party, Request::Answered)?;
    Ok(party)
}

/// What the thread of a party does.
fn act<R: Wait + Clock>(rt: &R, desk: &Desk, party: Party) -> Result<Party, Refusal>
    requires { IsReady party desk.now }
    ensures { IfOk result (λ p. IsDone p desk.now) }
{
    if party.seat.number().get() == CLIENT {
        ask(rt, desk, party)
    } else {
        reply(rt, desk, party)
    }
}

/// Runs both parties, each in a thread of its own. Returns the request as they left it, and how many waits timed out.
fn run<R: Threads + Wait + Clock + Sync>(rt: &R, alloc: Global) -> anyhow::Result<(Request, u64)>
    ensures { IfOk result (λ r. r.0 ≡ Request.Answered) }
{
    let (desk, parties) = Desk::new(alloc)?;
    // if a thread can't be started, no party acts, and the program ends with an error
    let results = share(
        rt,
        &desk,
        parties,
        &|desk: &Desk, party: Party| -> Result<Party, Refusal>
            requires { IsReady party desk.now }
            ensures { IfOk result (λ p. IsDone p desk.entry.now) }
        { act(rt, desk, party) },
    )?;
    let mut seats = Vec::new(alloc);
    let mut plain_seats = Vec::new(alloc);
    for result in results {
        let Party { seat, waits } = result?;
        seats.push(seat)?;
        plain_seats.push(waits)?;
    }
    let Desk { request, changed } = desk;
    let Ok(last) = request.close(seats) else {
        bail!("a seat still holds the mutex");
    };
    let Ok(counts) = changed.close(plain_seats) else {
        bail!("a seat of the condition variable is missing");
    };
    Ok((last, counts.timed_out))
}

/// Prints the request as the parties left it, and how many waits timed out.
fn main(rt: HostRuntime) -> anyhow::Result<()> {
    let (request, timed_out) = run(&rt, rt.alloc())?;
    println!(rt; "the request: {request:?}")?;
    println!(rt; "waits that timed out: {timed_out}")?;
    Ok(())
}
