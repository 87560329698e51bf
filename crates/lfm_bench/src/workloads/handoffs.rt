//! One thread passes a mutex from one seat to another and back. Each time the other seat queues, the holder grants it the mutex
//! and makes the wake-up call, and the other seat takes the grant up. std's mutex has no such calls.

use crate::measure::{Round, Sample, Start, Steps};
use crate::peers::ours::{User, Users};
use crate::workloads::alone::{Call, Peers, round};
use std::io;
use std::sync::Wait;
use std::time::CpuClock;

/// `ask`, `unlock` and `try_receive`, from one seat to the other and back.
struct TwoHandoffs;

impl Call for TwoHandoffs {
    /// `ask`, `unlock` and `try_receive`, there and back.
    #[inline(always)]
    fn ours<R: Wait>(_rt: &R, users: &mut Users) -> bool {
        pass(&mut users.user, &mut users.other) && pass(&mut users.other, &mut users.user)
    }

    /// The steps of two hand-offs.
    #[inline(always)]
    fn bare(steps: &mut Steps) -> bool {
        steps.handoff() && steps.handoff()
    }
}

/// The mutex goes from a holder to a seat that queues for it.
#[inline(always)]
fn pass(holder: &mut User, next: &mut User) -> bool {
    next.queue() && holder.unlock() && next.receive()
}

/// A round of this number of hand-offs, or of one less if the number is odd. A call is one hand-off.
pub fn round_of_handoffs<R: Wait + CpuClock>(
    rt: &R,
    peers: &mut Peers,
    handoffs: u64,
) -> io::Result<Round> {
    let round = round::<R, TwoHandoffs>(rt, peers, Start::Held, handoffs / 2)?;
    Ok(Round {
        ours: round.ours.map(halves),
        bare: round.bare.map(halves),
        ..round
    })
}

/// The same sample, with two calls for each of its calls.
fn halves(sample: Sample) -> Sample {
    Sample {
        calls: sample.calls.saturating_mul(2),
        ..sample
    }
}
