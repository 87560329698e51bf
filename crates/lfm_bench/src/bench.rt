//! The peers that are measured, and a round of each workload.

use crate::measure::{Plan, Round, Start, StepTime, Watching};
use crate::peers::participants::Waking;
use crate::workloads::alone::{Peers, round, round_of_all};
use crate::workloads::handoffs::round_of_handoffs;
use crate::workloads::hits::Hit;
use crate::workloads::misses::Miss;
use crate::workloads::pairs::{Addition, BargingPair, Pair};
use crate::workloads::pool_calls::pool_round;
use crate::workloads::recursive::Again;
use crate::workloads::route::{Load, Order};
use crate::workloads::{
    Calls, PoolWork, Work, Workload, broadcast, contended, many, ping_pong, polls, pool_turns,
    queue,
};
use std::io;
use std::sync::Wait;
use std::thread::Threads;
use std::time::{Clock, CpuClock, Duration};

/// How many calls count as one poll. A round has fewer polls than calls, since a poll has pauses.
const CALLS_OF_POLL: u64 = 10;

/// About how many locks by one thread take as long as a round trip. The next constant is the fewest round trips of a round.
const CALLS_OF_TRIP: u64 = 100;

const FEWEST_TRIPS: u64 = 20;

/// The same two numbers for a broadcast.
const CALLS_OF_BROADCAST: u64 = 5_000;

const FEWEST_BROADCASTS: u64 = 4;

/// The same for a number that goes through a queue; the fewest are those of one thread.
const CALLS_OF_NUMBER: u64 = 10;

const FEWEST_NUMBERS: u64 = 20;

/// The peers that are measured, and the amount of work.
#[derive(Drop)]
pub struct Bench<'a> {
    /// The peers that are measured by the calls of one thread. The others are made in each round.
    pub peers: Peers<'a>,
    pub plan: Plan,
}

impl Bench<'_> {
    /// A round of one workload.
    pub fn round<R: Threads + Sync + Wait + Clock + CpuClock + AllocGlobal>(
        &mut self,
        rt: &R,
        step: StepTime,
        workload: Workload,
    ) -> io::Result<Round> {
        let calls = self.plan.calls;
        match workload {
            Workload::Contended {
                threads,
                work,
                watching,
            } => {
                let turns = self.turns(step, threads, work);
                contended::round(rt, contended::Load { watching, ..turns })
            },
            Workload::PingPong(waking) => {
                let turns = (calls / CALLS_OF_TRIP).max(FEWEST_TRIPS);
                ping_pong::round(rt, ping_pong::Load { turns, waking })
            }
            Workload::Broadcast(threads) => {
                let broadcasts = (calls / CALLS_OF_BROADCAST).max(FEWEST_BROADCASTS);
                let load = broadcast::Load {
                    threads,
                    broadcasts,
                };
                broadcast::round(rt, load)
            }
            Workload::Queue { threads, waking } => {
                queue::round(rt, self.numbers(threads, waking))
            }
            Workload::Alone(calls) => self.round_of_one_thread(rt, calls),
            Workload::Pool(work) => self.round_of_pool(rt, step, work),
        }
    }

    /// What this number of threads that take turns do.
    fn turns(&self, step: StepTime, threads: u64, work: Work) -> contended::Load {
        contended::Load {
            threads,
            inside: step.steps(work.inside),
            outside: step.steps(work.outside),
            window: Duration::from_millis(self.plan.milliseconds),
            watching: Watching::Nothing,
        }
    }

    /// What this number of threads put into a queue, and as many take out.
    fn numbers(&self, threads: u64, waking: Waking) -> queue::Load {
        let numbers = self.plan.calls / CALLS_OF_NUMBER / threads.max(1);
        queue::Load {
            threads,
            numbers: numbers.max(FEWEST_NUMBERS),
            waking,
        }
    }

    /// A round of one thread's calls.
    fn round_of_one_thread<R: Threads + Sync + Wait + Clock + CpuClock + AllocGlobal>(
        &mut self,
        rt: &R,
        calls: Calls,
    ) -> io::Result<Round> {
        let many = self.plan.calls;
        let peers = &mut self.peers;
        match calls {
            Calls::Pairs => round_of_all::<R, Pair>(rt, peers, Start::Free, many),
            Calls::BargingPairs => round::<R, BargingPair>(rt, peers, Start::Free, many),
            Calls::Additions => round_of_all::<R, Addition>(rt, peers, Start::Free, many),
            Calls::Recursive => round::<R, Again>(rt, peers, Start::Held, many),
            Calls::Hits => round_of_all::<R, Hit>(rt, peers, Start::Free, many),
            Calls::Misses => round_of_all::<R, Miss>(rt, peers, Start::HeldByOther, many),
            Calls::Handoffs => round_of_handoffs(rt, peers, many),
            Calls::Polls => polls::round(rt, &mut peers.steps, many / CALLS_OF_POLL),
        }
    }

    /// A round of calls at mutexes of a pool.
    fn round_of_pool<R: Threads + Sync + Wait + Clock + CpuClock + AllocGlobal>(
        &mut self,
        rt: &R,
        step: StepTime,
        work: PoolWork,
    ) -> io::Result<Round> {
        match work {
            PoolWork::Pairs { mutexes, order } => many::round(rt, self.load(mutexes, order)),
            PoolWork::Recursive => self.round_of_recursive_calls(rt),
            PoolWork::Misses => self.round_of_misses(rt),
            PoolWork::Contended { threads, work } => {
                pool_turns::round(rt, self.turns(step, threads, work))
            }
        }
    }

    /// A round of calls at a mutex that the thread already holds: of a pool of one, and of ours.
    fn round_of_recursive_calls<R: Wait + CpuClock + AllocGlobal>(
        &mut self,
        rt: &R,
    ) -> io::Result<Round> {
        let load = self.load(1, Order::InTurn);
        let round = round::<R, Again>(rt, &mut self.peers, Start::Held, load.calls)?;
        Ok(Round {
            pool: Some(pool_round::<R, Again>(rt, load, Start::Held)?),
            ..round
        })
    }

    /// A round of tries at a mutex that is held: of a pool of one, of ours, and of std's.
    fn round_of_misses<R: Wait + CpuClock + AllocGlobal>(&mut self, rt: &R) -> io::Result<Round> {
        let load = self.load(1, Order::InTurn);
        let peers = &mut self.peers;
        let round = round_of_all::<R, Miss>(rt, peers, Start::HeldByOther, load.calls)?;
        Ok(Round {
            pool: Some(pool_round::<R, Miss>(rt, load, Start::HeldByOther)?),
            ..round
        })
    }

    /// The calls of one thread at this number of mutexes.
    fn load(&self, mutexes: usize, order: Order) -> Load {
        Load {
            mutexes,
            order,
            calls: self.plan.calls,
        }
    }
}
