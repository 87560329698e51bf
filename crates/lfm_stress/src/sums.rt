//! What a run leaves, and whether nothing was lost. A run of `limits` leaves what `waits` says.
ghost use Rattle.std.specs.Prelude.{◌≡◌, ◌≤◌};
ghost use Rattle.lfm_stress.specs.Totals.{additions_of, least_of, woken_of, number_of, is_exact};

use crate::plan::{Load, Plan};
use std::io;

/// What a run leaves.
#[derive(Clone, Copy, Debug, PartialEq, Eq)]
pub struct Sums {
    /// How many additions all threads counted, or how many items they took out of the buffer.
    pub made: u64,
    /// How many threads were woken in broadcasts.
    pub woken: u64,
    /// The number under the mutex, or the sum of the items that were taken out.
    pub number: u64,
}

/// How many additions the threads of a run make at most, or how many items go through the buffer.
fn additions_of(plan: Plan) -> u64
    ensures { result ≡ additions_of plan.load plan.threads plan.turns }
{
    let (threads, turns) = (plan.threads(), plan.turns());
    match plan.load() {
        Load::Lock | Load::Mixed | Load::PingPong => threads * turns,
        Load::Broadcast => (threads * 2 + 1) * turns,
        Load::Buffer => turns,
        Load::Limits => 0,
    }
}

/// How many of them must be made at least. In `mixed` these are one for each turn that locks, and one for the first try of all,
/// which finds the mutex free.
fn least_of(plan: Plan) -> u64
    ensures { result ≡ least_of plan.load plan.threads plan.turns }
{
    match plan.load() {
        Load::Mixed => plan.threads() * (plan.turns() / 2) + 1,
        Load::Lock | Load::PingPong | Load::Broadcast | Load::Buffer | Load::Limits => {
            additions_of(plan)
        }
    }
}

/// How many threads are woken in the broadcasts of a run.
fn woken_of(plan: Plan) -> u64
    ensures { result ≡ woken_of plan.load plan.threads plan.turns }
{
    match plan.load() {
        Load::Broadcast => plan.threads() * plan.turns(),
        Load::Lock | Load::Mixed | Load::PingPong | Load::Buffer | Load::Limits => 0,
    }
}

/// The number after `made` additions, or the sum of `made` items, which are 1, 2, 3 and so on.
fn number_of(plan: Plan, made: u64) -> u64
    requires { made ≤ additions_of plan.load plan.threads plan.turns }
    ensures { result ≡ number_of plan.load made }
{
    let _turns = plan.turns();
    match plan.load() {
        Load::Lock | Load::Mixed | Load::PingPong | Load::Broadcast | Load::Limits => made,
        Load::Buffer => made * (made + 1) / 2,
    }
}

impl Sums {
    /// Whether nothing was lost in a run of this plan: no addition and no item is missing, except additions of tries that found
    /// the mutex held; each broadcast woke each thread that waited; and the number is what the additions make.
    pub fn is_exact(self, plan: Plan) -> bool
        ensures { result ≡ is_exact plan.load plan.threads plan.turns self }
    {
        least_of(plan) <= self.made
            && self.made <= additions_of(plan)
            && self.woken == woken_of(plan)
            && self.number == number_of(plan, self.made)
    }

    /// Prints what a run of this plan left, and whether nothing was lost.
    pub fn print<R: Print>(self, rt: &R, plan: Plan) -> io::Result<()> {
        let (load, locking) = (plan.load().name(), plan.locking().name());
        let threads = plan.threads();
        let Sums {
            made,
            woken,
            number,
        } = self;
        let verdict = if self.is_exact(plan) {
            "exact"
        } else {
            "NOT EXACT"
        };
        println!(rt;
            "{load}, {locking}, {threads} threads: {made} made, {woken} woken, total {number}: {verdict}"
        )
    }
}
