//! The numbers of a pace: how often a seat spins and naps before it queues, and how often it then loads its wake word before it
//! parks.
use crate::running::seats::alone;
use crate::seeing::{holds, sees};
use lfm_mutex::Pace;
use std::test::Fail;

/// The numbers of a pace: its polls, how many seats are near, its spins and its naps.
fn numbers(pace: Pace) -> (u32, u64, u32, u32) {
    (pace.looks(), pace.near(), pace.spins(), pace.naps())
}

#[test]
fn paces(rt: HostRuntime) {
    let pace = Pace::new(3, 2);
    sees(&rt, "new", &numbers(pace), &(3, 2, 0, 0));
    let barging = pace.with_barging(5, 7);
    sees(&rt, "with barging", &numbers(barging), &(3, 2, 5, 7));
    let none = barging.with_barging(0, 0);
    sees(&rt, "with none again", &numbers(none), &(3, 2, 0, 0));
    let one = Pace::for_processors(1);
    sees(&rt, "for one processor", &numbers(one), &(0, 0, 1, 4));
    let four = Pace::for_processors(4);
    sees(&rt, "for four", &numbers(four), &(800, 4, 12, 4));
}

#[test]
fn pace_of_this_machine(rt: HostRuntime) -> Result<(), Fail> {
    let pace = Pace::of_machine(&rt)?;
    let (polls, near, spins, naps) = numbers(pace);
    let spins_wanted = if near == 0 { 1 } else { 12 };
    sees(&rt, "the spins", &spins, &spins_wanted);
    sees(&rt, "the naps", &naps, &4);
    let polls_fit = polls == 0 || (near > 1 && polls >= 100 && polls <= 4_000);
    holds(&rt, "the polls", polls_fit);
    Ok(())
}

#[test]
fn pace_of_a_mutex(rt: HostRuntime) -> Result<(), Fail> {
    let (mut mutex, _seat) = alone(rt.alloc(), 0)?;
    sees(
        &rt,
        "of a new one",
        &numbers(mutex.pace()),
        &(800, 8, 12, 4),
    );
    let pace = Pace::new(3, 2).with_barging(5, 7);
    mutex.set_pace(pace);
    sees(&rt, "the one that was set", &mutex.pace(), &pace);
    Ok(())
}
