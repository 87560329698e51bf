//! Waits and tries with time limits on a plain condition, by a pass that is alone: nobody wakes it. They end after the limit
//! and not before, and the pass then holds the monitor by an acquisition that the journal has.
use crate::plain_passes::{apply_until_for, journal_of_one, plain_monitor_of_one, wait_for};
use crate::seeing::sees;
use lfm_model::{Entry, How, Refusal, SeatNo, TotalOp, What};
use lfm_monitor::{LastReply, Waited};
use std::test::Fail;

/// An entry of the one pass.
fn entry(what: What<TotalOp>) -> Entry<TotalOp> {
    Entry {
        seat: SeatNo::known(1),
        what,
    }
}

#[test]
fn a_wait_ends_after_its_limit(rt: HostRuntime) -> Result<(), Fail> {
    let (monitor, mut pass) = plain_monitor_of_one(rt.alloc(), 2, 1).ok_or("a monitor")?;
    let _entered = monitor.enter(&rt, &mut pass);
    let (answer, is_over) = wait_for(&rt, &monitor, &mut pass, 1);
    let wanted = Ok((How::Free, Waited::TimedOut(1)));
    sees(&rt, "the wait", &answer, &wanted);
    sees(&rt, "whether the time is over", &is_over, &true);
    sees(&rt, "the depth", &pass.depth(), &1);
    let journal = journal_of_one(monitor, pass, Vec::new(rt.alloc())).ok_or("a journal")?;
    let takes = [entry(What::Took(How::Free)), entry(What::Took(How::Free))];
    assert_eq!(rt; journal.as_slice(), takes.as_slice());
    Ok(())
}

#[test]
fn tries_end_after_their_limit(rt: HostRuntime) -> Result<(), Fail> {
    let (monitor, mut pass) = plain_monitor_of_one(rt.alloc(), 4, 1).ok_or("a monitor")?;
    let _entered = monitor.enter(&rt, &mut pass);
    let (answer, is_over) = apply_until_for(&rt, &monitor, &mut pass, TotalOp::Add(2), 9);
    // the second try, which is made after the limit, adds to the total of the first
    sees(&rt, "the tries", &answer, &Ok(LastReply::TimedOut(4)));
    sees(&rt, "whether the time is over", &is_over, &true);
    sees(&rt, "the depth", &pass.depth(), &1);
    let journal = journal_of_one(monitor, pass, Vec::new(rt.alloc())).ok_or("a journal")?;
    let round = [
        entry(What::Took(How::Free)),
        entry(What::Did(TotalOp::Add(2))),
        entry(What::Took(How::Free)),
        entry(What::Did(TotalOp::Add(2))),
    ];
    assert_eq!(rt; journal.as_slice(), round.as_slice());
    Ok(())
}

#[test]
fn a_try_that_is_accepted_ends_without_a_wait(rt: HostRuntime) -> Result<(), Fail> {
    let (monitor, mut pass) = plain_monitor_of_one(rt.alloc(), 2, 1).ok_or("a monitor")?;
    let _entered = monitor.enter(&rt, &mut pass);
    let (answer, _) = apply_until_for(&rt, &monitor, &mut pass, TotalOp::Add(5), 5);
    sees(&rt, "the try", &answer, &Ok(LastReply::Accepted(5)));
    sees(&rt, "the entries", &pass.mine(), &2);
    Ok(())
}
