//! Sections of one thread: what they answer and leave, early returns, refusals, and nested sections.
use crate::running::seats::{alone, closed, closed_alone, pair};
use crate::seeing::sees;
use lfm_model::{Asked, How, Locked, Refusal, Unlocked};
use std::test::Fail;

#[test]
fn section_answers_and_leaves(rt: HostRuntime) -> Result<(), Fail> {
    let (mutex, mut first, mut second) = pair(rt.alloc())?;
    let sum = mutex.with(&rt, &mut first, |total| {
        *total = total.wrapping_add(5);
        *total
    });
    sees(&rt, "the answer", &sum, &Ok(5));
    sees(&rt, "the depth", &first.depth(), &0);
    sees(&rt, "the takes", &first.takes(), &1);
    let found = mutex.try_with(&mut second, |total| *total);
    sees(&rt, "what the other seat found", &found, &Ok(5));
    sees(&rt, "the other seat's depth", &second.depth(), &0);
    let value = closed(mutex, first, second, Vec::new(rt.alloc()));
    sees(&rt, "the value", &value, &Some(5));
    Ok(())
}

#[test]
fn early_return_gives_the_mutex_up(rt: HostRuntime) -> Result<(), Fail> {
    let (mutex, mut first, mut second) = pair(rt.alloc())?;
    let left = mutex.with(&rt, &mut first, |total| {
        if *total == 0 {
            return None;
        }
        *total = 7;
        Some(*total)
    });
    sees(&rt, "the answer", &left, &Ok(None));
    sees(&rt, "the depth", &first.depth(), &0);
    let lock = mutex.try_lock(&mut second);
    sees(&rt, "the other seat", &lock, &Ok(Locked::Held(How::Free)));
    Ok(())
}

#[test]
fn refused_section_calls_nothing(rt: HostRuntime) -> Result<(), Fail> {
    let (mutex, mut seat) = alone(rt.alloc(), 1)?;
    let once = mutex.with(&rt, &mut seat, |value| *value = 2);
    sees(&rt, "the first", &once, &Ok(()));
    let waiting = mutex.with(&rt, &mut seat, |value| *value = 3);
    sees(&rt, "the second", &waiting, &Err(Refusal::Spent));
    let trying = mutex.try_with(&mut seat, |value| *value = 4);
    sees(&rt, "the third", &trying, &Err(Refusal::Spent));
    let value = closed_alone(mutex, seat, Vec::new(rt.alloc()));
    sees(&rt, "the value", &value, &Some(2));
    Ok(())
}

#[test]
fn busy_section_calls_nothing(rt: HostRuntime) -> Result<(), Fail> {
    let (mutex, mut first, mut second) = pair(rt.alloc())?;
    let lock = mutex.lock(&rt, &mut first);
    sees(&rt, "the lock", &lock, &Ok(Locked::Held(How::Free)));
    let trying = mutex.try_with(&mut second, |value| *value = 4);
    sees(&rt, "the section", &trying, &Err(Refusal::Busy));
    sees(&rt, "the takes", &second.takes(), &0);
    sees(&rt, "the value", &first.value().copied(), &Some(0));
    Ok(())
}

#[test]
fn section_of_a_holder_deepens_its_hold(rt: HostRuntime) -> Result<(), Fail> {
    let (mutex, mut seat) = alone(rt.alloc(), 1)?;
    let lock = mutex.lock(&rt, &mut seat);
    sees(&rt, "the lock", &lock, &Ok(Locked::Held(How::Free)));
    let inner = mutex.with(&rt, &mut seat, |value| *value = 2);
    sees(&rt, "the section", &inner, &Ok(()));
    sees(&rt, "the depth", &seat.depth(), &1);
    let tried = mutex.try_with(&mut seat, |value| *value = value.wrapping_mul(3));
    sees(&rt, "the section that tries", &tried, &Ok(()));
    sees(&rt, "the depth after it", &seat.depth(), &1);
    let unlocked = mutex.unlock(&mut seat);
    sees(&rt, "the unlock", &unlocked, &Ok(Unlocked::Free));
    let value = closed_alone(mutex, seat, Vec::new(rt.alloc()));
    sees(&rt, "the value", &value, &Some(6));
    Ok(())
}

#[test]
fn section_in_order_answers_and_leaves(rt: HostRuntime) -> Result<(), Fail> {
    let (mutex, mut first, mut second) = pair(rt.alloc())?;
    let sum = mutex.with_in_order(&rt, &mut first, |total| {
        *total = total.wrapping_add(5);
        *total
    });
    sees(&rt, "the answer", &sum, &Ok(5));
    sees(&rt, "the depth", &first.depth(), &0);
    sees(&rt, "the takes", &first.takes(), &1);
    let found = mutex.with_in_order(&rt, &mut second, |total| *total);
    sees(&rt, "what the other seat found", &found, &Ok(5));
    sees(&rt, "the other seat's depth", &second.depth(), &0);
    let value = closed(mutex, first, second, Vec::new(rt.alloc()));
    sees(&rt, "the value", &value, &Some(5));
    Ok(())
}

#[test]
fn section_in_order_of_a_sleeper_calls_nothing(rt: HostRuntime) -> Result<(), Fail> {
    let (mutex, mut first, mut second) = pair(rt.alloc())?;
    let lock = mutex.lock(&rt, &mut first);
    sees(&rt, "the lock", &lock, &Ok(Locked::Held(How::Free)));
    let asked = mutex.ask(&mut second);
    sees(&rt, "the ask", &asked, &Ok(Asked::Asleep));
    let section = mutex.with_in_order(&rt, &mut second, |value| *value = 4);
    sees(&rt, "the section", &section, &Err(Refusal::Asleep));
    sees(&rt, "the depth", &second.depth(), &0);
    sees(&rt, "the takes", &second.takes(), &1);
    sees(&rt, "the value", &first.value().copied(), &Some(0));
    Ok(())
}

#[test]
fn section_in_order_of_a_holder_deepens_its_hold(rt: HostRuntime) -> Result<(), Fail> {
    let (mutex, mut seat) = alone(rt.alloc(), 1)?;
    let lock = mutex.lock(&rt, &mut seat);
    sees(&rt, "the lock", &lock, &Ok(Locked::Held(How::Free)));
    let inner = mutex.with_in_order(&rt, &mut seat, |value| *value = 2);
    sees(&rt, "the section", &inner, &Ok(()));
    sees(&rt, "the depth", &seat.depth(), &1);
    let unlocked = mutex.unlock(&mut seat);
    sees(&rt, "the unlock", &unlocked, &Ok(Unlocked::Free));
    let spent = mutex.with_in_order(&rt, &mut seat, |value| *value = 3);
    sees(&rt, "without a take", &spent, &Err(Refusal::Spent));
    let value = closed_alone(mutex, seat, Vec::new(rt.alloc()));
    sees(&rt, "the value", &value, &Some(2));
    Ok(())
}

#[test]
fn section_inside_of_another_mutex(rt: HostRuntime) -> Result<(), Fail> {
    let (outer, mut outer_seat) = alone(rt.alloc(), 3)?;
    let (inner, mut inner_seat) = alone(rt.alloc(), 4)?;
    let product = outer.with(&rt, &mut outer_seat, |left| {
        let left = *left;
        inner.with(&rt, &mut inner_seat, |right| left.wrapping_mul(*right))
    });
    sees(&rt, "the answer", &product, &Ok(Ok(12)));
    sees(&rt, "the outer depth", &outer_seat.depth(), &0);
    sees(&rt, "the inner depth", &inner_seat.depth(), &0);
    Ok(())
}
