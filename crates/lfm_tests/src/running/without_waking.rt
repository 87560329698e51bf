//! The calls that return their wake-up to the caller, made in one thread: which seat each wake-up names.
use crate::running::seats::pair;
use crate::seeing::sees;
use lfm_model::{Asked, How, SeatNo, Unlocked};
use lfm_mutex::WakeUp;
use std::test::Fail;

/// The seat that is to be woken.
fn seat_of(wake_up: Option<WakeUp>) -> Option<SeatNo> {
    match wake_up {
        Some(wake_up) => Some(wake_up.into_seat()),
        None => None,
    }
}

#[test]
fn an_unlock_hands_out_its_wake_up(rt: HostRuntime) -> Result<(), Fail> {
    let (mutex, mut first, mut second) = pair(rt.alloc())?;
    let (asked, wake_up) = mutex.ask_without_waking(&mut first);
    sees(&rt, "the first ask", &asked, &Ok(Asked::Held(How::Free)));
    sees(&rt, "whom it grants", &seat_of(wake_up), &None);
    let (asked, wake_up) = mutex.ask_without_waking(&mut second);
    sees(&rt, "the second ask", &asked, &Ok(Asked::Asleep));
    sees(&rt, "whom it grants", &seat_of(wake_up), &None);
    let (unlocked, wake_up) = mutex.unlock_without_waking(&mut first);
    let second_seat = SeatNo::known(2);
    sees(
        &rt,
        "the unlock",
        &unlocked,
        &Ok(Unlocked::Granted(second_seat)),
    );
    sees(&rt, "whom it grants", &seat_of(wake_up), &Some(second_seat));
    let received = mutex.try_receive(&mut second);
    sees(&rt, "the receive", &received, &Ok(Some(How::Queued(1))));
    let (unlocked, wake_up) = mutex.unlock_without_waking(&mut second);
    sees(&rt, "the last unlock", &unlocked, &Ok(Unlocked::Free));
    mutex.wake(wake_up);
    Ok(())
}

#[test]
fn a_wait_and_a_send_hand_out_their_wake_ups(rt: HostRuntime) -> Result<(), Fail> {
    let (mutex, mut first, mut second) = pair(rt.alloc())?;
    let asked = mutex.ask(&mut first);
    sees(&rt, "the first ask", &asked, &Ok(Asked::Held(How::Free)));
    let asked = mutex.ask(&mut second);
    sees(&rt, "the second ask", &asked, &Ok(Asked::Asleep));
    let (released, wake_up) = mutex.start_wait_without_waking(&mut first);
    let second_seat = SeatNo::known(2);
    sees(
        &rt,
        "the wait",
        &released,
        &Ok(Unlocked::Granted(second_seat)),
    );
    sees(&rt, "whom it grants", &seat_of(wake_up), &Some(second_seat));
    let received = mutex.try_receive(&mut second);
    sees(&rt, "the receive", &received, &Ok(Some(How::Queued(1))));
    let unlocked = mutex.unlock(&mut second);
    sees(&rt, "the unlock", &unlocked, &Ok(Unlocked::Free));
    let first_seat = SeatNo::known(1);
    let (sent, wake_up) = mutex.send_lock_without_waking(&mut second, first_seat);
    sees(&rt, "the send", &sent, &Ok(()));
    sees(&rt, "whom it grants", &seat_of(wake_up), &Some(first_seat));
    Ok(())
}
