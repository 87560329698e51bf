//! The wake-up that is owed after a grant is stored. No path of the code can drop it: it is used up by `wake`, passed on, or
//! turned into the number of its seat. Nothing checks that a caller passes it to the `wake` of the mutex that returned it.
ghost use Rattle.std.specs.Prelude.{◌≡◌, None};
ghost use Rattle.lfm_model.specs.SeatNumbers.{IsSeatNo};
ghost use Rattle.lfm_protocol.specs.Points.{target};
ghost use Rattle.lfm_table.specs.Grants.{granted_at, owed};

use lfm_model::SeatNo;
use lfm_protocol::SeatState;
use lfm_words::Wake;
use std::marker::Model;

/// The duty to wake a seat that was granted the mutex. Only the step that stores a grant makes one. A contract sees the number
/// of the seat.
///
/// The type has no `Drop`, so a path that loses a wake-up does not compile. A wake-up must be passed to `parking::wake`,
/// returned to a caller, or turned into a seat's number. `parking::wake` adds the seat to the list of woken seats.
///
/// ```
/// let (unlocked, wake_up) = mutex.unlock_without_waking(&mut seat);
/// mutex.wake(wake_up);
/// ```
pub struct WakeUp {
    seat: SeatNo,
}

impl Model for WakeUp {
    ghost use Rattle.std.specs.Prelude.{ℕ};

    ghost Value = { ℕ };

    ghost view = { λ w. w.seat };
}

impl WakeUp {
    /// What is owed after this state is stored in the wake word of this seat: a wake-up if the state is a grant.
    pub(crate) fn owed(stored: Wake, seat: SeatNo) -> Option<WakeUp>
        ensures { result ≡ owed stored seat }
    {
        match stored {
            Wake::Grant(_) => Some(WakeUp { seat }),
            _ => None,
        }
    }

    /// What is owed after the store of a wake word at the seat's point: the wake-up of the target if the store is a grant.
    #[inline(always)]
    pub(crate) fn owed_by(number: u64, state: &SeatState) -> Option<WakeUp>
        requires { IsSeatNo (target state.now.point number) }
        ensures { result ≡ granted_at state.now.point }
    {
        let target = SeatNo::known(state.point.target(number));
        WakeUp::owed(state.stored_wake(), target)
    }

    /// Consumes the wake-up of a step that granted nothing, which is None.
    pub fn expect_none(wake_up: Option<WakeUp>)
        requires { wake_up ≡ None }
    {
        match wake_up {
            None => {}
            Some(_wake_up) => unreachable!(),
        }
    }

    /// The number of the seat that is to be woken. After this call nothing ensures that the seat is woken. It is for callers
    /// that wake threads in another way.
    pub fn into_seat(self) -> SeatNo
        ensures { result ≡ self }
    {
        let WakeUp { seat } = self;
        seat
    }
}
