//! How the thread of a sleeping seat parks on the seat's wake word, and how it is woken. Neither changes a word.
//!
//! No grant is missed: by the law `no_grant_is_slept_through`, a wake-up is owed whenever a thread sleeps beside a grant. The
//! law is about a model, and these functions do what the model says: a thread parks only after it has loaded a word that is no
//! grant, and it parks on the low 32 bits of that word. The step that stores a grant leaves a wake-up, which can't be dropped:
//! it ends in `wake`, or in `WakeUp::into_seat`, whose caller then has to wake the thread. It is not proved that `wake` makes
//! the system call, that the system compares and puts the thread to sleep in one step, nor that it then wakes the thread.
//!
//! The loads here are in no trail, and no `OffTrail` counts them: whoever parks needs `R: Wait`, which a call that never waits
//! does not have.
ghost use Rattle.std.specs.Prelude.{◌≡◌, ◌+◌, ◌*◌, ◌<◌, ◌≤◌, [], ◌∷◌, ◌++◌};
ghost use Rattle.lfm_protocol.specs.Limits.{max_seats};

use crate::kept::Kept;
use crate::layout::wake_at;
use crate::shared_table::SharedTable;
use crate::shared_table::off_trail::OffTrail;
use crate::wake_up::WakeUp;
use lfm_words::Wake;
use std::sync::Wait;
use std::time::Duration;

/// Wakes the thread that is parked on the wake word of the granted seat, if there is one. It makes one system call. The seat is
/// added to those that were woken.
pub fn wake<T: Kept>(table: &SharedTable<T>, seats: u64, wake_up: WakeUp, off_trail: &mut OffTrail)
    requires few { seats ≤ max_seats }
    requires wide { 4 + 2 * seats ≡ table.now.table_id.words }
    requires inside { wake_up ≤ seats }
    ensures { off_trail.new ≡ record off_trail.old { woken = off_trail.old.woken ++ wake_up ∷ [] } }
{
    *off_trail = OffTrail::with_wake_up(off_trail, &wake_up);
    let seat = wake_up.into_seat().get();
    table.wake_one(wake_at(seats, seat));
}

/// Parks on this wake word until a wake-up, if the word is no grant. It may also return without a wake-up.
pub fn park<T: Kept, R: Wait>(rt: &R, table: &SharedTable<T>, word: usize)
    requires inside { word < table.now.table_id.words }
{
    let seen = table.peek(word);
    if !Wake::is_grant_word(seen) {
        table.park(rt, word, seen as u32);
    }
}

/// Like `park`, for at most this time. A seat that is awake may nap on its own wake word in this way. No grant is stored there
/// meanwhile. A late wake-up of an earlier grant only ends the nap early.
pub fn park_for<T: Kept, R: Wait>(rt: &R, table: &SharedTable<T>, word: usize, time: Duration)
    requires inside { word < table.now.table_id.words }
{
    let seen = table.peek(word);
    if !Wake::is_grant_word(seen) {
        table.park_timeout(rt, word, seen as u32, time);
    }
}
