//! The laws of condition variables over the core of the user mutex. They are stated in `lfm_condvar_laws` and re-exported here.
//! The laws in this file are about the list of a running condvar.
ghost use Rattle.lfm_condvar.specs.Modelled.{ListsGoAsTheModel};
ghost use Rattle.lfm_condvar.specs.Order.{WaitersAreSentInOrder};

pub use lfm_condvar_laws::claims::{
    claims_are_in_order, claims_never_fail, pushes_are_in_order, tickets_are_claimed_once,
};
pub use lfm_condvar_laws::lists::{
    lists_are_in_order, locks_are_given_back, sleepers_are_listed, waiters_are_listed,
    wakes_empty_the_list,
};
pub use lfm_condvar_laws::user_mutex::{cores_are_reached, own_calls_are_free};
pub use lfm_condvar_laws::waits::{
    sent_waiters_hold_in_rounds, waits_are_new, waits_are_sent, waits_can_end, waits_end_holding,
    waits_sleep_until_sent,
};
pub use lfm_condvar_laws::{claims, lists, user_mutex, waits};
use lfm_mutex::Kept;

/// The list of a running condvar changes as the model's does. `enlist` appends an unlisted seat with the model's ticket, and
/// refuses only a listed one as Busy. A send of one sends and removes the oldest. A send of all does so until the list is empty
/// or a send is refused.
///
/// Definition: `ListsGoAsTheModel` in `specs/Modelled.antt`. Proof: `proofs/Modelled.antt`.
pub fn lists_go_as_the_model<T: Kept>()
    ensures { ListsGoAsTheModel T }
{}

/// First come, first served, whichever cond seats change the list of a running condvar: waiters leave it in the order of their
/// tickets. Until it has left, a waiter keeps its seat and ticket, and nobody gets ahead of it. A wake sends the seat whose
/// wait got the ticket.
///
/// Definition: `WaitersAreSentInOrder` in `specs/Order.antt`. Proof: `proofs/Order.antt`.
pub fn waiters_are_sent_in_order()
    ensures { WaitersAreSentInOrder }
{}
