//! The law of tickets, and how the running list goes as the model of `lfm_plain_condvar_laws`, whose laws are re-exported
//! here.
ghost use Rattle.lfm_plain_condvar.specs.Modelled.{ListsGoAsTheModel};
ghost use Rattle.lfm_plain_condvar.specs.Order.{TicketsKeepTheirPlaces};

pub use lfm_plain_condvar_laws::waits::{
    tickets_are_in_one_place, waits_end_by_wakes_or_limits, wakes_take_the_oldest,
};

/// Whichever seats change the list of a running condvar, a ticket keeps its seat until it is woken or times out. No ticket is
/// woken while an older one waits, and none ends twice. A wait times out only by its own seat.
///
/// Definition: `TicketsKeepTheirPlaces` in `specs/Order.antt`. Proof: `proofs/Order.antt`.
pub fn tickets_keep_their_places()
    ensures { TicketsKeepTheirPlaces }
{}

/// The list of a running condvar changes as the model's does, whichever model has its waiters and has given as many tickets.
/// A waiter that is added, taken out by a wake, or taken out since its time is over is an event of the model, and a wake of
/// all is as many wakes.
///
/// Definition: `ListsGoAsTheModel` in `specs/Modelled.antt`. Proof: `proofs/Modelled.antt`.
pub fn plain_lists_go_as_the_model()
    ensures { ListsGoAsTheModel }
{}
