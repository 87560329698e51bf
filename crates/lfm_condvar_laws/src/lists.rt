//! The laws of a condvar's list and of its lock: which seats are in the list, in which order, and which seat has the lock.
ghost use Rattle.lfm_condvar_laws.specs.Laws.{ListsAreInOrder, WaitersAreListed, SleepersAreListed, LocksAreGivenBack, WakesEmptyTheList};

/// While the lock of a condvar is free, the tickets in its list are those after the sent and up to the added ones, in order, and
/// its seats are distinct.
///
/// Definition: `ListsAreInOrder` in `specs/Laws.antt`. Proof: `proofs/reached/ListOrder.antt`.
pub fn lists_are_in_order()
    ensures { ListsAreInOrder }
{}

/// While the lock of a condvar is free, its list has exactly the seats whose `wait` has released the lock and whose ticket no
/// wake has claimed, each with this ticket.
///
/// Definition: `WaitersAreListed` in `specs/Laws.antt`. Proof: `proofs/reached/ListOrder.antt`.
pub fn waiters_are_listed()
    ensures { WaitersAreListed }
{}

/// Each seat whose wake word is WAITING is in the list of some condvar: by `waiters_are_listed`, in that of the condvar on which
/// it waits, while the lock is free.
///
/// Definition: `SleepersAreListed` in `specs/Laws.antt`. Proof: `proofs/reached/SleepersListed.antt`.
pub fn sleepers_are_listed()
    ensures { SleepersAreListed }
{}

/// The lock of a condvar is held by exactly the seat whose call has taken and not yet released it. After the last event of a
/// wake it is free.
///
/// Definition: `LocksAreGivenBack` in `specs/Laws.antt`. Proof: `proofs/reached/LocksBack.antt`.
pub fn locks_are_given_back()
    ensures { LocksAreGivenBack }
{}

/// When a wake of all stops sending, the list is empty, and its next event releases the lock.
///
/// Definition: `WakesEmptyTheList` in `specs/Laws.antt`. Proof: `proofs/reached/ListsEmptied.antt`.
pub fn wakes_empty_the_list()
    ensures { WakesEmptyTheList }
{}
