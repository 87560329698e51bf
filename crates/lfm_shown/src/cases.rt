//! The abstract case of a step: what it does to the responsibility and to the queue.
ghost use Rattle.std.specs.Prelude.{◌≡◌, Some, None, if◌then◌else◌};
ghost use Rattle.lfm_laws.specs.laws.Events.{asks_at, enters_by, case_of_step};
ghost use Rattle.lfm_shown.specs.Cases.{abstract_case};
ghost use Rattle.lfm_shown.specs.Names.{case_name};
ghost use Rattle.lfm_protocol.specs.Seats.{seat};

use lfm_core::State;
use lfm_core::points::{Entrant, Point};
use lfm_model::How;
use lfm_words::{Handoff, Wake};

/// The steps of the abstract mutex, by name.
#[derive(Clone, Copy, Debug, PartialEq, Eq)]
pub enum Case {
    /// A seat is counted: it asks, and takes a free mutex at once.
    Ask,
    /// A seat that asked joins the end of the queue.
    Queue,
    /// The oldest record leaves the queue, and its seat is granted the mutex or becomes the owner.
    Serve,
    /// The responsibility is posted.
    Post,
    /// A post is taken over or taken back.
    Take,
    /// A `try_lock` accepts a post. It becomes the owner at a later step.
    Accept,
    /// A seat loads its grant.
    TakeUp,
    /// A seat becomes the owner without a record.
    Enter,
    /// The owner gives the mutex up.
    Release,
    /// A releaser gives its unit of the count back.
    Leave,
}

impl Case {
    /// The name of the case.
    pub fn name(self) -> &'static str
        ensures { result.now ≡ case_name self }
    {
        match self {
            Case::Ask => "ask",
            Case::Queue => "queue",
            Case::Serve => "serve",
            Case::Post => "post",
            Case::Take => "take",
            Case::Accept => "accept",
            Case::TakeUp => "take_up",
            Case::Enter => "enter",
            Case::Release => "release",
            Case::Leave => "leave",
        }
    }
}

/// The case of a locker's count add. None if the seat holds already and is only counted again.
fn case_of_count(state: &State, s: u64) -> Option<Case>
    ensures { abstract_case result ≡ asks_at state.now.count (seat state.now.seats s).depth }
{
    if state.count() == 0 || state.depth(s) == 0 {
        Some(Case::Ask)
    } else {
        None
    }
}

/// The case of a store of the owning seat. A locker that has taken its own record from the queue serves itself.
fn case_of_entry(entrant: Entrant, how: How) -> Case
    ensures { abstract_case (Some result) ≡ Some (enters_by entrant how) }
{
    match (entrant, how) {
        (Entrant::Locker, How::Queued(_)) => Case::Serve,
        _ => Case::Enter,
    }
}

/// This case if it occurs, otherwise None.
fn only_if(comes: bool, case: Case) -> Option<Case>
    ensures { result ≡ if comes then Some case else None }
{
    if comes { Some(case) } else { None }
}

/// The case of the step that seat s makes next. None if that step does not change the abstract mutex.
pub fn next_case(state: &State, s: u64) -> Option<Case>
    ensures { abstract_case result ≡ case_of_step state.now s }
{
    match state.point(s) {
        Point::LockCountAdd => case_of_count(state, s),
        Point::TryCountExchange => only_if(state.count() == 0, Case::Ask),
        Point::SendCountAdd(_) => Some(Case::Ask),
        Point::ReleaseCountSubtract(_) => Some(Case::Leave),
        Point::EnterOwnerStore(entrant, how) => Some(case_of_entry(entrant, how)),
        Point::ReleaseOwnerStore(_) => Some(Case::Release),
        Point::PushExchange(_, seen) => only_if(state.push_word() == seen, Case::Queue),
        Point::PushedHandoffExchange(_, seen) => only_if(state.handoff() == seen, Case::Take),
        Point::ReleaseHandoffExchange(_) => only_if(
            state.handoff()
                == Handoff {
                    seat: s,
                    post: state.posts(s),
                },
            Case::Take,
        ),
        Point::TryHandoffExchange(seen) => only_if(state.handoff() == seen, Case::Accept),
        Point::ReleaseHandoffStore(_) => Some(Case::Post),
        Point::ReceiveWakeLoad(_) => only_if(
            matches!(state.wake_word(s), Wake::Grant(_)),
            Case::TakeUp,
        ),
        Point::GrantWakeStore(_, _) => Some(Case::Serve),
        Point::SendWakeStore(_) => Some(Case::Enter),
        _ => None,
    }
}
