//! The laws of a pool of mutexes. Each function here does nothing: its contract is the law, and its comment names the
//! definition of the law and the file that proves it.
//!
//! The laws follow from the rule that the table of a pool keeps at every moment, whatever threads step on it: `HeldPosts` in
//! `specs/Posts.antt` of `lfm_pool`. By that rule each mutex has a table of its own, which keeps the rule of a running
//! mutex. So what `lfm_mutex` states of such a table and of its run holds of each mutex of a pool. Other laws are of pools
//! alone: what a seat may do in several mutexes, and that a step in one mutex is a step in no other.
//!
//! The words of these laws are those that the pool has in memory. A handoff word is posted exactly while that of its mutex's
//! table is. The two words have different numbers for a post: a seat numbers the posts that it makes in all mutexes by one
//! counter.
#![tactic(auto)]

pub mod run_laws;
pub mod seat_laws;
pub mod state_laws;
pub mod step_laws;

pub use run_laws::{
    mutexes_are_overtaken_once, mutexes_end_calls, mutexes_push_in_rounds,
    mutexes_run_as_the_abstract_mutex, mutexes_serve_in_push_order, mutexes_serve_in_rounds,
};
pub use seat_laws::{resting_seats_are_quiet, seats_act_in_one_mutex};
pub use state_laws::{
    calls_in_mutexes_are_bounded, mutexes_are_steady, mutexes_have_a_run, mutexes_have_one_owner,
    one_has_the_responsibility_for_each, posts_of_mutexes_are_watched,
};
pub use step_laws::steps_are_in_one_mutex;
