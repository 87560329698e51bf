//! The running mutex: a verified lock-free, sleeping, recursive mutex over a table of atomic words. At every moment its words
//! and seats are a steady state of the core. The value that a holder finds follows from the value that it left last by steps of
//! other seats, and each of these steps is one that `Kept` of the value allows. Start reading at `Mutex` (file `mutex`): its
//! head says which call is in which file.
#![tactic(auto)]

mod barging;
mod calls;
mod close;
pub mod conditions;
pub mod deadlines;
mod debug;
pub mod holder;
pub mod laws;
mod lock;
pub mod mutex;
mod open;
mod owner;
mod pace;
mod push;
mod receive;
mod rounds;
pub mod run_laws;
pub mod seat;
mod sections;
mod send;
mod serve;
pub mod steps;
mod stops;
mod try_lock;
mod try_lock_for;
mod unlock;
mod value_mut;
mod wait;
mod wake;

pub use holder::Holder;
pub use lfm_table::{Kept, WakeUp};
pub use lfm_threads::{NotStarted, StartFault};
pub use mutex::Mutex;
pub use pace::{POLLS_BEFORE_SLEEP, Pace};
pub use seat::Seat;
