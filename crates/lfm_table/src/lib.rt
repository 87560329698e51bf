//! The words of a running mutex and the seats at them: what a seat knows, the rule that words and seats keep, and the atomic
//! operation of each kind of step. The fast paths make their steps by `steps`. What a step does with the slot is in `slot`, and
//! what it does in the seat's own memory is in `transition`. Other modules open and close a table, let a thread sleep on a wake
//! word, and wake it. The calls are in `lfm_mutex`.
#![tactic(auto)]

pub mod kept;
pub mod laws;
pub mod layout;
pub mod moving_box;
pub mod operations;
pub mod rule;
pub mod seat_view;
pub mod shared_table;
pub mod slot;
pub mod table_seat;
pub mod table_steps;
pub mod transition;
mod value_mut;
pub mod wake_up;

pub use kept::Kept;
pub use shared_table::off_trail::OffTrail;
pub use shared_table::parking;
pub use table_seat::TableSeat;
pub use wake_up::WakeUp;
