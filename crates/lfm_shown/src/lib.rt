//! What programs show of a state and of its events: the names of steps, the content of words, the abstract case of a step,
//! what a seat has in a state and does next, and lines for starts of calls and for steps.
#![tactic(auto)]

pub mod cases;
pub mod events;
pub mod graphs;
pub mod next_steps;
pub mod seats;
pub mod step_names;
pub mod successors;
pub mod values;

pub use cases::{Case, next_case};
pub use events::{ShownStart, ShownStep};
pub use graphs::{GraphFault, Texts};
pub use next_steps::write_next;
pub use seats::write_seat;
pub use step_names::{call_name, kind_name, step_name};
pub use successors::{Event, MadeEvent, Shown};
pub use values::{Value, value_of, write_value, write_word};
