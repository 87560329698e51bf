//! The means of measuring: the plan of a run, samples and the medians of their figures, the results of threads that contend,
//! how long they waited, work that takes time, a gate for threads, clocks, and rows that are printed. The bare atomic steps of
//! a mutex's calls are here too, since the calls are compared with them.
//!
//! Nothing here uses our mutex. Nothing is proved about time.
mod bare;
mod busy;
pub mod clocks;
mod contests;
mod figures;
mod gate;
mod line;
mod plan;
mod row;
mod waits;

pub use bare::{Start, Steps, bare_table};
pub use busy::{Busy, StepTime};
pub use contests::{Turns, contest};
pub use figures::{Measure, Sample, Stopwatch};
pub use gate::Gate;
pub use line::Line;
pub use plan::{Mode, Plan};
pub use row::{Column, Peer, Round, Row};
pub use waits::{Waits, Watching};
