//! A mutex with two condvars that threads call: their parts, the calls, how it is made and closed, and the threads' tasks.

pub mod calls;
pub mod dealing;
pub mod parts;
pub mod tasks;
