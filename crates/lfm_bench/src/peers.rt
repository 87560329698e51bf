//! The peers that are measured: our mutex with both kinds of condvars, our pool of mutexes, and std's.
pub mod guarded;
pub mod morphing;
pub mod only_user;
pub mod ours;
pub mod participants;
pub mod plain;
pub mod pools;
pub mod standard;
