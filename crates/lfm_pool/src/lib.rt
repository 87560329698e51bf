//! A pool of mutexes: many mutexes in one table of words, and seats that belong to all of them. A thread needs one seat for
//! all mutexes of a pool, and a seat has one link word and one wake word, whatever their number. A mutex of a pool guards no
//! value.
//!
//! A program opens a pool by `Pool::new`, and gives each thread one of its seats; or by `Pool::with_free_seats`, which makes no
//! list of the seats, since each is made when it is taken. The calls are in three modules: those in `calls` never wait, those in
//! `lock` may sleep, and those in `reading` tell who holds a mutex and how many want it. Each is passed the number of the
//! mutex. `any_depth` has what they are made of: the calls of a seat that is at rest, on the part of the seat that the table
//! knows. Below it stand the calls of a seat that does not hold the mutex or holds it once (`try_lock`, `ask`, `finish_ask`,
//! `ask_all`, `receive`, `unlock`), those of a seat that holds it already (`deepen`), and then single steps.
//!
//! The other modules have the rule that the words of a pool keep, and each step on the words of a mutex and on the link and wake
//! words of seats.
//!
//! A step that stores a grant leaves a wake-up: `wake_up` has its type. It has no `Drop`, so a path of the code that loses a
//! wake-up does not compile.
//!
//! The popped records of a mutex are a chain in the link words of their seats, and its carried word names the oldest. A call
//! that carries a mutex collects the queued records into that chain, and serves the oldest: an `unlock` does so if other
//! seats want the mutex, and a `lock` that has taken a post over. The carried word also has how many holds the owner of the
//! mutex has beyond its first.
//!
//! A seat counts the posts of its unlocks in all mutexes by one counter, from which each post takes its number, and its takes
//! by another. So a seat needs no counter for each mutex. Stamps and numbers of posts have 48 bits. An `ask` sees by a load
//! of the push word whether a stamp is left, and a seat acquires nothing once it has used half of its numbers of posts.
#![tactic(auto)]

mod accesses;
mod admission;
mod any_depth;
mod ask;
mod ask_all;
mod barging;
pub mod calls;
mod chain;
mod collect;
mod deepen;
mod depth;
mod fast_paths;
mod finish_ask;
pub mod free_seats;
mod handoff;
pub mod laws;
pub mod layout;
pub mod lock;
mod moves;
pub mod pool;
mod push;
pub mod reading;
mod receive;
pub mod rule;
pub mod seat;
mod seat_words;
mod serve;
mod step;
mod try_lock;
mod unlock;
pub mod view;
pub mod wake_up;
