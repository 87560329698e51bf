//! What a seat of a pool knows. No code reads it.
use lfm_table::seat_view::View;
use std::collections::LinkedList;

/// What a seat that carries a mutex, or holds it, knows of the words that no other seat touches then. No value of this type
/// is ever made: it is for proofs alone.
pub struct Note {
    /// How many records at the front of the pop list are not in the chain: 1 from the load of a record's link until the
    /// store of its link in the chain, else 0.
    pub due: u64,

    /// The number in the carried word of the mutex.
    pub carried: u64,
}

/// What a seat has found when it last loaded the push word of a mutex to see whether a stamp is left for its record. No value
/// of this type is ever made: it is for proofs alone.
pub struct Admission {
    /// The number in the push word.
    pub found: u64,

    /// One more than the records that the seat had pushed in this mutex then; 0 if it has made no such load.
    pub next_push: u64,
}

/// What a seat of a pool knows of one mutex: its view at the table that the mutex would have by itself, its note, and whether
/// it may push a record. No value of this type is ever made: it is for proofs alone.
pub struct Known {
    pub view: View<()>,
    pub note: Note,
    pub admission: Admission,
}

/// What a seat of a pool knows. No value of this type is ever made: it is for proofs alone.
pub struct PoolView {
    /// What it knows of each mutex.
    pub parts: LinkedList<Known>,

    /// How many posts it has made, in all mutexes.
    pub posts: u64,

    /// If its open call has loaded a post and not tried for it yet, the number of that post among all posts of the seat that
    /// made it; else 0.
    pub found: u64,
}
