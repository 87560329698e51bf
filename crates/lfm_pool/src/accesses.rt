//! Accesses to the words of a pool.
ghost use Rattle.std.specs.Prelude.{◌≡◌};
ghost use Rattle.lfm_table.specs.Accesses.{word_at};

use lfm_table::operations::Access;

/// One atomic access to a word of a pool.
#[derive(Clone, Copy)]
pub struct PoolAccess {
    /// The index of the word in the pool's table.
    pub index: usize,

    /// The access. Its index is the one that the word has at the table that the mutex would have by itself.
    pub access: Access,
}

/// The index of the word that is accessed, at the table of the mutex.
#[inline(always)]
pub fn word_of(access: Access) -> usize
    ensures { result ≡ word_at access }
{
    match access {
        Access::Load(word) => word,
        Access::Store(word, _) => word,
        Access::FetchAdd(word, _) => word,
        Access::FetchSub(word, _) => word,
        Access::FetchAnd(word, _) => word,
        Access::CompareExchange(word, _, _) => word,
    }
}
