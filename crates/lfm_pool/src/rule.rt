//! The rule of a pool's table, and how a seat is split off.
ghost use Rattle.lfm_pool.specs.Posts.{HeldPosts};
ghost use Rattle.lfm_pool.specs.Rule.{first_pool_view, left_view, right_view};

use crate::view::PoolView;
use atomic_table::{Split, TableRule};
use lfm_protocol::Limits;

/// What the table receives when it opens: how many mutexes there are, and the limits of each.
#[derive(Drop)]
pub struct PoolKey {
    pub mutexes: usize,
    pub limits: Limits,
}

/// The rule of a pool's table. The table has no slots.
pub struct PoolRule;

impl TableRule<u64, PoolView, PoolKey> for PoolRule {
    ghost holds = { λ _. HeldPosts };

    ghost first = { λ key. first_pool_view key.mutexes key.limits };
}

/// Splits a new seat off the first one.
pub struct PoolSplit;

impl Split<PoolView> for PoolSplit {
    ghost left = { left_view };

    ghost right = { right_view };
}
