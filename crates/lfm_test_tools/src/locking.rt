//! How threads come to hold a mutex or a monitor.

/// How the threads of a test or a load come to hold a mutex or a monitor.
#[derive(Clone, Copy, Debug, PartialEq, Eq)]
pub enum Locking {
    /// By `lock` and `enter`: a thread queues at once.
    InOrder,
    /// By `lock_barging` and `hold`: a thread tries for a bounded while before it queues.
    Barging,
}

impl Locking {
    /// The locking of this name. None if no locking has it.
    pub fn named(name: &str) -> Option<Locking> {
        match name {
            "in_order" => Some(Locking::InOrder),
            "barging" => Some(Locking::Barging),
            _ => None,
        }
    }

    /// The name.
    pub fn name(self) -> &'static str {
        match self {
            Locking::InOrder => "in_order",
            Locking::Barging => "barging",
        }
    }
}
