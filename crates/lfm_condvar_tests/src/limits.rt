//! Sizes that a condvar can't have.
use lfm_condvar::Condvar;
use lfm_model::NewFault;
use lfm_protocol::MAX_BUDGET;
use std::alloc::Global;

/// Why a condvar of this size is refused, if it is.
fn fault(alloc: Global, seats: u64, budget: u64) -> Option<NewFault> {
    match Condvar::new(alloc, seats, budget) {
        Ok(_) => None,
        Err(fault) => Some(fault),
    }
}

#[test]
fn limits(rt: HostRuntime) {
    for (seats, budget) in [(0, 1), (4_096, 1), (1, 0), (1, MAX_BUDGET + 1)] {
        assert_eq!(rt; fault(rt.alloc(), seats, budget), Some(NewFault::Limit));
    }
    assert_eq!(rt; fault(rt.alloc(), 4_095, MAX_BUDGET), None);
}
