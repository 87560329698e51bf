//! Sizes that a monitor can't have.
use crate::seeing::sees;
use lfm_model::{NewFault, Total};
use lfm_monitor::{MAX_CONDITIONS, Monitor};
use lfm_test_tools::counted::Counted;
use std::alloc::Global;
use std::sync::atomic::{AtomicU64, Ordering};

/// Why no monitor of these sizes is made. None if one is.
fn refused(alloc: Global, passes: u64, entries: u64, conditions: u64) -> Option<NewFault> {
    Monitor::new(alloc, passes, entries, conditions, Total(0)).err()
}

/// The same if its conditions are plain.
fn refused_plain(alloc: Global, passes: u64, entries: u64, conditions: u64) -> Option<NewFault> {
    Monitor::with_plain_conditions(alloc, passes, entries, conditions, Total(0)).err()
}

/// Numbers of passes, entries and conditions that no monitor can have.
const TOO_FEW_OR_MANY: [(u64, u64, u64); 5] = [
    (0, 1, 0),
    (4_096, 1, 0),
    (1, 0, 0),
    (2, 524_289, 0),
    (1, 1, MAX_CONDITIONS + 1),
];

#[test]
fn limits(rt: HostRuntime) {
    for (passes, entries, conditions) in TOO_FEW_OR_MANY {
        assert_eq!(rt;
            refused(rt.alloc(), passes, entries, conditions),
            Some(NewFault::Limit),
            "{passes} passes, {entries} entries, {conditions} conditions"
        );
        assert_eq!(rt;
            refused_plain(rt.alloc(), passes, entries, conditions),
            Some(NewFault::Limit),
            "{passes} passes, {entries} entries, {conditions} plain conditions"
        );
    }
    assert_eq!(rt; MAX_CONDITIONS, 16);
    assert_eq!(rt; refused(rt.alloc(), 3, 2, MAX_CONDITIONS), None);
    assert_eq!(rt; refused_plain(rt.alloc(), 3, 2, MAX_CONDITIONS), None);
}

#[test]
fn a_refused_size_drops_the_object(rt: HostRuntime) {
    for (passes, entries, conditions) in TOO_FEW_OR_MANY {
        let drops = AtomicU64::new(0);
        let object = Counted { drops: &drops };
        let fault = Monitor::new(rt.alloc(), passes, entries, conditions, object).err();
        sees(&rt, "the fault", &fault, &Some(NewFault::Limit));
        sees(&rt, "one drop", &drops.load(Ordering::SeqCst), &1);
    }
}
