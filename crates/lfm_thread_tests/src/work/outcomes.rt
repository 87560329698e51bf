//! The exit status of each outcome.

use lfm_core::ReplayFault;
use lfm_program::{WorkFault, replay_status, status};

#[test]
fn each_run_has_its_status(rt: HostRuntime) {
    for (outcome, wanted) in [
        (Ok(true), 0),
        (Ok(false), 1),
        (Err(WorkFault::Syntax(3)), 1),
        (Err(WorkFault::Limit), 1),
        (Err(WorkFault::Read), 3),
        (Err(WorkFault::Write), 3),
        (Err(WorkFault::Memory), 4),
        (Err(WorkFault::Stuck), 5),
    ] {
        assert_eq!(rt; status(&outcome), wanted, "{outcome:?}");
    }
}

#[test]
fn each_replay_has_its_status(rt: HostRuntime) {
    for (outcome, wanted) in [
        (Ok(true), 0),
        (Ok(false), 1),
        (Err(ReplayFault::Syntax(3)), 1),
        (Err(ReplayFault::Limit), 1),
        (Err(ReplayFault::Read), 3),
        (Err(ReplayFault::Write), 3),
        (Err(ReplayFault::Memory), 4),
    ] {
        assert_eq!(rt; replay_status(&outcome), wanted, "{outcome:?}");
    }
}
