//! The texts of reports and of faults.

use lfm_model::Refusal;
use lfm_script::{Row, WorkFault, write_fault, write_report};
use std::test::Fail;

#[test]
fn a_report_is_written(rt: HostRuntime) -> Result<(), Fail> {
    let spent = Row {
        worker: 1,
        count: 2056,
        sum: 2057,
        refused: Some(Refusal::Spent),
    };
    let idle = Row {
        worker: 2,
        count: 0,
        sum: 0,
        refused: None,
    };
    let mut text = Vec::new(rt.alloc());
    write_report(&mut text, &[spent, idle], 2057, true)?;
    let wanted =
        b"worker 1 adds 2056 sum 2057 refused Spent\nworker 2 adds 0 sum 0\ntotal 2057\nlawful\n";
    assert!(rt; text.as_slice() == wanted.as_slice());
    Ok(())
}

#[test]
fn an_unlawful_run_is_reported(rt: HostRuntime) -> Result<(), Fail> {
    let mut text = Vec::new(rt.alloc());
    write_report(&mut text, &[], 18_446_744_073_709_551_615, false)?;
    let wanted = b"total 18446744073709551615\nunlawful\n";
    assert!(rt; text.as_slice() == wanted.as_slice());
    Ok(())
}

#[test]
fn faults_are_written(rt: HostRuntime) -> Result<(), Fail> {
    let mut text = Vec::new(rt.alloc());
    write_fault(&mut text, WorkFault::Syntax(17))?;
    write_fault(&mut text, WorkFault::Limit)?;
    assert!(rt; text.as_slice() == b"fault Syntax 17\nfault Limit\n".as_slice());
    Ok(())
}
