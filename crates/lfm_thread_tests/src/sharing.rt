//! Threads that share a value, each with a job of its own.
use crate::seeing::sees;
use lfm_threads::share;
use std::sync::Barrier;
use std::test::Fail;

#[test]
fn jobs_that_wait_for_one_another(rt: HostRuntime) -> Result<(), Fail> {
    let barrier = Barrier::new(3);
    let jobs = vec![in rt.alloc(); 5u64, 6, 7]?;
    let r = &rt;
    let halves = share(
        &rt,
        &barrier,
        jobs,
        &|barrier: &Barrier, job: u64| -> u64 {
            barrier.wait(r);
            job / 2
        },
    )?;
    assert_eq!(rt; halves.as_slice(), [2, 3, 3].as_slice());
    Ok(())
}

#[test]
fn no_job_needs_no_thread(rt: HostRuntime) -> Result<(), Fail> {
    let halves = share(
        &rt,
        &2u64,
        Vec::new(rt.alloc()),
        &|_: &u64, job: u64| -> u64 { job / 2 },
    )?;
    sees(&rt, "the results", &halves.len(), &0);
    Ok(())
}
