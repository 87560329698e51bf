//! Threads that wait at a starting line.

use lfm_program::StartingLine;
use std::sync::atomic::{AtomicBool, Ordering};
use std::thread::join;

#[test]
fn go_lets_go(rt: HostRuntime) {
    let line = StartingLine::new();
    let begun = AtomicBool::new(false);
    let (r, at_line, at_begun) = (&rt, &line, &begun);
    let (waited, _opened) = join(
        &rt,
        move || at_line.wait(r) && at_begun.load(Ordering::SeqCst),
        move || {
            at_begun.store(true, Ordering::SeqCst);
            at_line.let_go(r);
            true
        },
    );
    // The thread that waited went on, and not before.
    assert!(rt; waited);
    // A thread that comes later does not wait.
    assert!(rt; line.wait(&rt));
}

#[test]
fn called_off_there_is_nothing_to_do(rt: HostRuntime) {
    let line = StartingLine::new();
    let (r, at_line) = (&rt, &line);
    let (waited, _opened) = join(
        &rt,
        move || at_line.wait(r),
        move || {
            at_line.call_off(r);
            true
        },
    );
    assert!(rt; !waited);
    assert!(rt; !line.wait(&rt));
}
