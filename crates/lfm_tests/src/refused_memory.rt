//! What a test prints on standard output if its call answered that memory was refused. The script that refuses memory requires
//! that line. A test that passes without it got another answer, although a request was refused.
use crate::seeing::sees;
use std::fmt::Debug;
use std::process::Abort;

/// Prints that a call answered that memory was refused.
pub fn tells_refused<R: Abort + Print>(rt: &R) {
    let told = println!(rt; "memory was refused");
    assert!(rt; told.is_ok(), "the line was not written");
}

/// Checks that a fault is that of refused memory, and prints so.
pub fn sees_memory<R: Abort + Print, F: PartialEq + Debug>(rt: &R, fault: &F, memory: &F) {
    sees(rt, "the fault", fault, memory);
    tells_refused(rt);
}
