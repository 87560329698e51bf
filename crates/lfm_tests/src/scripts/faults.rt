//! Texts that are not scripts, and the fault that is answered for each.
use lfm_script::{WorkFault, read_script};
use std::alloc::{AllocError, Global};
use std::process::Abort;

/// The fault of a text, if it has one.
fn fault_of(alloc: Global, text: &[u8]) -> Option<WorkFault> {
    read_script(alloc, text).err()
}

/// Checks that each of these texts has this fault, or no fault if `wanted` is None.
fn each_has<R: AllocGlobal + Abort>(rt: &R, texts: &[&[u8]], wanted: Option<WorkFault>) {
    for (index, text) in texts.iter().enumerate() {
        assert_eq!(*rt; fault_of(rt.alloc(), text), wanted, "text {index}");
    }
}

#[test]
fn numbers_out_of_range(rt: HostRuntime) {
    let texts: [&[u8]; 14] = [
        b"workers 0 0",
        b"workers 4096 0",
        b"workers 999999999999999999 0",
        b"workers 1 17",
        b"workers 1 0\n1 one 1",
        b"workers 1 0\n2 add 1",
        b"workers 1 0\n0 add 1",
        b"workers 1 0\n1 add 1000000001",
        b"workers 1 1\n1 until 1 1000000001",
        b"workers 1 1\n1 until 2 1",
        b"workers 1 1\n1 until 0 1",
        b"workers 1 1\n1 all 2",
        b"workers 1 1\n1 one 0",
        b"workers 1 1\n999999999999999999 all 1",
    ];
    each_has(&rt, &texts, Some(WorkFault::Limit));
}

#[test]
fn largest_numbers(rt: HostRuntime) {
    let texts: [&[u8]; 6] = [
        b"workers 4095 16",
        b"workers 1 0",
        b"workers 1 0\n1 add 1000000000",
        b"workers 1 0\n1 add 0",
        b"workers 4095 16\n4095 until 16 1000000000",
        b"workers 4095 16\n4095 one 16\n4095 all 16\n",
    ];
    each_has(&rt, &texts, None);
}

#[test]
fn first_lines(rt: HostRuntime) {
    let texts: [&[u8]; 14] = [
        b"",
        b"\n",
        b"workers 2",
        b"workers 2 1 1",
        b"Workers 2 1",
        b"workers  2 1",
        b" workers 2 1",
        b"workers 2 1 ",
        b"workers 02 1",
        b"workers 2 1\r\n",
        b"workers 1000000000000000000 0",
        b"workers -1 0",
        b"seats 2 1",
        b"1 add 1",
    ];
    each_has(&rt, &texts, Some(WorkFault::Syntax(1)));
}

#[test]
fn later_lines(rt: HostRuntime) {
    let texts: [&[u8]; 14] = [
        b"workers 1 1\n1 add",
        b"workers 1 1\n\n",
        b"workers 1 1\n1 add 1 1",
        b"workers 1 1\n1 until 1",
        b"workers 1 1\n1 until 1 1 1",
        b"workers 1 1\n1 one",
        b"workers 1 1\n1 all 1 1",
        b"workers 1 1\n1 sub 1",
        b"workers 1 1\n1 add 1000000000000000000",
        b"workers 1 1\n1 add 01",
        b"workers 1 1\n1  add 1",
        b"workers 1 1\nadd 1 1",
        b"workers 1 1\nworkers 1 1",
        // a fault of syntax is answered before a limit, and the first fault of syntax before others
        b"workers 0 99\n1 add\n1 ad 1\n",
    ];
    each_has(&rt, &texts, Some(WorkFault::Syntax(2)));
}

/// A script of this many lines.
fn long_script(alloc: Global, lines: usize) -> Result<Vec<u8>, AllocError> {
    let mut text = Vec::new(alloc);
    text.extend_from_slice(b"workers 1 0\n")?;
    for _ in 1..lines {
        text.extend_from_slice(b"1 add 1\n")?;
    }
    Ok(text)
}

#[test]
fn most_lines(rt: HostRuntime) -> Result<(), AllocError> {
    let text = long_script(rt.alloc(), 65_536)?;
    assert_eq!(rt; fault_of(rt.alloc(), &text), None);
    let text = long_script(rt.alloc(), 65_537)?;
    assert_eq!(rt; fault_of(rt.alloc(), &text), Some(WorkFault::Limit));
    Ok(())
}

#[test]
fn most_bytes(rt: HostRuntime) -> Result<(), AllocError> {
    let text = Vec::from_elem(rt.alloc(), 0u8, 1_048_576)?;
    assert_eq!(rt; fault_of(rt.alloc(), &text), Some(WorkFault::Syntax(1)));
    let text = Vec::from_elem(rt.alloc(), 0u8, 1_048_577)?;
    assert_eq!(rt; fault_of(rt.alloc(), &text), Some(WorkFault::Limit));
    Ok(())
}
