//! What a program prints on standard error when it ends.

/// If a fault ended the program early, prints the program's name and then the fault on standard error. A message that can't be
/// written is dropped.
pub fn tell_fault<R: Eprint>(rt: &R, program: &'static str, fault: Option<&'static str>) {
    if let Some(fault) = fault {
        let _ = rt.eprint(program);
        let _ = rt.eprintln(fault);
    }
}
