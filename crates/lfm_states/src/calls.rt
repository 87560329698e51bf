//! Which calls seats may begin in a graph that is printed.
use lfm_core::Call;
use lfm_shown::call_name;

/// Which calls seats may begin.
#[derive(Clone, Copy, Debug, PartialEq, Eq)]
pub struct Calls {
    lock: bool,
    try_lock: bool,
    unlock: bool,
    receive: bool,
    start_wait: bool,
    send_lock: bool,
}

/// A call of each kind.
const KINDS: [Call; 6] = [
    Call::Lock,
    Call::TryLock,
    Call::Unlock,
    Call::Receive,
    Call::StartWait,
    Call::SendLock(1),
];

/// No call.
const NONE: Calls = Calls {
    lock: false,
    try_lock: false,
    unlock: false,
    receive: false,
    start_wait: false,
    send_lock: false,
};

/// Every call.
const ALL: Calls = Calls {
    lock: true,
    try_lock: true,
    unlock: true,
    receive: true,
    start_wait: true,
    send_lock: true,
};

/// The calls that this word names: `all`, or names with commas between them, as in `lock,unlock`. None if a name is not that of a
/// call.
pub fn calls_named(word: &str) -> Option<Calls> {
    if word == "all" {
        return Some(ALL);
    }
    let mut calls = NONE;
    for name in word.split(',') {
        if !calls.add(name) {
            return None;
        }
    }
    Some(calls)
}

impl Calls {
    /// Adds the call of this name. Returns whether there is one.
    fn add(&mut self, name: &str) -> bool {
        for call in &KINDS {
            if name == call_name(*call) {
                self.add_kind(*call);
                return true;
            }
        }
        false
    }

    /// Adds the calls of this kind, with any target.
    fn add_kind(&mut self, kind: Call) {
        match kind {
            Call::Lock => self.lock = true,
            Call::TryLock => self.try_lock = true,
            Call::Unlock => self.unlock = true,
            Call::Receive => self.receive = true,
            Call::StartWait => self.start_wait = true,
            Call::SendLock(_) => self.send_lock = true,
        }
    }

    /// Whether seats may begin this call.
    pub fn have(&self, call: Call) -> bool {
        match call {
            Call::Lock => self.lock,
            Call::TryLock => self.try_lock,
            Call::Unlock => self.unlock,
            Call::Receive => self.receive,
            Call::StartWait => self.start_wait,
            Call::SendLock(_) => self.send_lock,
        }
    }
}
