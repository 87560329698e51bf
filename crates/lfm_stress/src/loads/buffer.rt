//! `buffer`: two threads put the numbers 1, 2, 3 and so on into a bounded buffer, the first the odd ones and the second the
//! even ones, and two take them out. A monitor guards the buffer. It has two conditions: a thread that finds the buffer full
//! waits on one, and a thread that finds it empty on the other. Each tenth of a run has a monitor of its own, whose journal has
//! room for all entries of its threads.
ghost use Rattle.std.specs.Prelude.{◌≡◌, ◌+◌, ◌*◌, ◌≤◌, All, IfOk};
ghost use Rattle.lfm_monitor.specs.Belongs.{OfMonitor};

use crate::plan::Plan;
use crate::progress::{TENTHS, Tenth};
use crate::sums::Sums;
use lfm_buffer::{Buffer, BufferOp, BufferReply};
use lfm_model::{Refusal, replay};
use lfm_monitor::{CriticalSection, Monitor, Pass};
use lfm_mutex::Pace;
use lfm_test_tools::locking::Locking;
use std::alloc::{AllocError, Global};
use std::io;
use std::sync::Wait;
use std::sync::atomic::{AtomicU64, Ordering};
use std::thread::{Threads, map_vec};
use std::time::Clock;

/// Two threads put in, and two take out.
const MOVERS: u64 = 4;

/// The conditions of the monitor. A thread that found the buffer empty waits on the first, and one that found it full on the
/// second.
const NOT_EMPTY: u64 = 1;

const NOT_FULL: u64 = 2;

/// The items of a tenth, and how many of them have been taken out.
#[derive(Drop)]
pub struct Delivery {
    tenth: Tenth,
    /// How the threads acquire the monitor.
    locking: Locking,
    /// How many items were taken out.
    got: AtomicU64,
    /// Their sum.
    sum: AtomicU64,
}

impl Delivery {
    /// The items of this tenth, of which none has been taken out.
    fn new(tenth: Tenth, locking: Locking) -> Delivery {
        Delivery {
            tenth,
            locking,
            got: AtomicU64::new(0),
            sum: AtomicU64::new(0),
        }
    }
}

/// Sends the items of this plan through the buffer, and prints after each tenth how far it is. It requests memory, starts
/// threads and joins them all. It is an error if the number of processors or the time can't be read, a line can't be written,
/// or there is no memory.
pub fn run<R: Threads + Wait + Sync + Clock + AllocGlobal + Print>(
    rt: &R,
    plan: Plan,
) -> io::Result<Sums> {
    let pace = Pace::of_machine(rt)?;
    let mut made = 0u64;
    let mut number = 0u64;
    for done in 0..TENTHS {
        let tenth = Tenth::of(plan, done);
        let delivery = Delivery::new(tenth, plan.locking());
        let sums = move_tenth(rt, rt.alloc(), pace, delivery)?;
        made = made.wrapping_add(sums.made);
        number = number.wrapping_add(sums.number);
        tenth.print(rt, plan)?;
    }
    Ok(Sums {
        made,
        woken: 0,
        number,
    })
}

/// Sends these items through the buffer. An item counts if a thread took it out and the journal has it in order.
fn move_tenth<R: Threads + Wait + Sync>(
    rt: &R,
    alloc: Global,
    pace: Pace,
    delivery: Delivery,
) -> Result<Sums, AllocError> {
    let made = moved(rt, alloc, pace, &delivery)?;
    Ok(Sums {
        made: made.min(delivery.got.load(Ordering::SeqCst)),
        woken: 0,
        number: delivery.sum.load(Ordering::SeqCst),
    })
}

/// How many journal entries each thread may write in a tenth. An item costs it two, a take and an op, and so does each wait. A
/// wait ends by a wake-up, and each condition has one wake-up for each item. So a thread with half of the items writes at most
/// three entries for each item of the tenth, even if it gets all wake-ups of its condition.
fn entries_of(tenth: Tenth) -> u64 {
    tenth
        .to
        .saturating_sub(tenth.from)
        .saturating_mul(3)
        .saturating_add(8)
}

/// A monitor around an empty buffer, with this pace, and a pass for each mover, which may write this number of entries. It
/// requests memory.
fn new_monitor(
    alloc: Global,
    pace: Pace,
    entries: u64,
) -> Result<(Monitor<Buffer>, Vec<Pass<Buffer>>), AllocError>
    ensures { IfOk result (λ r. All (λ p. OfMonitor p r.0) r.1.items) }
{
    let Ok((mut monitor, passes)) = Monitor::new(alloc, MOVERS, entries, 2, Buffer::new()) else {
        return Err(AllocError);
    };
    monitor.set_pace(pace);
    Ok((monitor, passes))
}

/// Sends the items of a tenth through the buffer. Returns how many of them the journal has in order.
fn moved<R: Threads + Wait + Sync>(
    rt: &R,
    alloc: Global,
    pace: Pace,
    delivery: &Delivery,
) -> Result<u64, AllocError> {
    let (monitor, passes) = new_monitor(alloc, pace, entries_of(delivery.tenth))?;
    let passes = move_all(rt, &monitor, delivery, passes)?;
    let Ok((_, journal)) = monitor.close(passes) else {
        return Ok(0);
    };
    let (_, replies) = replay(alloc, Buffer::new(), &journal)?;
    Ok(in_turn(delivery.tenth, &replies))
}

/// Each pass works in a thread of its own.
fn move_all<R: Threads + Wait + Sync>(
    rt: &R,
    monitor: &Monitor<Buffer>,
    delivery: &Delivery,
    passes: Vec<Pass<Buffer>>,
) -> Result<Vec<Pass<Buffer>>, AllocError>
    requires { All (λ p. OfMonitor p monitor.now) passes.items }
    ensures { IfOk result (λ v. All (λ p. OfMonitor p monitor.now) v.items) }
{
    let passes = map_vec(
        rt,
        passes,
        &|pass: Pass<Buffer>| -> Pass<Buffer>
            requires { OfMonitor pass monitor.now }
            ensures { OfMonitor result monitor.entry.now }
        { work(rt, monitor, delivery, pass) },
    )?;
    Ok(passes)
}

/// What a thread does with its pass, which it hands back: passes 1 and 2 put items in, and the others take them out.
fn work<R: Wait>(
    rt: &R,
    monitor: &Monitor<Buffer>,
    delivery: &Delivery,
    mut pass: Pass<Buffer>,
) -> Pass<Buffer>
    requires { OfMonitor pass monitor.now }
    ensures { OfMonitor result monitor.now }
{
    let number = pass.number().get();
    'turns: for turn in delivery.tenth.from..delivery.tenth.to {
        if turn % 2 == number % 2 {
            continue;
        }
        let moved = if number <= 2 {
            put(rt, monitor, delivery, &mut pass, turn.wrapping_add(1))
        } else {
            take(rt, monitor, delivery, &mut pass)
        };
        if moved.is_err() {
            break;
        }
    }
    pass
}

/// A section that puts an item into the buffer, or takes one out, as soon as it can. Then it wakes one thread that waits for
/// what the move brought: an item, or room. It answers the item that was taken out, or 0 if one was put in.
#[derive(Clone, Copy)]
struct Move {
    op: BufferOp,
}

impl<R: Wait> CriticalSection<Buffer, R> for Move {
    type Answer = u64;

    /// Makes the move, and wakes one thread that waits for what it brought. The number of the round is not used.
    fn execute(
        &self,
        rt: &R,
        monitor: &Monitor<Buffer>,
        pass: &mut Pass<Buffer>,
        round: u64,
    ) -> Result<u64, Refusal> {
        let _round = round;
        let (needed, brought) = match self.op {
            BufferOp::Put(_) => (NOT_FULL, NOT_EMPTY),
            BufferOp::Take => (NOT_EMPTY, NOT_FULL),
        };
        let item = make(rt, monitor, pass, self.op, needed)?;
        monitor.wake_one(rt, pass, brought)?;
        Ok(item)
    }
}

/// Makes a move in a hold of the monitor that begins by the delivery's locking. Returns what the move answers.
fn execute<R: Wait>(
    rt: &R,
    monitor: &Monitor<Buffer>,
    delivery: &Delivery,
    pass: &mut Pass<Buffer>,
    section: Move,
) -> Result<u64, Refusal>
    requires { OfMonitor pass.old monitor.now }
    ensures { OfMonitor pass.new monitor.now }
{
    match delivery.locking {
        Locking::InOrder => {
            monitor.enter(rt, pass)?;
            let item = section.execute(rt, monitor, pass, 0)?;
            monitor.leave(pass)?;
            Ok(item)
        }
        Locking::Barging => monitor.hold(rt, pass, 0, &section),
    }
}

/// Puts this item into the buffer.
fn put<R: Wait>(
    rt: &R,
    monitor: &Monitor<Buffer>,
    delivery: &Delivery,
    pass: &mut Pass<Buffer>,
    item: u64,
) -> Result<(), Refusal>
    requires { OfMonitor pass.old monitor.now }
    ensures { OfMonitor pass.new monitor.now }
{
    let section = Move {
        op: BufferOp::Put(item),
    };
    execute(rt, monitor, delivery, pass, section)?;
    Ok(())
}

/// Takes an item out of the buffer, and counts it.
fn take<R: Wait>(
    rt: &R,
    monitor: &Monitor<Buffer>,
    delivery: &Delivery,
    pass: &mut Pass<Buffer>,
) -> Result<(), Refusal>
    requires { OfMonitor pass.old monitor.now }
    ensures { OfMonitor pass.new monitor.now }
{
    let section = Move { op: BufferOp::Take };
    let item = execute(rt, monitor, delivery, pass, section)?;
    delivery.got.fetch_add(1, Ordering::SeqCst);
    delivery.sum.fetch_add(item, Ordering::SeqCst);
    Ok(())
}

/// Makes this op of the buffer, which the pass holds, until it succeeds. Before each further try it waits on the condition.
/// Returns the item that was taken out, or 0 if one was put in.
fn make<R: Wait>(
    rt: &R,
    monitor: &Monitor<Buffer>,
    pass: &mut Pass<Buffer>,
    op: BufferOp,
    condition: u64,
) -> Result<u64, Refusal>
    requires { OfMonitor pass.old monitor.now }
    ensures { OfMonitor pass.new monitor.now }
{
    'tries: for _ in rt.forever() {
        match monitor.apply(pass, op)? {
            BufferReply::Stored => return Ok(0),
            BufferReply::Taken(item) => return Ok(item),
            BufferReply::Full | BufferReply::Empty => {}
        }
        monitor.wait(rt, pass, condition)?;
    }
    unreachable!()
}

/// How many items of a tenth the replies have in the order in which their thread put them in. An item counts once, and only
/// after all items that its thread put in before it.
fn in_turn(tenth: Tenth, replies: &[BufferReply]) -> u64 {
    let mut due = (tenth.from.wrapping_add(1), tenth.from.wrapping_add(2));
    let mut count = 0u64;
    for reply in replies {
        if let BufferReply::Taken(item) = reply {
            if *item == due.0 {
                due.0 = due.0.wrapping_add(2);
                count = count.wrapping_add(1);
            } else if *item == due.1 {
                due.1 = due.1.wrapping_add(2);
                count = count.wrapping_add(1);
            }
        }
    }
    count
}
