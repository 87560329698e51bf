//! The tables of the program: what is measured, and which figures are shown.
use crate::bench::Bench;
use crate::measure::{
    Column, Line, Measure, Mode, Peer, Plan, Row, StepTime, Steps, Watching, bare_table,
};
use crate::peers::ours::{FreeSeats, Users, new_mutex};
use crate::peers::participants::Waking;
use crate::workloads::alone::Peers;
use crate::workloads::route::Order;
use crate::workloads::{Calls, PoolWork, Work, Workload};
use std::alloc::{AllocError, Global};
use std::io;
use std::sync::Wait;
use std::thread::Threads;
use std::time::{Clock, CpuClock};

/// The name of a row, and what it measures.
type Shape = (&'static str, Workload);

/// The rows of one thread.
const ALONE: [Shape; 8] = [
    ("lock and unlock", Workload::Alone(Calls::Pairs)),
    (
        "lock_barging and unlock",
        Workload::Alone(Calls::BargingPairs),
    ),
    ("with that adds 1", Workload::Alone(Calls::Additions)),
    (
        "recursive lock and unlock",
        Workload::Alone(Calls::Recursive),
    ),
    (
        "try_lock that holds, and unlock",
        Workload::Alone(Calls::Hits),
    ),
    ("try_lock that is refused", Workload::Alone(Calls::Misses)),
    ("hand-off by one thread", Workload::Alone(Calls::Handoffs)),
    ("a poll", Workload::Alone(Calls::Polls)),
];

/// The rows of mutexes of a pool.
const OF_POOL: [Shape; 7] = [
    (
        "lock and unlock, pool",
        Workload::Pool(PoolWork::Pairs {
            mutexes: 1,
            order: Order::InTurn,
        }),
    ),
    (
        "one of 64 mutexes, pool",
        Workload::Pool(PoolWork::Pairs {
            mutexes: 64,
            order: Order::InTurn,
        }),
    ),
    (
        "one of 4,096 mutexes, pool",
        Workload::Pool(PoolWork::Pairs {
            mutexes: 4_096,
            order: Order::Shuffled,
        }),
    ),
    (
        "one of 65,536 mutexes, pool",
        Workload::Pool(PoolWork::Pairs {
            mutexes: 65_536,
            order: Order::Shuffled,
        }),
    ),
    (
        "recursive lock and unlock, pool",
        Workload::Pool(PoolWork::Recursive),
    ),
    (
        "try_lock that is refused, pool",
        Workload::Pool(PoolWork::Misses),
    ),
    (
        "8 threads, short section, pool",
        Workload::Pool(PoolWork::Contended {
            threads: 8,
            work: SHORT_SECTION,
        }),
    ),
];

/// The rows of condition variables. A thread wakes another while it holds the mutex, and in the rows `wake after unlock` after
/// it has unlocked it.
const CONDITIONS: [Shape; 8] = [
    (
        "ping-pong, a round trip",
        Workload::PingPong(Waking::InHold),
    ),
    (
        "ping-pong, wake after unlock",
        Workload::PingPong(Waking::AfterUnlock),
    ),
    ("wake_all of 4 that wait", Workload::Broadcast(4)),
    ("wake_all of 32 that wait", Workload::Broadcast(32)),
    (
        "bounded queue, 1 to 1",
        Workload::Queue {
            threads: 1,
            waking: Waking::InHold,
        },
    ),
    (
        "queue, 1 to 1, wake after unlock",
        Workload::Queue {
            threads: 1,
            waking: Waking::AfterUnlock,
        },
    ),
    (
        "bounded queue, 4 to 4",
        Workload::Queue {
            threads: 4,
            waking: Waking::InHold,
        },
    ),
    (
        "queue, 4 to 4, wake after unlock",
        Workload::Queue {
            threads: 4,
            waking: Waking::AfterUnlock,
        },
    ),
];

/// A section that only adds 1.
const SHORT_SECTION: Work = Work {
    name: "short section",
    inside: 0,
    outside: 0,
};

/// The work of several threads. Each work has a row for each number of threads. There are no bare steps for them, since the
/// steps of contending threads are no fixed sequence.
const WORKS: [Work; 3] = [
    SHORT_SECTION,
    Work {
        name: "0.5 us section",
        inside: 500,
        outside: 0,
    },
    Work {
        name: "1 us between",
        inside: 0,
        outside: 1_000,
    },
];

/// The numbers of threads.
const THREADS: [u64; 3] = [2, 4, 8];

/// A view of some rows: which figures are shown.
struct View<'a> {
    /// What the figures are.
    head: &'a str,
    measure: Measure,
    columns: &'a [Column],
}

const VIEWS_ALONE: [View<'static>; 1] = [View {
    head: "nanoseconds a call",
    measure: Measure::Cost,
    columns: &[
        Column::Median(Peer::Ours),
        Column::Spread(Peer::Ours),
        Column::Median(Peer::Bare),
        Column::Spread(Peer::Bare),
        Column::Ratio(Peer::Ours, Peer::Bare),
        Column::Median(Peer::Standard),
        Column::Spread(Peer::Standard),
        Column::Ratio(Peer::Ours, Peer::Standard),
    ],
}];

/// The columns of each measure of several threads.
const IN_BOTH_WAYS: [Column; 8] = [
    Column::Median(Peer::InOrder),
    Column::Spread(Peer::InOrder),
    Column::Ratio(Peer::InOrder, Peer::Standard),
    Column::Median(Peer::Barging),
    Column::Spread(Peer::Barging),
    Column::Ratio(Peer::Barging, Peer::Standard),
    Column::Median(Peer::Standard),
    Column::Spread(Peer::Standard),
];

/// The columns of condition variables.
const IN_ALL_WAYS: [Column; 11] = [
    Column::Median(Peer::InOrder),
    Column::Spread(Peer::InOrder),
    Column::Ratio(Peer::InOrder, Peer::Standard),
    Column::Median(Peer::Barging),
    Column::Spread(Peer::Barging),
    Column::Ratio(Peer::Barging, Peer::Standard),
    Column::Median(Peer::Plain),
    Column::Spread(Peer::Plain),
    Column::Ratio(Peer::Plain, Peer::Standard),
    Column::Median(Peer::Standard),
    Column::Spread(Peer::Standard),
];

/// The columns of the fairness. A ratio would have no meaning there.
const FAIRNESS_IN_BOTH_WAYS: [Column; 3] = [
    Column::Median(Peer::InOrder),
    Column::Median(Peer::Barging),
    Column::Median(Peer::Standard),
];

const VIEWS_TOGETHER: [View<'static>; 3] = [
    View {
        head: "nanoseconds an acquisition",
        measure: Measure::Cost,
        columns: &IN_BOTH_WAYS,
    },
    View {
        head: "most over fewest",
        measure: Measure::Fairness,
        columns: &FAIRNESS_IN_BOTH_WAYS,
    },
    View {
        head: "processor time, ns",
        measure: Measure::ProcessorTime,
        columns: &IN_BOTH_WAYS,
    },
];

const VIEWS_OF_WAITS: [View<'static>; 2] = [
    View {
        head: "99.9 % of waits, us",
        measure: Measure::LongWait,
        columns: &IN_BOTH_WAYS,
    },
    View {
        head: "longest wait, us",
        measure: Measure::LongestWait,
        columns: &IN_BOTH_WAYS,
    },
];

/// The figures of one thread are processor time, and those of several threads are of the wall clock.
const VIEWS_OF_POOL: [View<'static>; 1] = [View {
    head: "nanoseconds, pool",
    measure: Measure::Cost,
    columns: &[
        Column::Median(Peer::Pool),
        Column::Spread(Peer::Pool),
        Column::Median(Peer::Ours),
        Column::Spread(Peer::Ours),
        Column::Ratio(Peer::Pool, Peer::Ours),
        Column::Median(Peer::Standard),
        Column::Spread(Peer::Standard),
        Column::Ratio(Peer::Pool, Peer::Standard),
    ],
}];

const VIEWS_OF_CONDITIONS: [View<'static>; 1] = [View {
    head: "nanoseconds",
    measure: Measure::Cost,
    columns: &IN_ALL_WAYS,
}];

/// Measures and prints one table after the other.
pub fn measure<R: Threads + Sync + Wait + Clock + CpuClock + AllocGlobal + Print>(
    rt: &R,
    plan: Plan,
) -> io::Result<()> {
    let (mutex, seats) = new_mutex(rt, 2, 0u64)?;
    let mut seats = FreeSeats::new(&mutex, seats);
    let (table, seat) = bare_table(rt.alloc())?;
    let standard = std::sync::Mutex::new(0u64);
    let other = seats.next_user()?;
    let user = seats.next_user()?;
    let peers = Peers {
        users: Users { user, other },
        steps: Steps::new(&table.shared, seat),
        standard: &standard,
    };
    measure_all(rt, &mut Bench { peers, plan })
}

/// Measures and prints the tables, one after the other.
fn measure_all<R: Threads + Sync + Wait + Clock + CpuClock + AllocGlobal + Print>(
    rt: &R,
    bench: &mut Bench,
) -> io::Result<()> {
    let alloc = rt.alloc();
    measure_rows(rt, bench, rows_of(alloc, &ALONE)?, &VIEWS_ALONE)?;
    measure_rows(rt, bench, rows_of(alloc, &OF_POOL)?, &VIEWS_OF_POOL)?;
    let together = rows_together(alloc, Watching::Nothing)?;
    measure_rows(rt, bench, together, &VIEWS_TOGETHER)?;
    let watched = rows_together(alloc, Watching::Waits)?;
    measure_rows(rt, bench, watched, &VIEWS_OF_WAITS)?;
    measure_rows(
        rt,
        bench,
        rows_of(alloc, &CONDITIONS)?,
        &VIEWS_OF_CONDITIONS,
    )
}

/// Rows without figures.
fn rows_of(alloc: Global, shapes: &[Shape]) -> Result<Vec<Row>, AllocError> {
    let mut rows = Vec::new(alloc);
    for (name, workload) in shapes {
        let name = String::from_str(alloc, name)?;
        rows.push(Row::new(alloc, name, *workload))?;
    }
    Ok(rows)
}

/// Rows of several threads, without figures.
fn rows_together(alloc: Global, watching: Watching) -> Result<Vec<Row>, AllocError> {
    let watched = match watching {
        Watching::Nothing => "",
        Watching::Waits => ", waits",
    };
    let mut rows = Vec::new(alloc);
    for work in WORKS {
        for threads in THREADS {
            let name = format!(in alloc; "{threads} threads, {}{watched}", work.name)?;
            let workload = Workload::Contended {
                threads,
                work,
                watching,
            };
            rows.push(Row::new(alloc, name, workload))?;
        }
    }
    Ok(rows)
}

/// Makes all rounds, each of which measures every row once, and prints the results.
fn measure_rows<R: Threads + Sync + Wait + Clock + CpuClock + AllocGlobal + Print>(
    rt: &R,
    bench: &mut Bench,
    mut rows: Vec<Row>,
    views: &[View],
) -> io::Result<()> {
    let step = StepTime::measure(rt)?;
    for _ in 0..bench.plan.rounds {
        for row in rows.iter_mut() {
            row.add(bench.round(rt, step, row.workload)?)?;
        }
    }
    match bench.plan.mode {
        Mode::Times => print_views(rt, views, &mut rows),
        Mode::Check => print_checks(rt, &rows),
    }
}

/// Prints the rows once for each view, below its head.
fn print_views<R: Print + AllocGlobal>(
    rt: &R,
    views: &[View],
    rows: &mut Vec<Row>,
) -> io::Result<()> {
    for view in views {
        let mut head = Line::new(rt.alloc(), view.head)?;
        for column in view.columns {
            head.add(column.title())?;
        }
        head.print(rt)?;
        for row in rows.iter_mut() {
            row.print(rt, view.measure, view.columns)?;
        }
    }
    Ok(())
}

/// Prints for each row whether its calls did what they should.
fn print_checks<R: Print>(rt: &R, rows: &Vec<Row>) -> io::Result<()> {
    for row in rows {
        row.print_check(rt)?;
    }
    Ok(())
}
