//! A row of a table: a workload with the figures of its peers, and the columns in which they are printed.

use crate::measure::figures::{Figures, Measure, Quartiles, Sample, hundredths};
use crate::measure::line::Line;
use crate::workloads::Workload;
use std::alloc::{AllocError, Global};
use std::io;

/// A peer that is measured.
#[derive(Clone, Copy)]
pub enum Peer {
    /// One thread that uses our mutex.
    Ours,
    /// Several threads that lock our mutex by `lock`. If they wait, it is on condvars that put a woken thread into the queue of
    /// the mutex.
    InOrder,
    /// The same by `lock_barging`.
    Barging,
    /// Our pool of mutexes.
    Pool,
    /// Several threads that lock our mutex by `lock_barging`, and wait on plain condvars.
    Plain,
    /// The bare steps of our mutex's calls.
    Bare,
    /// Std's mutex and condvars.
    Standard,
}

impl Peer {
    /// The title of its columns.
    fn title(self) -> &'static str {
        match self {
            Peer::Ours => "ours",
            Peer::InOrder => "in order",
            Peer::Barging => "barging",
            Peer::Pool => "pool",
            Peer::Plain => "plain",
            Peer::Bare => "bare",
            Peer::Standard => "std",
        }
    }
}

/// A column of a table.
#[derive(Clone, Copy)]
pub enum Column {
    /// The median of this peer.
    Median(Peer),
    /// The spread of the rounds of this peer.
    Spread(Peer),
    /// The median of the first peer divided by that of the second.
    Ratio(Peer, Peer),
}

impl Column {
    /// Its title.
    pub fn title(self) -> &'static str {
        match self {
            Column::Median(peer) => peer.title(),
            Column::Spread(_) => "spread",
            Column::Ratio(_, _) => "ratio",
        }
    }
}

/// The samples of one round of a workload. A peer without such a call has no sample.
#[derive(Clone, Copy)]
pub struct Round {
    pub ours: Option<Sample>,
    pub in_order: Option<Sample>,
    pub barging: Option<Sample>,
    pub pool: Option<Sample>,
    pub plain: Option<Sample>,
    pub bare: Option<Sample>,
    pub standard: Option<Sample>,
}

impl Round {
    /// No peer has a sample.
    pub const NONE: Round = Round {
        ours: None,
        in_order: None,
        barging: None,
        pool: None,
        plain: None,
        bare: None,
        standard: None,
    };
}

/// A workload, and the figures of its peers. A peer without such a call has no figures.
#[derive(Drop)]
pub struct Row {
    name: String,
    /// What is measured.
    pub workload: Workload,
    ours: Figures,
    in_order: Figures,
    barging: Figures,
    pool: Figures,
    plain: Figures,
    bare: Figures,
    standard: Figures,
}

impl Row {
    /// A row without figures.
    pub fn new(alloc: Global, name: String, workload: Workload) -> Row {
        Row {
            name,
            workload,
            ours: Figures::new(alloc),
            in_order: Figures::new(alloc),
            barging: Figures::new(alloc),
            pool: Figures::new(alloc),
            plain: Figures::new(alloc),
            bare: Figures::new(alloc),
            standard: Figures::new(alloc),
        }
    }

    /// Adds the samples of a round.
    pub fn add(&mut self, round: Round) -> Result<(), AllocError> {
        self.ours.add_if_any(round.ours)?;
        self.in_order.add_if_any(round.in_order)?;
        self.barging.add_if_any(round.barging)?;
        self.pool.add_if_any(round.pool)?;
        self.plain.add_if_any(round.plain)?;
        self.bare.add_if_any(round.bare)?;
        self.standard.add_if_any(round.standard)
    }

    /// Prints the name, and whether each call did what it should.
    pub fn print_check<R: Print>(&self, rt: &R) -> io::Result<()> {
        let exact = self.ours.is_exact()
            && self.in_order.is_exact()
            && self.barging.is_exact()
            && self.pool.is_exact()
            && self.plain.is_exact()
            && self.bare.is_exact()
            && self.standard.is_exact();
        let name = self.name.as_str();
        let verdict = if exact { "exact" } else { "not exact" };
        println!(rt; "{name}: {verdict}")
    }

    /// Prints the figures of a measure in these columns.
    pub fn print<R: Print + AllocGlobal>(
        &mut self,
        rt: &R,
        measure: Measure,
        columns: &[Column],
    ) -> io::Result<()> {
        let mut line = Line::new(rt.alloc(), &self.name)?;
        for column in columns {
            self.add_cell(measure, *column, &mut line)?;
        }
        line.print(rt)
    }

    /// Adds the cell of a column.
    fn add_cell(
        &mut self,
        measure: Measure,
        column: Column,
        line: &mut Line,
    ) -> Result<(), AllocError> {
        match column {
            Column::Median(peer) => line.add_median(measure, self.quartiles(peer, measure)),
            Column::Spread(peer) => line.add_spread(self.quartiles(peer, measure)),
            Column::Ratio(peer, other) => {
                let figures = self.quartiles(peer, measure);
                let others = self.quartiles(other, measure);
                let (Some(figures), Some(others)) = (figures, others) else {
                    return line.add("-");
                };
                line.add_hundredths(hundredths(figures.median, others.median))
            }
        }
    }

    /// The figures of a peer. None if it was not measured.
    fn quartiles(&mut self, peer: Peer, measure: Measure) -> Option<Quartiles> {
        match peer {
            Peer::Ours => self.ours.quartiles(measure),
            Peer::InOrder => self.in_order.quartiles(measure),
            Peer::Barging => self.barging.quartiles(measure),
            Peer::Pool => self.pool.quartiles(measure),
            Peer::Plain => self.plain.quartiles(measure),
            Peer::Bare => self.bare.quartiles(measure),
            Peer::Standard => self.standard.quartiles(measure),
        }
    }
}
