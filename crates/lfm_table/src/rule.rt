//! The rule of the table: what moves with the responsibility, what the table receives when it opens, and what a seat learns by
//! each kind of access.
ghost use Rattle.std.specs.Prelude.{Option, None};
ghost use Rattle.lfm_protocol.specs.declared.seats.SeatState.{SeatState};
ghost use Rattle.lfm_protocol.specs.Seats.{absent};
ghost use Rattle.lfm_table.specs.declared.seat_view.View.{View};
ghost use Rattle.lfm_table.specs.Rule.{Held, Advanced, ReadsOwner, first_view, with_split, with_joined, joined, no_view, split_view};

use crate::kept::Kept;
use crate::moving_box::MovingBox;
use crate::seat_view::View;
use atomic_table::{Join, Play, Split, TableRule};
use lfm_protocol::{Limits, SeatState};
use lfm_words::PopList;
use std::marker::{Brand, PhantomData};
use std::snapshot::Snapshot;

/// What moves with the responsibility.
#[derive(Drop)]
pub struct Moving<T: Drop> {
    pub popped: PopList,
    pub value: T,
}

/// What the table receives when it opens.
#[derive(Drop)]
pub struct Key<T: Drop> {
    pub limits: Limits,
    pub opening: Snapshot<T>,
}

/// The rule of the table.
pub struct MutexRule;

impl<T: Kept> TableRule<Option<MovingBox<T>>, View<T>, Key<T>> for MutexRule {
    ghost holds = { λ _. Held T.follows T.fits };

    ghost first = { λ key. first_view key.limits key.opening.value };
}

/// For the proof alone: the seat's plain data before a step, and the guarded value if the seat has it. A call that passes
/// `Brand` lets its proof choose them.
pub trait Plain<T> {
    ghost state: { SeatState };

    ghost hand: { Option T };
}

impl<T> Plain<T> for Brand {
    ghost state = { absent };

    ghost hand = { None };
}

/// One step of the core.
pub struct Stepped<B> {
    plain: PhantomData<B>,
}

impl<T: Kept, B: Plain<T>> Play<Option<MovingBox<T>>, View<T>> for Stepped<B> {
    ghost then = { λ _. Advanced T.follows T.fits B.state B.hand };
}

/// A load of the owner word that is no step of a call.
pub struct OwnerRead;

impl<T: Kept> Play<Option<MovingBox<T>>, View<T>> for OwnerRead {
    ghost then = { λ _. ReadsOwner };
}

/// Splits a new seat off seat 1.
pub struct SeatSplit;

impl<T> Split<View<T>> for SeatSplit {
    ghost left = { with_split };

    ghost right = { split_view };
}

/// For the proof alone: the view of a seat that is joined. A call that passes `Brand` lets its proof choose it.
pub trait JoinedView<T> {
    ghost view: { View T };
}

impl<T> JoinedView<T> for Brand {
    ghost view = { no_view };
}

/// Joins a seat into seat 1.
pub struct SeatJoin<B> {
    left: PhantomData<B>,
}

impl<T, B: JoinedView<T>> Join<View<T>> for SeatJoin<B> {
    ghost both = { with_joined };

    ghost spent = { joined B.view };
}
