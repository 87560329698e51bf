//! Runs the lines of a schedule on a state. Nothing is read from a reader or written to a writer here.

ghost use Rattle.std.specs.Prelude.{◌≡◌, length, All, IfOk, OnErr};
ghost use Rattle.lfm_core.specs.text.Grammar.{HasFewSteps};
ghost use Rattle.lfm_core.specs.text.Lines.{steps, line_moved, lines_core, lines_turns};
ghost use Rattle.lfm_protocol.specs.Turns.{is_open, longest_call};

use crate::stepped::State;
use crate::text::schedule::{Act, Line};
use lfm_protocol::Turn;
use std::alloc::{AllocError, Global};

impl State {
    /// Makes up to this many steps of seat s, and stops when its call ends or a step is refused. Returns the last turn. If no
    /// step was made, that is Open.
    pub fn steps(&mut self, s: u64, most: u64) -> Turn
        ensures core { self.new ≡ (steps most self.old s).core }
        ensures turn { result ≡ (steps most self.old s).turn }
    {
        for _ in 0..most {
            let turn = self.step(s);
            if !turn.is_open() {
                return turn;
            }
        }
        Turn::Open
    }

    /// Does what a line says, and returns its last turn. A line that asks for steps asks for 1 to 999.
    pub fn follow(&mut self, line: &Line) -> Turn
        requires { HasFewSteps line.now.act }
        ensures core { self.new ≡ (line_moved self.old line.now).core }
        ensures turn { result ≡ (line_moved self.old line.now).turn }
    {
        match line.act {
            Act::Begin(call) => self.begin(line.seat, call),
            Act::Steps(most) => self.steps(line.seat, most),
            Act::ToEnd => {
                let most = self.longest_call();
                self.steps(line.seat, most)
            }
        }
    }
}

/// Follows each line in turn, and stores its last turn at the line's index.
fn follow_all(state: &mut State, lines: &[Line], turns: &mut [Turn])
    requires length { length turns.old ≡ length lines.now }
    requires steps { All (λ l. HasFewSteps l.act) lines.now }
    ensures core { state.new ≡ lines_core state.old lines.now }
    ensures turns { turns.new ≡ lines_turns state.old lines.now }
{
    for (index, line) in lines.iter().enumerate() {
        turns[index] = state.follow(line);
    }
}

/// Follows each line in turn, and returns the last turn of each, in order. A line that asks for steps asks for 1 to 999.
///
/// It allocates once, for the turns, before the first line. If the allocation fails, the state is unchanged.
pub fn run(alloc: Global, state: &mut State, lines: &[Line]) -> Result<Vec<Turn>, AllocError>
    requires steps { All (λ l. HasFewSteps l.act) lines.now }
    ensures core { IfOk result (λ _. state.new ≡ lines_core state.old lines.now) }
    ensures turns { IfOk result (λ turns. turns.items ≡ lines_turns state.old lines.now) }
    ensures unchanged { OnErr result (state.new ≡ state.old) }
{
    let mut turns = vec![in alloc; Turn::Open; lines.len()]?;
    follow_all(state, lines, turns.as_mut_slice());
    Ok(turns)
}
