//! What the lines of a schedule mean.
ghost use Rattle.lfm_core.specs.text.LineEvents.{LinesAreEvents};

/// Lines are exactly their events: the start of a call, or their steps in order. Lines and events lead to the same state, each
/// line has the turn of its last event, and the answers `Held Queued` are the same.
///
/// Definition: `LinesAreEvents` in `specs/text/LineEvents.antt`. Proof: `proofs/texts/LineEvents.antt`.
pub fn lines_are_events()
    ensures { LinesAreEvents }
{}
