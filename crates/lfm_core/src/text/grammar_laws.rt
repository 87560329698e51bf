//! Laws of the grammar of schedules, stated by how lines and plans are spelled. Each is the contract of a function that does
//! nothing.

ghost use Rattle.std.specs.Prelude.{◌≡◌, ◌<◌, ◌^◌, ◌⊎◌, ℕ, true, false, List, Ok, Err, Some};
ghost use Rattle.lfm_text.specs.Grammar.{IsFirstFault};
ghost use Rattle.lfm_text.specs.Text.{words_of, lines_of, is_past_limit};
ghost use Rattle.lfm_core.specs.text.Grammar.{Plan, line_of, header_of, schedules, plan_in};
ghost use Rattle.lfm_core.specs.text.Spelling.{Spells, IsWritable, SpellsHeader, plan_spelling, IsWritablePlan, SpellsPlan, SpellsOutOfRange};
ghost use Rattle.lfm_core.specs.declared.text.schedule.Line.{Line};

use crate::text::faults::ReplayFault;

/// A text is read as a line after the first exactly if it is a spelling of that line, in one of its forms, and its numbers are
/// ones that a schedule may contain.
pub fn lines_are_spelled()
    ensures only { (text : List ℕ) (l : Line) →
        line_of (words_of text) ≡ Some l → Spells text l × IsWritable l }
    ensures all { (text : List ℕ) (l : Line) →
        Spells text l → IsWritable l → line_of (words_of text) ≡ Some l }
{}

/// A text is read as a first line exactly if it is a spelling of that line, in one of its forms, and its numbers are below
/// 10^18. The form without a budget has the largest.
pub fn headers_are_spelled()
    ensures only { (text : List ℕ) (n : ℕ) (b : ℕ) →
        header_of (words_of text) ≡ Some (record { seats = n; budget = b }) →
        SpellsHeader text n b × (n < 10 ^ 18) × (b < 10 ^ 18) }
    ensures all { (text : List ℕ) (n : ℕ) (b : ℕ) →
        SpellsHeader text n b → n < 10 ^ 18 → b < 10 ^ 18 →
        header_of (words_of text) ≡ Some (record { seats = n; budget = b }) }
{}

/// A text is read as a plan exactly if it is not too long, its lines spell those of the plan, in order, and the plan's number of
/// seats and budget are within the limits. The text with a line feed after each line is read as the plan too, if the plan's
/// numbers are in range and the text is not too long.
pub fn plans_are_spelled()
    ensures only { (text : List ℕ) (p : Plan) → plan_in text ≡ Ok p → SpellsPlan text p }
    ensures all { (text : List ℕ) (p : Plan) → SpellsPlan text p → plan_in text ≡ Ok p }
    ensures written { (p : Plan) → IsWritablePlan p → plan_in (plan_spelling p) ≡ Ok p }
{}

/// Syntax is returned exactly if a text is not too long and has a line that can't be read, or no line. It names the first such
/// line, or line 1. So it comes after the limits of length, and before those of the numbers.
pub fn first_faults_are_named()
    ensures only { (text : List ℕ) (n : ℕ) → plan_in text ≡ Err (ReplayFault.Syntax n) →
        (is_past_limit text ≡ false) × IsFirstFault schedules (lines_of text) n }
    ensures all { (text : List ℕ) (n : ℕ) →
        is_past_limit text ≡ false → IsFirstFault schedules (lines_of text) n →
        plan_in text ≡ Err (ReplayFault.Syntax n) }
{}

/// Limit is returned exactly if a text is too long, or if all its lines are those of a schedule and the number of seats or the
/// budget is out of range.
pub fn limits_are_answered()
    ensures only { (text : List ℕ) → plan_in text ≡ Err ReplayFault.Limit →
        (is_past_limit text ≡ true) ⊎ SpellsOutOfRange text }
    ensures past { (text : List ℕ) →
        is_past_limit text ≡ true → plan_in text ≡ Err ReplayFault.Limit }
    ensures range { (text : List ℕ) → SpellsOutOfRange text → plan_in text ≡ Err ReplayFault.Limit }
{}
