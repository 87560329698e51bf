//! Laws of the grammar of scripts. Each is the contract of a function that does nothing.

ghost use Rattle.std.specs.Prelude.{◌≡◌, ◌<◌, ◌^◌, ◌⊎◌, ℕ, true, false, List, Ok, Err, Some};
ghost use Rattle.lfm_text.specs.Grammar.{IsFirstFault};
ghost use Rattle.lfm_text.specs.Text.{words_of, lines_of, is_past_limit};
ghost use Rattle.lfm_script.specs.script.Grammar.{Plan, line_of, header_of, scripts, script_in, plan_allowed};
ghost use Rattle.lfm_script.specs.script.Spelling.{line_spelling, header_spelling, plan_spelling, IsWritable, IsWritablePlan, SpellsPlan};
ghost use Rattle.lfm_script.specs.declared.script.ScriptLine.{ScriptLine};

use crate::faults::WorkFault;

/// A text is read as a line after the first exactly if it is the spelling of that line.
pub fn script_lines_are_spelled()
    ensures only { (text : List ℕ) (l : ScriptLine) →
        line_of (words_of text) ≡ Some l → (text ≡ line_spelling l) × IsWritable l }
    ensures all { (l : ScriptLine) → IsWritable l → line_of (words_of (line_spelling l)) ≡ Some l }
{}

/// A text is read as a first line exactly if it is the spelling of that line.
pub fn script_headers_are_spelled()
    ensures only { (text : List ℕ) (n : ℕ) (c : ℕ) →
        header_of (words_of text) ≡ Some (n, c) →
        (text ≡ header_spelling n c) × (n < 10 ^ 18) × (c < 10 ^ 18) }
    ensures all { (n : ℕ) (c : ℕ) → n < 10 ^ 18 → c < 10 ^ 18 →
        header_of (words_of (header_spelling n c)) ≡ Some (n, c) }
{}

/// A text is read as a script exactly if its lines are the spellings of the script's lines, in order, and all numbers are in
/// range. The text that has a line feed after each line has these lines.
pub fn scripts_are_spelled()
    ensures only { (text : List ℕ) (p : Plan) →
        script_in text ≡ Ok p → SpellsPlan text p × (plan_allowed p ≡ true) }
    ensures all { (text : List ℕ) (p : Plan) →
        SpellsPlan text p → plan_allowed p ≡ true → script_in text ≡ Ok p }
    ensures written { (p : Plan) →
        IsWritablePlan p → is_past_limit (plan_spelling p) ≡ false → SpellsPlan (plan_spelling p) p }
{}

/// Syntax is answered exactly if a text is not too long and has a line that can't be read, and it names the first such line. So
/// it takes precedence over the limits of the numbers, but not over the limits of length.
pub fn first_script_faults_are_named()
    ensures only { (text : List ℕ) (n : ℕ) → script_in text ≡ Err (WorkFault.Syntax n) →
        (is_past_limit text ≡ false) × IsFirstFault scripts (lines_of text) n }
    ensures all { (text : List ℕ) (n : ℕ) →
        is_past_limit text ≡ false → IsFirstFault scripts (lines_of text) n →
        script_in text ≡ Err (WorkFault.Syntax n) }
{}

/// Limit is answered exactly if a text is too long, or if all its lines are those of a script and a number is out of range.
pub fn script_limits_are_answered()
    ensures only { (text : List ℕ) → script_in text ≡ Err WorkFault.Limit →
        (is_past_limit text ≡ true) ⊎ ((p : Plan) × SpellsPlan text p × (plan_allowed p ≡ false)) }
    ensures past { (text : List ℕ) →
        is_past_limit text ≡ true → script_in text ≡ Err WorkFault.Limit }
    ensures range { (text : List ℕ) (p : Plan) →
        SpellsPlan text p → plan_allowed p ≡ false → script_in text ≡ Err WorkFault.Limit }
{}
