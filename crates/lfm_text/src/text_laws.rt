//! Laws of lines and numbers, stated by how they are spelled. Each is the contract of a function that does nothing.

ghost use Rattle.std.specs.Prelude.{◌≡◌, ◌≤◌, ◌<◌, ◌^◌, ◌++◌, ℕ, true, length, List, Some, decimal};
ghost use Rattle.lfm_text.specs.Text.{number_of, lines_of, line_feeds, line_count, max_lines, is_past_limit};

/// A word is a number if and only if it is the number's decimal text, and the number is below 10^18.
pub fn numbers_are_decimals()
    ensures only { (w : List ℕ) (n : ℕ) → number_of w ≡ Some n → (w ≡ decimal n) × (n < 10 ^ 18) }
    ensures all { (n : ℕ) → n < 10 ^ 18 → number_of (decimal n) ≡ Some n }
{}

/// The number of lines of a text is `line_count`. A byte after 65,536 line feeds is past the limit, and a text past a limit
/// stays past it with any bytes appended.
pub fn lines_are_counted()
    ensures count { (text : List ℕ) → length (lines_of text) ≡ line_count text }
    ensures more { (xs : List ℕ) (ys : List ℕ) → line_count xs ≤ line_count (xs ++ ys) }
    ensures feeds { (xs : List ℕ) (ys : List ℕ) → max_lines ≤ line_feeds xs → 0 < length ys →
        is_past_limit (xs ++ ys) ≡ true }
    ensures past { (xs : List ℕ) (ys : List ℕ) →
        is_past_limit xs ≡ true → is_past_limit (xs ++ ys) ≡ true }
{}
