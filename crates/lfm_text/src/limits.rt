//! How long a text may be, and how many lines it has. Nothing here allocates memory.

ghost use Rattle.std.specs.Prelude.{◌≡◌, ◌==◌, true, false, count_by, IfNone, IfSome};
ghost use Rattle.lfm_text.specs.Text.{line_count, is_past_limit};

/// The greatest number of bytes that a text may have.
pub const MAX_BYTES: usize = 1_048_576;

/// The greatest number of lines that a text may have.
pub const MAX_LINES: usize = 65_536;

/// The number of line feeds.
pub fn count_line_feeds(text: &[u8]) -> usize
    ensures { result ≡ count_by (λ b. b == 10) text.now }
{
    text.iter().filter(|byte| **byte == b'\n').count()
}

/// The number of lines of a text with this many line feeds.
fn lines_with(text: &[u8], line_feeds: usize) -> usize
    requires { line_feeds ≡ count_by (λ b. b == 10) text.now }
    ensures { result ≡ line_count text.now }
{
    match text {
        [] | [.., b'\n'] => line_feeds,
        _ => line_feeds + 1,
    }
}

/// Whether a text with this many line feeds has too many bytes or too many lines.
pub fn is_past_limit(text: &[u8], line_feeds: usize) -> bool
    requires { line_feeds ≡ count_by (λ b. b == 10) text.now }
    ensures { result ≡ is_past_limit text.now }
{
    text.len() > MAX_BYTES || lines_with(text, line_feeds) > MAX_LINES
}

/// The number of lines of a text: each line feed ends one, and bytes after the last line feed are one more. `None` if the text
/// has more than 1,048,576 bytes or more than 65,536 lines.
pub fn count_lines(text: &[u8]) -> Option<usize>
    ensures within { IfSome result (λ _. is_past_limit text.now ≡ false) }
    ensures lines { IfSome result (λ lines. lines ≡ line_count text.now) }
    ensures past { IfNone result (is_past_limit text.now ≡ true) }
{
    let line_feeds = count_line_feeds(text);
    if is_past_limit(text, line_feeds) {
        None
    } else {
        Some(lines_with(text, line_feeds))
    }
}
