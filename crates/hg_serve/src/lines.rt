//! The text of a line.
ghost use Rattle.std.specs.Prelude.{◌≡◌, ◌≤◌, length};
ghost use Rattle.hg_model.specs.Script.{text_of_line};

/// How many bytes a line has at most before its line feed.
pub const LINE_LIMIT: usize = 4096;

/// The text of a line: without a carriage return at its end, where a line feed ends it.
pub fn text(line: &[u8], ended: bool) -> &[u8]
    ensures text { result.now ≡ text_of_line (record { bytes = line.now; ended = ended }) }
    ensures no_longer { length result.now ≤ length line.now }
{
    if !ended {
        return line;
    }
    let Some((last, front)) = line.split_last() else {
        return line;
    };
    if *last == b'\r' { front } else { line }
}
