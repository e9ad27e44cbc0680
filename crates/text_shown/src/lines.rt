//! Where a line begins and ends.

ghost use Rattle.std.specs.Prelude.{◌≡◌, ◌≤◌, length};
ghost use Rattle.text_shown.specs.Places.{ends_line, IsLineEnd, IsLineStart};

// Where the line of an offset begins.
pub(crate) fn line_start(text: &[u8], offset: usize) -> usize
    requires { offset ≤ length text.now }
    ensures { IsLineStart text.now offset result }
{
    let mut start = offset;
    'line: while start > 0 && text[start - 1] != b'\n' {
        start -= 1;
    }
    start
}

// Where the line of an offset ends, without its line feed and a carriage return before that.
pub(crate) fn line_end(text: &[u8], offset: usize) -> usize
    requires { offset ≤ length text.now }
    ensures { IsLineEnd text.now offset result }
{
    let mut end = offset;
    'line: while end < text.len() && !ends_line(text[end]) {
        end += 1;
    }
    end
}

fn ends_line(byte: u8) -> bool
    ensures { result ≡ ends_line byte }
{
    byte == b'\n' || byte == b'\r'
}
