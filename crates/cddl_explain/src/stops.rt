//! Where a run of bytes ends.

ghost use Rattle.std.specs.Prelude.{◌≡◌, ◌≤◌, length};
ghost use Rattle.cddl_explain.specs.Parts.{is_in_word, stops_at, IsRunEnd};

/// What a run of bytes ends before.
#[derive(Clone, Copy, Debug, PartialEq, Eq)]
pub(crate) enum Stop {
    /// The end of a line.
    Line,
    /// A byte that no name and no number has.
    Word,
    /// `'`
    Quote,
    /// The first byte of a character.
    Character,
}

// Where the run that begins here ends.
pub(crate) fn run_end(text: &[u8], from: usize, stop: Stop) -> usize
    requires { from ≤ length text.now }
    ensures { IsRunEnd stop text.now from result }
{
    let mut end = from;
    'byte: while end < text.len() && !stops_at(stop, text[end]) {
        end += 1;
    }
    end
}

fn stops_at(stop: Stop, byte: u8) -> bool
    ensures { result ≡ stops_at stop byte }
{
    match stop {
        Stop::Line => byte == b'\n' || byte == b'\r',
        Stop::Word => !is_in_word(byte),
        Stop::Quote => byte == b'\'',
        Stop::Character => byte < 0x80 || 0xc0 <= byte,
    }
}

fn is_in_word(byte: u8) -> bool
    ensures { result ≡ is_in_word byte }
{
    byte.is_ascii_alphanumeric() || is_mark(byte)
}

// Whether a byte is one of the marks that stand in names and numbers.
fn is_mark(byte: u8) -> bool
    ensures { result ≡ Rattle.cddl_explain.specs.Parts.is_mark byte }
{
    matches!(byte, b'@' | b'_' | b'$' | b'-' | b'.' | b'+' | b'*' | b'#')
}
