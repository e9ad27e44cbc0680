//! The line and the column of an offset of a text. What is here knows nothing of CDDL.
#![tactic(auto)]

ghost use Rattle.std.specs.Prelude.{◌≡◌, take};
ghost use Rattle.text_position.specs.Positions.{IsAt, begins_character};

/// Where an offset of a text is, for a reader.
#[derive(Clone, Copy, Debug, PartialEq, Eq)]
pub struct Position {
    /// The line, from 1.
    pub line: usize,
    /// The column, from 1, in characters.
    pub column: usize,
}

/// The position of an offset, in bytes, of a text in UTF-8.
///
/// A line ends with a line feed, which is the last character of its line; a carriage return is a character as any other. The line
/// is one more than the line feeds before the offset, and the column one more than the characters that begin before it in its
/// line. So the end of the text has a position too, an offset past it has that of the end, and one inside of a character that
/// of the next. Of bytes that are not UTF-8 each begins a character but those from 0x80 to 0xBF.
///
/// It reads the text once, up to the offset.
pub fn position_of(text: &[u8], offset: usize) -> Position
    ensures { IsAt (take offset text.now) result.line result.column }
{
    position_of_end(&text[..offset.min(text.len())])
}

// The position of the end of these bytes.
fn position_of_end(before: &[u8]) -> Position
    ensures { IsAt before.now result.line result.column }
{
    let mut line = 1;
    let mut column = 1;
    for byte in before {
        if *byte == b'\n' {
            line += 1;
            column = 1;
        } else if begins_character(*byte) {
            column += 1;
        }
    }
    Position { line, column }
}

fn begins_character(byte: u8) -> bool
    ensures { result ≡ begins_character byte }
{
    byte < 0x80 || 0xc0 <= byte
}
