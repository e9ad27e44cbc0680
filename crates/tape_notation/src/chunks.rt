//! What strings in chunks hold (RFC 8949 section 3.2.3).
ghost use Rattle.std.specs.Prelude.{ℕ, List, flat_map, length};
ghost use Rattle.hex.specs.Hex.{encode_lower};
ghost use Rattle.cbor_data.specs.Forms.{Chunk, joined};
ghost use Rattle.cbor_data.specs.Notation.{shown_byte};
ghost use Rattle.tape_notation.specs.Heads.{AreChunksFrom, HaveChunks};
ghost use Rattle.tape_notation.specs.Put.{IsPut};

use crate::head::head_at;
use crate::hex_digits::put_hex;
use crate::text::put_shown;

// The byte that ends what has no declared length.
const BREAK: u8 = 0xff;

/// Puts the hex digits of what the chunks of a byte string hold.
pub(crate) fn put_byte_chunks(out: &mut [u8], at: usize, bytes: &[u8], start: usize) -> usize
    requires { HaveChunks encode_lower 2 bytes.now start at (length out.old) }
    ensures { (cs : List Chunk) → AreChunksFrom 2 bytes.now start cs → IsPut out.old out.new at (encode_lower (joined cs)) result }
{
    let mut end = at;
    let mut chunk = start;
    while bytes[chunk] != BREAK {
        let (len, content) = head_at(bytes, chunk);
        chunk = content + len as usize;
        end = put_hex(out, end, &bytes[content..chunk]);
    }
    end
}

/// Puts what the chunks of a text hold, as it is shown between quotes.
pub(crate) fn put_text_chunks(out: &mut [u8], at: usize, bytes: &[u8], start: usize) -> usize
    requires { HaveChunks (flat_map shown_byte) 3 bytes.now start at (length out.old) }
    ensures { (cs : List Chunk) → AreChunksFrom 3 bytes.now start cs → IsPut out.old out.new at (flat_map shown_byte (joined cs)) result }
{
    let mut end = at;
    let mut chunk = start;
    while bytes[chunk] != BREAK {
        let (len, content) = head_at(bytes, chunk);
        chunk = content + len as usize;
        end = put_shown(out, end, &bytes[content..chunk]);
    }
    end
}
