//! What strings hold, in one part or in chunks (RFC 8949 section 3.2.3).
ghost use Rattle.std.specs.Prelude.{◌≡◌, ◌≤◌, ◌<◌, ◌+◌, ◌++◌, List, ℕ, length, take, IfSome};
ghost use Rattle.cbor_tape.specs.Contents.{content_size, AreSizedAt, HasContent, IsFilled, IsPieceAt, IsTold};

use read_items::whole::{are_there, argument_at, is_break};
use std::cmp::Ordering;

// Strings in so many chunks or more are not compared: each comparison goes over the chunks of both, however soon they differ.
const MANY_CHUNKS: usize = 16;

/// What is left of a string's content: these bytes, and after them those of the chunks from an offset on, up to a break.
#[derive(Clone, Copy)]
pub struct Content<'a> {
    pub front: &'a [u8],
    pub chunks: Option<usize>,
}

/// How many bytes the chunks from `start` on hold together, and where the break after them ends, if they are fewer than 16.
pub fn chunks_len(bytes: &[u8], start: usize) -> Option<(usize, usize)>
    requires { start ≤ length bytes.now }
    ensures there { IfSome result (λ r. AreSizedAt bytes.now start r.0 r.1) }
    ensures on { IfSome result (λ r. start < r.1) }
{
    let mut at = start;
    let mut len = 0;
    for _ in 0..MANY_CHUNKS {
        if is_break(bytes, at) {
            return Some((len, at + 1));
        }
        let (piece, end) = piece_at(bytes, at)?;
        len += piece.len();
        at = end;
    }
    None
}

// What the chunk at `at` holds, and where it ends.
fn piece_at(bytes: &[u8], at: usize) -> Option<(&[u8], usize)>
    ensures there { IfSome result (λ r. IsPieceAt bytes.now at r.0.now r.1) }
    ensures on { IfSome result (λ r. at + length r.0.now < r.1) }
    ensures within { IfSome result (λ r. r.1 ≤ length bytes.now) }
{
    if at >= bytes.len() {
        return None;
    }
    let (len, start) = argument_at(bytes, at);
    if start == 0 || !are_there(bytes, start, len) {
        return None;
    }
    let end = start + len as usize;
    Some((&bytes[start..end], end))
}

/// The order of two contents, if they are equal or none is the beginning of the other.
pub fn compare_contents(bytes: &[u8], content: Content, other: Content) -> Option<Ordering>
    ensures { IfSome result (λ o. (s t : List ℕ) → HasContent bytes.now content.entry s → HasContent bytes.now other.entry t → IsTold o s t) }
{
    let mut content = filled(bytes, content)?;
    let mut other = filled(bytes, other)?;
    while !content.front.is_empty() && !other.front.is_empty() {
        let len = content.front.len().min(other.front.len());
        match content.front[..len].cmp(&other.front[..len]) {
            Ordering::Equal => {}
            order => return Some(order),
        }
        content = after(bytes, content, len)?;
        other = after(bytes, other, len)?;
    }
    if content.front.is_empty() && other.front.is_empty() {
        Some(Ordering::Equal)
    } else {
        None
    }
}

// The same content, where its front is empty only if nothing is left of it.
fn filled<'a>(bytes: &'a [u8], content: Content<'a>) -> Option<Content<'a>>
    ensures there { IfSome result (λ r. (s : List ℕ) → HasContent bytes.now content.entry s → IsFilled bytes.now r s) }
    ensures smaller { IfSome result (λ r. content_size bytes.now r ≤ content_size bytes.now content.entry) }
{
    let mut content = content;
    while content.front.is_empty() {
        let Some(at) = content.chunks else {
            return Some(content);
        };
        if is_break(bytes, at) {
            return Some(Content {
                front: &[],
                chunks: None,
            });
        }
        let (front, end) = piece_at(bytes, at)?;
        content = Content {
            front,
            chunks: Some(end),
        };
    }
    Some(content)
}

// What is left after so many bytes of the front.
fn after<'a>(bytes: &'a [u8], content: Content<'a>, len: usize) -> Option<Content<'a>>
    requires { len ≤ length content.front.now }
    ensures there { IfSome result (λ r. (s : List ℕ) → HasContent bytes.now content.entry s → (t : List ℕ) × (s ≡ take len content.entry.front.now ++ t) × IsFilled bytes.now r t) }
    ensures smaller { IfSome result (λ r. content_size bytes.now r + len ≤ content_size bytes.now content.entry) }
{
    let left = Content {
        front: &content.front[len..],
        chunks: content.chunks,
    };
    filled(bytes, left)
}
