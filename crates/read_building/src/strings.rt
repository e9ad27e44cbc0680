//! The strings that were read.
ghost use Rattle.std.specs.Prelude.{◌≡◌, true, false, IfOk, IfSome, IfNone, IsUtf8};
ghost use Rattle.read_building.specs.Building as building;
ghost use Rattle.item_nodes.specs.View.{view};
ghost use Rattle.read_building.specs.Stages.{string_major};

use item_nodes::Item;
use simdutf8::is_utf8;
use std::alloc::{AllocError, Global};

// The string of these bytes, or none where it is to be a text and they are not UTF-8.
pub(crate) fn string_item(is_text: bool, content: Vec<u8>) -> Option<Item>
    ensures some { IfSome result (λ x. view x ≡ building.string_of (string_major is_text) content.items) }
    ensures text { IfSome result (λ _. is_text ≡ true → IsUtf8 content.items) }
    ensures none { IfNone result ((is_text ≡ true) × (IsUtf8 content.items → ⊥)) }
{
    if !is_text {
        return Some(Item::Bytes(content));
    }
    if !is_utf8(&content) {
        return None;
    }
    // Tested above, many bytes at a time; `String::from_utf8` would test them one by one.
    let text = unsafe { String::from_utf8_unchecked(content) };
    Some(Item::Text(text))
}

// The major type of a text string, or of a byte string.
pub(crate) fn major_of_string(is_text: bool) -> u8
    ensures { result ≡ string_major is_text }
{
    if is_text { 3 } else { 2 }
}

// Whether a string may have these bytes: a text's are UTF-8.
pub(crate) fn may_hold(is_text: bool, content: &[u8]) -> bool
    ensures good { result ≡ true → is_text ≡ true → IsUtf8 content.now }
    ensures bad { result ≡ false → (is_text ≡ true) × (IsUtf8 content.now → ⊥) }
{
    !is_text || is_utf8(content)
}

// The string of these bytes, copied, or none where it is to be a text and they are not UTF-8.
#[inline(always)]
pub(crate) fn copied_string(
    alloc: Global,
    is_text: bool,
    content: &[u8],
) -> Result<Option<Item>, AllocError>
    ensures some { IfOk result (λ string. IfSome string (λ x. view x ≡ building.string_of (string_major is_text) content.now)) }
    ensures text { IfOk result (λ string. IfSome string (λ _. is_text ≡ true → IsUtf8 content.now)) }
    ensures none { IfOk result (λ string. IfNone string ((is_text ≡ true) × (IsUtf8 content.now → ⊥))) }
{
    if !is_text {
        return Ok(Some(Item::Bytes(Vec::from_slice(alloc, content)?)));
    }
    match simdutf8::compat::from_utf8(content) {
        Ok(text) => Ok(Some(Item::Text(String::from_str(alloc, text)?))),
        Err(_) => Ok(None),
    }
}
