//! Items that words build: each word puts one on a stack, and those of containers take what is in them from it.
use call_lines::{bytes, count, number};
use cbor_item::{Item, Sound, Width};
use cbor_read::{Front, Limits, read_front};
use std::alloc::{AllocError, Global};

// The items that are left on the stack.
pub(crate) fn items_of(alloc: Global, words: &str) -> Result<Vec<Item>, AllocError> {
    let mut stack = Vec::new(alloc);
    for word in words.split(' ') {
        let item = item_of(alloc, word, &mut stack)?;
        stack.push(Box::into_inner(item))?;
    }
    Ok(stack)
}

// The item on top of the stack.
pub(crate) fn top_of(alloc: Global, words: &str) -> Result<Box<Item>, AllocError> {
    let mut stack = items_of(alloc, words)?;
    taken(alloc, &mut stack)
}

// An item of the stack, and undefined where there is none.
pub(crate) fn taken(alloc: Global, stack: &mut Vec<Item>) -> Result<Box<Item>, AllocError> {
    match stack.pop() {
        Some(item) => Ok(Box::new(alloc, item)?),
        None => new_box(alloc, Item::Simple(23)),
    }
}

fn new_box(alloc: Global, item: Item) -> Result<Box<Item>, AllocError> {
    Ok(Box::new(alloc, item)?)
}

fn item_of(alloc: Global, word: &str, stack: &mut Vec<Item>) -> Result<Box<Item>, AllocError> {
    let (form, told) = word.split_once(':').unwrap_or(("item", word));
    match form {
        "array" => array_of(alloc, count(told), stack),
        "map" => map_of(alloc, count(told), stack),
        "tag" => tag_of(alloc, number(told), stack),
        _ => leaf_of(alloc, form, told),
    }
}

fn leaf_of(alloc: Global, form: &str, told: &str) -> Result<Box<Item>, AllocError> {
    match form {
        "uint" => new_box(alloc, Item::Uint(number(told))),
        "nint" => new_box(alloc, Item::Nint(number(told))),
        "bytes" => new_box(alloc, Item::Bytes(bytes(alloc, told)?)),
        "text" => new_box(alloc, Item::Text(String::from_str(alloc, told)?)),
        "simple" => new_box(alloc, Item::Simple(told.parse::<u8>().unwrap_or(0))),
        "f16" => new_box(alloc, Item::Float(Width::W16, number(told))),
        "f32" => new_box(alloc, Item::Float(Width::W32, number(told))),
        "f64" => new_box(alloc, Item::Float(Width::W64, number(told))),
        _ => spelled(alloc, told),
    }
}

// The last so many of the stack, in their order.
fn array_of(alloc: Global, length: usize, stack: &mut Vec<Item>) -> Result<Box<Item>, AllocError> {
    let mut members = Vec::new(alloc);
    for _ in 0..length {
        let member = taken(alloc, stack)?;
        members.push(Box::into_inner(member))?;
    }
    members.reverse();
    new_box(alloc, Item::Array(members))
}

fn map_of(alloc: Global, length: usize, stack: &mut Vec<Item>) -> Result<Box<Item>, AllocError> {
    let mut pairs = Vec::new(alloc);
    for _ in 0..length {
        let value = taken(alloc, stack)?;
        let key = taken(alloc, stack)?;
        pairs.push((Box::into_inner(key), Box::into_inner(value)))?;
    }
    pairs.reverse();
    new_box(alloc, Item::Map(pairs))
}

fn tag_of(alloc: Global, number: u64, stack: &mut Vec<Item>) -> Result<Box<Item>, AllocError> {
    let content = taken(alloc, stack)?;
    new_box(alloc, Item::Tag(number, content))
}

// The item that bytes spell, and undefined where they spell none.
fn spelled(alloc: Global, word: &str) -> Result<Box<Item>, AllocError> {
    match sound_of(alloc, word)? {
        Some(sound) => new_box(alloc, Box::into_inner(sound).into_item()),
        None => new_box(alloc, Item::Simple(23)),
    }
}

// The item at the front of bytes, in a box.
pub(crate) fn sound_of(alloc: Global, word: &str) -> Result<Option<Box<Sound>>, AllocError> {
    let spelling = bytes(alloc, word)?;
    let Some(limits) = Limits::try_new(256, 1 << 24) else {
        return Ok(None);
    };
    match read_front(alloc, limits, 0, &spelling)? {
        Front::Item { length: _, item } => Ok(Some(Box::new(alloc, item)?)),
        _ => Ok(None),
    }
}
