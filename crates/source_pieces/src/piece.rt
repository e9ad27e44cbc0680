//! A type in the text, a word that is a key, or an entry of a group or a member of one, with what a type of the table is of that it
//! is.

use crate::span::Span;
use table_making::TypeOrigin;
use type_links::Link;

/// Where an entry stands in its group.
#[derive(Clone, Copy)]
pub struct EntryAt {
    /// So many alternatives come after its own.
    pub alternative: usize,
    /// So many entries come after it in its alternative.
    pub place: usize,
}

/// A name, which stands by itself or after `~`.
#[derive(Clone, Copy)]
pub struct NameAt {
    /// The number of its text.
    pub number: u32,
    /// Whether it stands after `~`.
    pub is_unwrapped: bool,
}

/// Where a type that is of this stands, or an entry.
#[derive(Clone, Copy)]
pub struct PieceAt {
    /// The place of its rule in the list of rules, from 0.
    pub rule: usize,
    /// What it is of, unless it is an entry or a member, or the key of an entry in its place there.
    pub origin: Option<TypeOrigin>,
    /// What the key is of, where it is the key of an entry in its place there, or the type of the value in an entry.
    pub key: Option<TypeOrigin>,
    /// The group of which it is an entry or a member, or the map's group in which it is a key or a value, from its opening to its
    /// closing bracket; nothing where that is the body of a rule.
    pub around: Option<Span>,
    /// Where it stands in its group, where it is an entry.
    pub entry: Option<EntryAt>,
    /// The name that it is, where it is an entry or a member, and one name alone, with arguments or without.
    pub name: Option<NameAt>,
    /// The type that is asked there, where that stands elsewhere, as an argument does.
    pub asked: Option<Link>,
    /// Where it stands.
    pub span: Span,
}
