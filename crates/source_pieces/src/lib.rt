//! The types, the words that are keys, and the entries of groups that stand in the text of a specification's rules, by the numbers of a
//! table of terms, with what each is of and where it stands; and the same with arguments in the place of parameters.
#![tactic(auto)]

mod bare;
mod entries;
mod filling;
pub mod laws;
mod names;
mod node;
mod origin;
mod piece;
mod push;
mod rules;
mod span;
mod walk;

pub use crate::filling::filled;
pub use crate::origin::pieces_at;
pub use crate::piece::{EntryAt, NameAt, PieceAt};
pub use crate::rules::{RuleAt, rules_at};
pub use crate::span::Span;
