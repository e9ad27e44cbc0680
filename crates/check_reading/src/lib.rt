//! Reads a specification's tree once: the terms of the prelude and of the text by numbers, the words and the checks at its sites,
//! and the entries of its groups. What comes after it needs no tree.
#![tactic(auto)]

pub mod parts;
pub mod prelude;
pub mod reader;
pub mod survey;
pub mod words;
