//! Controls by their names.

ghost use Rattle.std.specs.Prelude.{◌≡◌, nat_eq, option_map};
ghost use Rattle.std.specs.Cmp.Lexicographic.{pointwise};
ghost use Rattle.std.specs.List.{list_any};
ghost use Rattle.cddl_language.specs.Controls as L;
ghost use Rattle.check_terms.specs.Texts.Controls.{control_view};

use cddl_literal::operators::Joining;

/// How a control asks its controller, the type on its right, of an item that the type on its left says yes to.
#[derive(Clone, Copy, Debug, PartialEq, Eq)]
pub enum Control {
    /// Not at all: `.default`.
    LeftAlone,
    /// Of the same item: `.and` and `.within`.
    LeftAndRight,
    /// Of the item that a byte string holds: `.cbor`.
    HeldItem,
    /// Of the array of the items that a byte string holds: `.cborseq`.
    HeldSequence,
    /// The item is compared with the controller, a literal: `.eq`, `.ne`, `.lt`, `.le`, `.gt` and `.ge`.
    Compared(Comparison),
    /// Numbers of the item are members of the controller: `.size` and `.bits`.
    Member(Membership),
    /// The item is the literal that is computed from both sides: `.plus`, `.cat` and `.det`.
    Computed(Computation),
}

/// How an item is compared with a literal (RFC 8610 section 3.8.6).
#[derive(Clone, Copy, Debug, PartialEq, Eq)]
pub enum Comparison {
    Equal,
    Different,
    Less,
    AtMost,
    Greater,
    AtLeast,
}

/// Which numbers of an item have to be members of the controller.
#[derive(Clone, Copy, Debug, PartialEq, Eq)]
pub enum Membership {
    /// Its size: `.size` (RFC 8610 section 3.8.1).
    Size,
    /// The number of each bit that is set in it: `.bits` (section 3.8.2).
    Bits,
}

/// How a literal is computed from two (RFC 9165 section 2).
#[derive(Clone, Copy, Debug, PartialEq, Eq)]
pub enum Computation {
    /// The sum of two whole numbers: `.plus`.
    Sum,
    /// Two strings in one: `.cat` and `.det`.
    Join(Joining),
}

const LEFT_ALONE: [&str; 1] = ["default"];

const LEFT_AND_RIGHT: [&str; 2] = ["and", "within"];

const HELD_ITEM: [&str; 1] = ["cbor"];

const HELD_SEQUENCE: [&str; 1] = ["cborseq"];

const EQUAL: [&str; 1] = ["eq"];

const DIFFERENT: [&str; 1] = ["ne"];

const LESS: [&str; 1] = ["lt"];

const AT_MOST: [&str; 1] = ["le"];

const GREATER: [&str; 1] = ["gt"];

const AT_LEAST: [&str; 1] = ["ge"];

const SIZE: [&str; 1] = ["size"];

const BITS: [&str; 1] = ["bits"];

const SUM: [&str; 1] = ["plus"];

const JOIN: [&str; 1] = ["cat"];

const DEDENTED_JOIN: [&str; 1] = ["det"];

/// The control of this name, given without its `.`, if it is known (RFC 8610 section 3.8; RFC 9165).
pub fn control_of(name: &str) -> Option<Control>
    ensures { option_map control_view result ≡ L.control_of name.now }
{
    if is_among(&LEFT_ALONE, name) {
        Some(Control::LeftAlone)
    } else if is_among(&LEFT_AND_RIGHT, name) {
        Some(Control::LeftAndRight)
    } else if is_among(&HELD_ITEM, name) {
        Some(Control::HeldItem)
    } else if is_among(&HELD_SEQUENCE, name) {
        Some(Control::HeldSequence)
    } else {
        control_by_value(name)
    }
}

// The control of this name, if it is one whose controller is a value.
fn control_by_value(name: &str) -> Option<Control>
    ensures { option_map control_view result ≡ L.control_among L.controls_by_values name.now }
{
    if is_among(&EQUAL, name) {
        Some(Control::Compared(Comparison::Equal))
    } else if is_among(&DIFFERENT, name) {
        Some(Control::Compared(Comparison::Different))
    } else if is_among(&LESS, name) {
        Some(Control::Compared(Comparison::Less))
    } else if is_among(&AT_MOST, name) {
        Some(Control::Compared(Comparison::AtMost))
    } else if is_among(&GREATER, name) {
        Some(Control::Compared(Comparison::Greater))
    } else if is_among(&AT_LEAST, name) {
        Some(Control::Compared(Comparison::AtLeast))
    } else if is_among(&SIZE, name) {
        Some(Control::Member(Membership::Size))
    } else if is_among(&BITS, name) {
        Some(Control::Member(Membership::Bits))
    } else {
        control_that_computes(name)
    }
}

// The control of this name, if it is one that computes a literal.
fn control_that_computes(name: &str) -> Option<Control>
    ensures { option_map control_view result ≡ L.control_among L.controls_that_compute name.now }
{
    if is_among(&SUM, name) {
        Some(Control::Computed(Computation::Sum))
    } else if is_among(&JOIN, name) {
        Some(Control::Computed(Computation::Join(Joining::AsTheyAre)))
    } else if is_among(&DEDENTED_JOIN, name) {
        Some(Control::Computed(Computation::Join(Joining::Dedented)))
    } else {
        None
    }
}

// Whether the name is one of these.
fn is_among(names: &[&str], name: &str) -> bool
    ensures { result ≡ list_any (λ n. pointwise nat_eq n.now name.now) names.now }
{
    names.iter().any(|known| *known == name)
}
