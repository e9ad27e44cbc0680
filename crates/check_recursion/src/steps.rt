//! The steps from a node to what it asks, by the form of its row.

ghost use Rattle.std.specs.Prelude.{◌≡◌, option_map};
ghost use Rattle.cddl_language.specs.Controls as L;
ghost use Rattle.check_terms.specs.Texts.Controls.{control_view};
ghost use Rattle.check_recursion.specs.Edges as by;
ghost use Rattle.check_recursion.specs.Views.{known};

use crate::node::Node;
use check_instances::closed::Closed;
use check_instances::openings::{Opening, Part};
use check_names::kinds::Kinds;
use check_terms::texts::{Control, control_of};
use check_terms::{Form, Row, Terms};

/// What is known of the rows of a table and of the instances.
#[derive(Drop)]
pub(crate) struct View<'a> {
    pub closed: &'a Closed,
    pub kinds: &'a Kinds,
    pub openings: &'a [Opening],
    /// For each row that is a type's what it is as an entry.
    pub parts: &'a [Part],
    pub choosable: &'a [bool],
    pub may_be_empty: &'a [bool],
}

/// The steps from one node: there are two at most.
#[derive(Clone, Copy)]
pub(crate) struct Steps {
    pub first: Option<Node>,
    pub second: Option<Node>,
}

// The steps from what a row is.
pub(crate) fn row_steps(terms: &Terms<'_>, view: &View<'_>, row: Row) -> Steps
    ensures { result ≡ by.row_steps (known terms.now view.now) row }
{
    match row.form {
        Form::Named => one(name_node(place_of(&view.closed.places, row.first))),
        Form::Unwrapped => one(unwrapping_node(place_of(&view.closed.places, row.first))),
        Form::ChoiceOfName => one(choice_node(place_of(&view.closed.places, row.first))),
        Form::ChoiceOf => one(chosen_node(row.first)),
        Form::Parens | Form::ArrayOf | Form::SimpleBy | Form::Sole | Form::Grouped => {
            one(row_node(row.first))
        }
        Form::Or | Form::OrElse => both(row_node(row.first), row_node(row.second)),
        Form::Control => controlled(terms, row),
        Form::Entries | Form::EntriesComma => in_order(view, row),
        Form::Typed => one(part_node(part_at(view.parts, row.first))),
        _ => one(None),
    }
}

// The steps from a control: its controller may be asked of the same item.
fn controlled(terms: &Terms<'_>, row: Row) -> Steps
    ensures { result ≡ by.both (by.row_node row.first) (by.row_node (by.when (by.asks_here terms.now.texts row.text) row.second)) }
{
    let controller = if asks_here(terms, row.text) {
        row.second
    } else {
        None
    };
    both(row_node(row.first), row_node(controller))
}

// The steps from entries: the last one counts where all before it may be empty.
fn in_order(view: &View<'_>, row: Row) -> Steps
    ensures { result ≡ by.both (by.row_node row.first) (by.row_node (by.if_some (by.flagged view.now.may_be_empty.now row.first) row.second)) }
{
    let last = match flagged(view.may_be_empty, row.first) {
        Some(_) => row.second,
        None => None,
    };
    both(row_node(row.first), row_node(last))
}

// The steps from what a row is, where `&` chooses from it.
pub(crate) fn chosen_steps(terms: &Terms<'_>, view: &View<'_>, row: Row) -> Steps
    ensures { result ≡ by.chosen_steps (known terms.now view.now) row }
{
    terms.len();
    match row.form {
        Form::Sole | Form::Grouped => one(chosen_node(row.first)),
        Form::OrElse | Form::Entries | Form::EntriesComma => {
            both(chosen_node(row.first), chosen_node(row.second))
        }
        Form::Typed => one(chosen_part(row.first, part_at(view.parts, row.first))),
        Form::Keyed => one(row_node(row.second)),
        _ => one(None),
    }
}

// The step from an entry of a type, where `&` chooses from it.
fn chosen_part(row: Option<u32>, part: Part) -> Option<Node>
    ensures { result ≡ by.chosen_part row part }
{
    match part {
        Part::AsksType => row_node(row),
        Part::NamesGroup(place) => Some(Node::ChosenName(place)),
        Part::Opens(place, _) => Some(Node::OpenedChoice(place)),
    }
}

// The step from an entry of a type.
fn part_node(part: Part) -> Option<Node>
    ensures { result ≡ by.part_node part }
{
    match part {
        Part::AsksType => None,
        Part::NamesGroup(place) => Some(Node::Name(place)),
        Part::Opens(place, _) => Some(Node::Unwrapping(place)),
    }
}

fn one(step: Option<Node>) -> Steps
    ensures { result ≡ by.one step }
{
    Steps {
        first: step,
        second: None,
    }
}

fn both(first: Option<Node>, second: Option<Node>) -> Steps
    ensures { result ≡ by.both first second }
{
    Steps { first, second }
}

pub(crate) fn row_node(row: Option<u32>) -> Option<Node>
    ensures { result ≡ by.row_node row }
{
    row.map(Node::Row)
}

pub(crate) fn chosen_node(row: Option<u32>) -> Option<Node>
    ensures { result ≡ by.chosen_node row }
{
    row.map(Node::Chosen)
}

fn name_node(place: Option<u32>) -> Option<Node>
    ensures { result ≡ by.name_node place }
{
    place.map(Node::Name)
}

fn unwrapping_node(place: Option<u32>) -> Option<Node>
    ensures { result ≡ by.unwrapping_node place }
{
    place.map(Node::Unwrapping)
}

fn choice_node(place: Option<u32>) -> Option<Node>
    ensures { result ≡ by.choice_node place }
{
    place.map(Node::Choice)
}

// The place of the instance whose reference the row is.
fn place_of(places: &[Option<u32>], row: Option<u32>) -> Option<u32>
    ensures { result ≡ by.place_of places.now row }
{
    match places.get(row? as usize) {
        Some(place) => *place,
        None => None,
    }
}

// The row, where its flag is set.
pub(crate) fn flagged(flags: &[bool], row: Option<u32>) -> Option<u32>
    ensures { result ≡ by.flagged flags.now row }
{
    let row = row?;
    match flags.get(row as usize) {
        Some(true) => Some(row),
        _ => None,
    }
}

// What the row is as an entry.
fn part_at(parts: &[Part], row: Option<u32>) -> Part
    ensures { result ≡ by.part_at parts.now row }
{
    match row {
        Some(row) => part_in(parts.get(row as usize).copied()),
        None => Part::AsksType,
    }
}

fn part_in(part: Option<Part>) -> Part
    ensures { result ≡ by.part_in part }
{
    match part {
        Some(part) => part,
        None => Part::AsksType,
    }
}

pub(crate) fn opening_at(openings: &[Opening], place: u32) -> Option<Opening>
    ensures { result ≡ by.opening_at openings.now place }
{
    openings.get(place as usize).copied()
}

// The row of the group that is opened.
pub(crate) fn opened_group(opening: Option<Opening>) -> Option<u32>
    ensures { result ≡ by.opened_group opening }
{
    match opening {
        Some(Opening::Group(row)) => Some(row),
        _ => None,
    }
}

// The row of what is opened.
pub(crate) fn opened_row(opening: Option<Opening>) -> Option<u32>
    ensures { result ≡ by.opened_row opening }
{
    match opening {
        Some(Opening::Group(row) | Opening::Type(row)) => Some(row),
        _ => None,
    }
}

// Whether the controller of a control of this name is asked of the same item, or of all that a byte string holds.
fn asks_here(terms: &Terms<'_>, name: Option<u32>) -> bool
    ensures { result ≡ by.asks_here terms.now.texts name }
{
    match name {
        Some(name) => text_asks(terms.text(name)),
        None => false,
    }
}

fn text_asks(text: Option<&str>) -> bool
    ensures { result ≡ by.text_asks (option_map (λ t. t.now) text.entry) }
{
    match text {
        Some(text) => is_asked_here(control_of(text)),
        None => false,
    }
}

fn is_asked_here(control: Option<Control>) -> bool
    ensures { result ≡ L.is_asked_here (option_map control_view control) }
{
    matches!(control, Some(Control::LeftAndRight | Control::HeldSequence))
}

// Whether what the reference of the row calls is a group.
pub(crate) fn is_group_call(terms: &Terms<'_>, view: &View<'_>, row: u32) -> bool
    ensures { result ≡ by.is_group_call (known terms.now view.now) row }
{
    match text_of(terms.row(row)) {
        Some(name) => view.kinds.is_group(name),
        None => false,
    }
}

fn text_of(row: Option<Row>) -> Option<u32>
    ensures { result ≡ by.text_of row }
{
    row?.text
}
