//! Forms of types and groups, whose parts are known by what they are of.

ghost use Rattle.std.specs.Prelude.{◌≡◌, []};
ghost use Rattle.cddl_meaning.specs.Forms as F;
ghost use Rattle.table_making.specs.Forms.{type_form_view};

use crate::origin::{GroupOrigin, TypeOrigin};
use std::alloc::Global;
use table_nodes::{Content, Most, Test};

/// Which tag numbers are meant.
#[derive(Clone, Copy)]
pub(crate) enum TagForm {
    Any,
    Exactly(u64),
    SuchAs(TypeOrigin),
}

/// The type of a key, and whether it cuts.
#[derive(Clone, Copy)]
pub(crate) struct KeyForm {
    pub origin: TypeOrigin,
    pub cuts: bool,
}

/// An entry of a map, as `MapEntry` of a table.
#[derive(Clone, Copy)]
pub(crate) struct EntryForm {
    pub least: u64,
    pub most: Most,
    pub key: TypeOrigin,
    pub cuts: bool,
    pub value: TypeOrigin,
}

/// A form of type, as `Node` of a table.
#[derive(Drop)]
pub(crate) enum TypeForm {
    Plain(Test),
    Ref(TypeOrigin),
    Choice(Vec<TypeOrigin>),
    ArrayOf(GroupOrigin),
    TagOf(TagForm, TypeOrigin),
    SimpleBy(TypeOrigin),
    MapOf(Vec<Vec<EntryForm>>),
    Both(TypeOrigin, TypeOrigin),
    Such(TypeOrigin, Test),
    Holding(TypeOrigin, Content, TypeOrigin),
}

// The type that says no to every item.
pub(crate) fn nothing(alloc: Global) -> TypeForm
    ensures { type_form_view result ≡ F.Choice [] }
{
    TypeForm::Choice(Vec::new(alloc))
}

/// A form of group, as `Group` of a table.
#[derive(Drop)]
pub(crate) enum GroupForm {
    Entry(TypeOrigin),
    Ref(GroupOrigin),
    Sequence(Vec<GroupOrigin>),
    Alternatives(Vec<GroupOrigin>),
    Repeat {
        least: u64,
        most: Most,
        group: GroupOrigin,
    },
}
