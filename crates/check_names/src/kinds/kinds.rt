//! The kinds of names, a type's or a group's, and what `~` of each name unwraps.

ghost use Rattle.std.specs.Prelude.{◌≡◌, IfOk, List, length, option_map};
ghost use Rattle.cddl_language.specs.Prelude.{prelude};
ghost use Rattle.cddl_language.specs.Terms as L;
ghost use Rattle.check_terms.specs.Definitions.{AreDefinitions, IsDefinition};
ghost use Rattle.check_names.specs.Environment.Names.{AreNames};
ghost use Rattle.check_names.specs.Environment.Places.{is_equals};
ghost use Rattle.check_names.specs.Kinds.Kinds.{AreKinds, defines_group_by, is_group_there, leads_to_group, shape_there, sort_in};
ghost use Rattle.cddl_language.specs.Kinds.{is_group_definition};

use crate::environment::Name;
use crate::environment::laws::names_stand;
use crate::kinds::heads::{Head, head_of, heads};
use crate::kinds::links::{GROUP, TYPE, kind_links, kind_of, opening_links, text_at};
use check_terms::texts::is_group_socket;
use check_terms::{Definition, Sign, Terms};
use graphs::chains::{Link, ends};
use std::alloc::{AllocError, Global};

/// What `~` of a name unwraps.
#[derive(Clone, Copy, Debug, PartialEq, Eq)]
pub enum Shape {
    /// The group of a map or an array.
    Group,
    /// The content of a tag.
    Content,
}

/// The kinds of names, and what `~` of each unwraps, by the numbers of their texts.
#[derive(Drop)]
pub struct Kinds {
    opened: Vec<Option<u32>>,
    groups: Vec<Option<u32>>,
}

impl Kinds {
    /// Whether the name is a group's; else it is a type's.
    pub fn is_group(&self, name: u32) -> bool
        ensures { result ≡ is_group_there self.now name }
    {
        matches!(self.groups.get(name as usize), Some(Some(GROUP)))
    }

    /// What `~` of the name unwraps, if anything.
    pub fn opened(&self, name: u32) -> Option<Shape>
        ensures { option_map sort_in result ≡ shape_there self.now name }
    {
        match self.opened.get(name as usize) {
            Some(Some(GROUP)) => Some(Shape::Group),
            Some(Some(TYPE)) => Some(Shape::Content),
            _ => None,
        }
    }

    /// Whether the definition gives its name the kind of a group: `//=` does, and `/=` does not; `=` does for `$$name`, and
    /// else where its body has that kind (RFC 8610 sections 2.2.2 and 3.9). The definition is of the text whose kinds these are.
    ///
    /// It takes a time in proportion to the parentheses round the body and the parameters.
    pub fn is_group_definition(&self, terms: &Terms<'_>, definition: &Definition) -> bool
        ensures { (xs : List L.Definition) (x : L.Definition) → AreKinds terms.now.texts xs self.now → IsDefinition terms.now definition.now x → result ≡ is_group_definition xs x }
    {
        let is_socket = is_group_socket(text_at(terms, definition.name as usize));
        self.defines_group(is_socket, definition.sign, head_of(terms, definition))
    }

    fn defines_group(&self, is_socket: bool, sign: Sign, head: Head) -> bool
        ensures { result ≡ defines_group_by self.now is_socket sign head }
    {
        if is_socket && is_equals(sign) {
            return true;
        }
        self.leads_to_group(kind_of(sign, head, &self.opened))
    }

    // Whether a chain that goes on so ends at a group.
    fn leads_to_group(&self, link: Link) -> bool
        ensures { result ≡ leads_to_group self.now link }
    {
        match link {
            Link::End(answer) => answer == GROUP,
            Link::Next(name) => matches!(self.groups.get(name), Some(Some(GROUP))),
        }
    }
}

fn is_equals(sign: Sign) -> bool
    ensures { result ≡ is_equals sign }
{
    matches!(sign, Sign::Is)
}

/// The kinds of all names of the table, where the prelude and the text have these definitions, and what `~` of each name unwraps
/// (RFC 8610 sections 2.2.2, 3.7 and 3.9).
///
/// It takes a time of n log n for n texts and definitions, however names lead to names. An error comes only where memory is
/// refused.
pub fn kinds_of(
    alloc: Global,
    terms: &Terms<'_>,
    names: &[Name],
    known: &[Definition],
    definitions: &[Definition],
) -> Result<Kinds, AllocError>
    ensures { IfOk result (λ v. (xs : List L.Definition) → AreDefinitions terms.now known.now prelude → AreDefinitions terms.now definitions.now xs → AreNames (length terms.now.texts) known.now definitions.now names.now → AreKinds terms.now.texts xs v) }
{
    names_stand();
    terms.len();
    let most = known.len() + definitions.len();
    let known = heads(alloc, terms, known)?;
    let own = heads(alloc, terms, definitions)?;
    let opening = opening_links(alloc, terms, names, &known, &own)?;
    let opened = ends(alloc, &opening, most)?;
    let kind = kind_links(alloc, terms, names, definitions, &own, &opened)?;
    let groups = ends(alloc, &kind, most)?;
    Ok(Kinds { opened, groups })
}
