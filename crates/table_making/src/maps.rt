//! The forms of maps (RFC 8610 section 3.5), and of the keys in them.

ghost use Rattle.std.specs.Prelude.{◌≡◌, IfOk, List, Option, Some, map, slice_get, vec_items};
ghost use Rattle.std.specs.String.{string_bytes};
ghost use Rattle.cbor_data.specs.Value as V;
ghost use Rattle.item_nodes.specs.View.{view};
ghost use Rattle.cddl_meaning.specs.Alike.{AlikeAll};
ghost use Rattle.cddl_language.specs.Language.{word};
ghost use Rattle.cddl_language.specs.Maps as M;
ghost use Rattle.cddl_language.specs.Maps.{Alternatives};
ghost use Rattle.cddl_language.specs.Terms as L;
ghost use Rattle.cddl_language.specs.Terms.{Group, Key, Term, Text};
ghost use Rattle.check_groups.specs.Splices.Maps.{AreAlternatives, IsMember};
ghost use Rattle.check_terms.specs.Trees.{IsEntry, IsGroup, IsKey, IsTerm};
ghost use Rattle.table_making.specs.Basis.{IsSource, Sense};
ghost use Rattle.table_making.specs.Lookups.{is_told};
ghost use Rattle.table_making.specs.Origins.{AreKnownAlternatives, AreKnownMembers, AreMapForms, IsKeyForm, IsKnown, IsKnownKey, IsKnownMember, IsMemberForm, IsTermForm, IsTypeForm};
ghost use Rattle.table_making.specs.Shapes.{key_by, pair_by};
ghost use Rattle.table_making.specs.declared.origin.TypeOrigin.TheVariants as T;

use crate::form::{EntryForm, KeyForm, TypeForm, nothing};
use crate::laws::known_members;
use crate::origin::TypeOrigin;
use crate::shape::Pair;
use crate::source::Source;
use crate::texts::most_of;
use alternatives::laws::all_described;
use alternatives::{Member, alternatives};
use check_groups::choosing::laws::texts_have_entries;
use check_groups::splices::laws::parts_stand_for_maps;
use check_terms::{Form, NoRoom, Row, Terms, push};
use item_nodes::Item;
use rooms::Room;
use std::alloc::Global;
use table_nodes::Test;

// The text string that the bareword with this text is as a key (section 3.5.1).
pub(crate) fn word_form(alloc: Global, terms: &Terms<'_>, text: u32) -> Result<TypeForm, NoRoom>
    ensures { IfOk result (λ f. (s : Sense) (n : Text) → slice_get terms.now.texts text ≡ Some n → IsTypeForm s terms.now (word n) f) }
{
    let Some(name) = terms.text(text) else {
        return Err(NoRoom);
    };
    match String::from_str(alloc, name) {
        Ok(word) => Ok(TypeForm::Plain(Test::Equals(text_item(word)))),
        Err(_) => Err(NoRoom),
    }
}

fn text_item(text: String) -> Item
    ensures { view result ≡ V.text (string_bytes text) }
{
    Item::Text(text)
}

// A map with one of the alternatives that the group of the row stands for. Where it stands for none, no item is such a map. What is
// gone through for them is taken from the room for walks.
pub(crate) fn map_form(
    alloc: Global,
    terms: &Terms<'_>,
    source: &Source<'_>,
    group: u32,
    walks: &mut Room,
) -> Result<TypeForm, NoRoom>
    ensures { IfOk result (λ f. (s : Sense) (g : Group) → IsSource s terms.now source.now → IsGroup terms.now group g → IsKnown s (L.map_of g) → IsTermForm s terms.now (L.map_of g) f) }
{
    all_described();
    known_members();
    parts_stand_for_maps();
    texts_have_entries();
    if !stands_for_some(source, group) {
        return Ok(nothing(alloc));
    }
    let number = group as usize;
    let Ok(Some(members)) = alternatives(alloc, source.parts, source.summaries, number, walks)
    else {
        return Err(NoRoom);
    };
    let forms = map_forms(alloc, terms, &members)?;
    Ok(TypeForm::MapOf(forms))
}

// Whether the group of the row stands for alternatives, few or many.
fn stands_for_some(source: &Source<'_>, group: u32) -> bool
    ensures { result ≡ is_told (slice_get source.now.summaries.now group) }
{
    matches!(source.summaries.get(group as usize), Some(Some(_)))
}

// The entries of alternatives.
fn map_forms(
    alloc: Global,
    terms: &Terms<'_>,
    alternatives: &[Vec<Member>],
) -> Result<Vec<Vec<EntryForm>>, NoRoom>
    ensures { IfOk result (λ v. (s : Sense) (mss : Alternatives) → AreAlternatives terms.now mss (map vec_items alternatives.now) → AreKnownAlternatives s mss → AreMapForms s terms.now mss v.items) }
{
    let mut forms = Vec::new(alloc);
    for members in alternatives {
        push(&mut forms, entry_forms(alloc, terms, members)?)?;
    }
    Ok(forms)
}

// The entries of an alternative.
fn entry_forms(
    alloc: Global,
    terms: &Terms<'_>,
    members: &[Member],
) -> Result<Vec<EntryForm>, NoRoom>
    ensures { IfOk result (λ v. (s : Sense) (ms : List M.Member) → AlikeAll (IsMember terms.now) ms members.now → AreKnownMembers s ms → AlikeAll (IsMemberForm s terms.now) ms v.items) }
{
    let mut forms = Vec::new(alloc);
    for member in members {
        push(&mut forms, entry_form(terms, *member)?)?;
    }
    Ok(forms)
}

fn entry_form(terms: &Terms<'_>, member: Member) -> Result<EntryForm, NoRoom>
    ensures { IfOk result (λ f. (s : Sense) (m : M.Member) → IsMember terms.now m member → IsKnownMember s m → IsMemberForm s terms.now m f) }
{
    let Ok(number) = u32::try_from(member.entry) else {
        return Err(NoRoom);
    };
    let pair = pair_at(terms, number)?;
    let key = key_at(terms, pair.key)?;
    Ok(EntryForm {
        least: member.bounds.least,
        most: most_of(member.bounds.most),
        key: key.origin,
        cuts: key.cuts,
        value: TypeOrigin::Row(pair.value),
    })
}

// The key and the type of the entry of the row.
fn pair_at(terms: &Terms<'_>, number: u32) -> Result<Pair, NoRoom>
    ensures { IfOk result (λ p. (o : Option Text) (k : Key) (x : Term) → IsEntry terms.now number (L.keyed o k x) → IsKey terms.now p.key k × IsTerm terms.now p.value x) }
{
    let Some(row) = terms.row(number) else {
        return Err(NoRoom);
    };
    match pair_of(row) {
        Some(pair) => Ok(pair),
        None => Err(NoRoom),
    }
}

fn pair_of(row: Row) -> Option<Pair>
    ensures { result ≡ pair_by row.form row.first row.second }
{
    match (row.form, row.first, row.second) {
        (Form::Keyed, Some(key), Some(value)) => Some(Pair { key, value }),
        _ => None,
    }
}

// The type of the key of the row, and whether it cuts (section 3.5.4).
fn key_at(terms: &Terms<'_>, number: u32) -> Result<KeyForm, NoRoom>
    ensures { IfOk result (λ f. (s : Sense) (k : Key) → IsKey terms.now number k → IsKnownKey s k → IsKeyForm s terms.now k f) }
{
    let Some(row) = terms.row(number) else {
        return Err(NoRoom);
    };
    match key_of(row) {
        Some(form) => Ok(form),
        None => Err(NoRoom),
    }
}

fn key_of(row: Row) -> Option<KeyForm>
    ensures { result ≡ key_by row.form row.text row.first }
{
    match (row.form, row.text, row.first) {
        (Form::TypeKey, _, Some(part)) => Some(type_key(part, false)),
        (Form::CutKey | Form::LiteralKey, _, Some(part)) => Some(type_key(part, true)),
        (Form::Bareword, Some(text), _) => Some(KeyForm {
            origin: TypeOrigin::Word(text),
            cuts: true,
        }),
        _ => None,
    }
}

fn type_key(row: u32, cuts: bool) -> KeyForm
    ensures { result ≡ record { origin = T.Row row; cuts = cuts } }
{
    KeyForm {
        origin: TypeOrigin::Row(row),
        cuts,
    }
}
