//! The forms of types.

ghost use Rattle.std.specs.Prelude.{◌≡◌, IfOk, List, Some, [], option_map, slice_get, true};
ghost use Rattle.cddl_meaning.specs.Forms as F;
ghost use Rattle.cddl_language.specs.Choices.{can_choose};
ghost use Rattle.cddl_language.specs.Language.{TypeName};
ghost use Rattle.cddl_language.specs.Reach.{points};
ghost use Rattle.cddl_language.specs.Terms as L;
ghost use Rattle.cddl_language.specs.Terms.{Entries, Group, Ref, Term, Text};
ghost use Rattle.check_instances.specs.Closed.Closed.{AreAlternatives};
ghost use Rattle.check_literals.specs.Literals.{literal_at};
ghost use Rattle.check_literals.specs.Sizes.Sizes.{sizes_at, sizes_of};
ghost use Rattle.check_terms.specs.Table.{Table};
ghost use Rattle.table_nodes.specs.Nodes.{content_view};
ghost use Rattle.check_terms.specs.Texts.Controls.{control_view};
ghost use Rattle.check_terms.specs.Trees.{IsGroup, IsRef, IsTerm};
ghost use Rattle.table_making.specs.Basis.{IsSource, Sense};
ghost use Rattle.table_making.specs.Forms.{type_form_view};
ghost use Rattle.table_making.specs.Lookups.{control_form_view, is_flagged, opened_view};
ghost use Rattle.table_making.specs.declared.origin.TypeOrigin.TheVariants as T;
ghost use Rattle.table_making.specs.Origins.{AreKnown, IsChosenForm, IsInstanceForm, IsKnown, IsReached, IsTermForm, IsTypeForm, IsTypeOrigin};

use crate::asked::{group_at, is_group, meaning_there, place_at};
use crate::chosen::chosen;
use crate::comparisons::comparison_form;
use crate::form::{TagForm, TypeForm, nothing};
use crate::laws::known_instances;
use crate::literals::{equal_form, range_form};
use crate::maps::{map_form, word_form};
use crate::memberships::member_form;
use crate::origin::{GroupOrigin, TypeOrigin};
use crate::row_origins::row_origins;
use crate::shape::{Shape, shape_at};
use crate::source::Source;
use crate::texts::{control_at, hash_at, tag_at};
use check_instances::closed::choices;
use check_instances::closed::laws::meaning_at;
use check_instances::openings::Opening;
use check_instances::openings::laws::opening_stands;
use check_terms::texts::Control;
use check_terms::{NoRoom, Terms};
use rooms::Room;
use std::alloc::Global;
use table_nodes::Content;

// The form of the type that is of this.
pub(crate) fn type_form(
    alloc: Global,
    terms: &Terms<'_>,
    source: &Source<'_>,
    origin: TypeOrigin,
    walks: &mut Room,
) -> Result<TypeForm, NoRoom>
    ensures { IfOk result (λ f. (s : Sense) (n : TypeName) → IsSource s terms.now source.now → IsTypeOrigin s terms.now n origin → IsTypeForm s terms.now n f) }
{
    match origin {
        TypeOrigin::Row(row) => row_form(alloc, terms, source, row, walks),
        TypeOrigin::Instance(place) => instance_form(alloc, source, place),
        TypeOrigin::Chosen(group) => chosen_form(alloc, terms, source, group),
        TypeOrigin::Word(text) => word_form(alloc, terms, text),
    }
}

// The form of the type of a row.
fn row_form(
    alloc: Global,
    terms: &Terms<'_>,
    source: &Source<'_>,
    row: u32,
    walks: &mut Room,
) -> Result<TypeForm, NoRoom>
    ensures { IfOk result (λ f. (s : Sense) (x : Term) → IsSource s terms.now source.now → IsTerm terms.now row x → IsKnown s x → IsTermForm s terms.now x f) }
{
    match shape_at(terms, row) {
        Shape::Literal => equal_form(alloc, source, row),
        Shape::Named(call) => named_form(alloc, terms, source, call),
        Shape::Parens(part) => Ok(TypeForm::Ref(TypeOrigin::Row(part))),
        Shape::MapOf(group) => map_form(alloc, terms, source, group, walks),
        Shape::ArrayOf(group) => Ok(TypeForm::ArrayOf(GroupOrigin::Alternatives(Some(group)))),
        Shape::Unwrapped(call) => unwrapped_form(alloc, terms, source, call),
        Shape::ChoiceOf(group) => choice_form(alloc, terms, source, group),
        Shape::ChoiceOfName(call) => named_choice_form(alloc, terms, source, call),
        Shape::Tagged(text, content) => tagged_form(terms, text, content),
        Shape::TaggedBy(head, content) => Ok(TypeForm::TagOf(
            TagForm::SuchAs(TypeOrigin::Row(head)),
            TypeOrigin::Row(content),
        )),
        Shape::SimpleBy(head) => Ok(TypeForm::SimpleBy(TypeOrigin::Row(head))),
        Shape::Hash(text) => hash_form(terms, text),
        Shape::Range(least, last) => Ok(range_form(alloc, source, least, last, true)),
        Shape::RangeBelow(least, last) => Ok(range_form(alloc, source, least, last, false)),
        Shape::Or => or_form(alloc, terms, row),
        Shape::Control(name, left, right) => {
            control_form(alloc, terms, source, row, name, left, right)
        }
        Shape::Other => Ok(nothing(alloc)),
    }
}

// What the name of a type means. The name of a group is no type.
fn named_form(
    alloc: Global,
    terms: &Terms<'_>,
    source: &Source<'_>,
    call: u32,
) -> Result<TypeForm, NoRoom>
    ensures { IfOk result (λ f. (s : Sense) (r : Ref) → IsSource s terms.now source.now → IsRef terms.now call r → IsReached s (points (L.named r)) → IsTermForm s terms.now (L.named r) f) }
{
    if is_group(terms, source, call) {
        return Ok(nothing(alloc));
    }
    match place_at(terms, source, call) {
        Some(place) => Ok(TypeForm::Ref(TypeOrigin::Instance(place))),
        None => Err(NoRoom),
    }
}

// The content of the tag that the name stands for, if it does.
fn unwrapped_form(
    alloc: Global,
    terms: &Terms<'_>,
    source: &Source<'_>,
    call: u32,
) -> Result<TypeForm, NoRoom>
    ensures { IfOk result (λ f. (s : Sense) (r : Ref) → IsSource s terms.now source.now → IsRef terms.now call r → IsReached s (points (L.unwrapped r)) → IsTermForm s terms.now (L.unwrapped r) f) }
{
    known_instances();
    opening_stands();
    let Some(place) = place_at(terms, source, call) else {
        return Err(NoRoom);
    };
    match opening_there(source, place) {
        Some(opening) => Ok(opened_form(alloc, opening)),
        None => Err(NoRoom),
    }
}

fn opening_there(source: &Source<'_>, place: u32) -> Option<Opening>
    ensures { result ≡ slice_get source.now.openings.now place }
{
    source.openings.get(place as usize).copied()
}

fn opened_form(alloc: Global, opening: Opening) -> TypeForm
    ensures { type_form_view result ≡ opened_view opening }
{
    match opening {
        Opening::Type(row) => TypeForm::Ref(TypeOrigin::Row(row)),
        _ => nothing(alloc),
    }
}

// Whether `&` can choose from the group of the row.
fn is_choosable(source: &Source<'_>, group: u32) -> bool
    ensures { result ≡ is_flagged (slice_get source.now.choosable.now group) }
{
    matches!(source.choosable.get(group as usize), Some(true))
}

// What `&` chooses from in the alternatives of a group's row, if it can.
fn choice_form(
    alloc: Global,
    terms: &Terms<'_>,
    source: &Source<'_>,
    group: u32,
) -> Result<TypeForm, NoRoom>
    ensures { IfOk result (λ f. (s : Sense) (g : Group) → IsSource s terms.now source.now → IsGroup terms.now group g → IsKnown s (L.choice_of g) → IsTermForm s terms.now (L.choice_of g) f) }
{
    if is_choosable(source, group) {
        return chosen_form(alloc, terms, source, Some(group));
    }
    Ok(nothing(alloc))
}

fn named_choice_form(
    alloc: Global,
    terms: &Terms<'_>,
    source: &Source<'_>,
    call: u32,
) -> Result<TypeForm, NoRoom>
    ensures { IfOk result (λ f. (s : Sense) (r : Ref) → IsSource s terms.now source.now → IsRef terms.now call r → IsReached s (points (L.choice_of_name r)) → IsTermForm s terms.now (L.choice_of_name r) f) }
{
    known_instances();
    let Some(place) = place_at(terms, source, call) else {
        return Err(NoRoom);
    };
    match group_at(source, place) {
        Some(group) => choice_form(alloc, terms, source, group),
        None => Ok(nothing(alloc)),
    }
}

// All that `&` chooses from in the alternatives of a group's row, or in none, where it can choose.
fn chosen_form(
    alloc: Global,
    terms: &Terms<'_>,
    source: &Source<'_>,
    group: Option<u32>,
) -> Result<TypeForm, NoRoom>
    ensures { IfOk result (λ f. (s : Sense) (ess : List Entries) → IsSource s terms.now source.now → AreAlternatives terms.now ess group → AreKnown s ess → can_choose s.definitions ess ≡ true → IsChosenForm s terms.now ess f) }
{
    let chosen = chosen(alloc, terms, source, group)?;
    Ok(TypeForm::Choice(chosen))
}

fn tagged_form(terms: &Terms<'_>, text: u32, content: u32) -> Result<TypeForm, NoRoom>
    ensures { IfOk result (λ f. (s : Sense) (n : Text) (x : Term) → slice_get terms.now.texts text ≡ Some n → IsTerm terms.now content x → IsKnown s (L.tagged n x) → IsTermForm s terms.now (L.tagged n x) f) }
{
    let number = tag_at(terms, text)?;
    Ok(TypeForm::TagOf(number, TypeOrigin::Row(content)))
}

fn hash_form(terms: &Terms<'_>, text: u32) -> Result<TypeForm, NoRoom>
    ensures { IfOk result (λ f. (s : Sense) (n : Text) → slice_get terms.now.texts text ≡ Some n → IsTermForm s terms.now (L.hash n) f) }
{
    let test = hash_at(terms, text)?;
    Ok(TypeForm::Plain(test))
}

// The members of a choice.
fn or_form(alloc: Global, terms: &Terms<'_>, row: u32) -> Result<TypeForm, NoRoom>
    ensures { IfOk result (λ f. (s : Sense) (a b : Term) → IsTerm terms.now row (L.or a b) → IsKnown s (L.or a b) → IsTermForm s terms.now (L.or a b) f) }
{
    let Ok(rows) = choices(alloc, terms, row) else {
        return Err(NoRoom);
    };
    match row_origins(alloc, &rows) {
        Ok(origins) => Ok(TypeForm::Choice(origins)),
        Err(_) => Err(NoRoom),
    }
}

// What a control asks: the type on its left, and the controller of the same item or of what a byte string holds, if at all, or how
// the item compares with it, or what size it has, or that it is the literal that is computed from both sides.
fn control_form(
    alloc: Global,
    terms: &Terms<'_>,
    source: &Source<'_>,
    row: u32,
    name: u32,
    left: u32,
    right: u32,
) -> Result<TypeForm, NoRoom>
    ensures { IfOk result (λ f. (s : Sense) (n : Text) (a b : Term) → IsSource s terms.now source.now → IsTerm terms.now row (L.control a n b) → slice_get terms.now.texts name ≡ Some n → IsTerm terms.now left a → IsTerm terms.now right b → IsKnown s (L.control a n b) → IsTermForm s terms.now (L.control a n b) f) }
{
    let control = control_at(terms, name);
    known_form(alloc, source, control, row, left, right)
}

fn known_form(
    alloc: Global,
    source: &Source<'_>,
    control: Option<Control>,
    row: u32,
    left: u32,
    right: u32,
) -> Result<TypeForm, NoRoom>
    ensures { IfOk result (λ f. type_form_view f ≡ control_form_view (option_map control_view control) left right (literal_at source.now.literals.now right) (literal_at source.now.literals.now row) (λ k. sizes_at (sizes_of source.now.members.now k) right)) }
{
    match control {
        Some(Control::LeftAlone) => Ok(TypeForm::Ref(TypeOrigin::Row(left))),
        Some(Control::LeftAndRight) => Ok(both(left, right)),
        Some(Control::HeldItem) => Ok(holding(left, Content::OneItem, right)),
        Some(Control::HeldSequence) => Ok(holding(left, Content::Sequence, right)),
        Some(Control::Compared(comparison)) => {
            comparison_form(alloc, source, comparison, left, right)
        }
        Some(Control::Member(membership)) => { member_form(alloc, source, membership, left, right) }
        Some(Control::Computed(_)) => equal_form(alloc, source, row),
        None => Ok(nothing(alloc)),
    }
}

fn both(left: u32, right: u32) -> TypeForm
    ensures { type_form_view result ≡ F.Both (T.Row left) (T.Row right) }
{
    TypeForm::Both(TypeOrigin::Row(left), TypeOrigin::Row(right))
}

fn holding(left: u32, content: Content, right: u32) -> TypeForm
    ensures { type_form_view result ≡ F.Holding (T.Row left) (content_view content) (T.Row right) }
{
    TypeForm::Holding(TypeOrigin::Row(left), content, TypeOrigin::Row(right))
}

// The choices of the instance at this place.
fn instance_form(alloc: Global, source: &Source<'_>, place: u32) -> Result<TypeForm, NoRoom>
    ensures { IfOk result (λ f. (s : Sense) (t : Table) (r : Ref) → IsSource s t source.now → slice_get s.refs place ≡ Some r → IsInstanceForm s t r f) }
{
    known_instances();
    meaning_at();
    let Some(meaning) = meaning_there(source, place) else {
        return Err(NoRoom);
    };
    match row_origins(alloc, &meaning.types) {
        Ok(origins) => Ok(TypeForm::Choice(origins)),
        Err(_) => Err(NoRoom),
    }
}
