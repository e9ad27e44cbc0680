//! What the texts of tags, of `#` and of controls say.

ghost use Rattle.std.specs.Prelude.{◌≡◌, ◌<◌, ◌^◌, IfOk, Some, option_map, slice_get};
ghost use Rattle.cddl_meaning.specs.Forms as F;
ghost use Rattle.cddl_language.specs.Controls as C;
ghost use Rattle.cddl_language.specs.Numbers as N;
ghost use Rattle.cddl_language.specs.Terms.{Text};
ghost use Rattle.check_terms.specs.Texts.Controls.{control_view};
ghost use Rattle.check_terms.specs.Texts.HashForm.{form as form_of};
ghost use Rattle.check_terms.specs.Texts.Occurrence.{most_in};
ghost use Rattle.table_nodes.specs.Nodes.{most_view, test_view};
ghost use Rattle.table_making.specs.Forms.{tag_form_view};
ghost use Rattle.table_making.specs.Lookups.{is_over};
ghost use Rattle.table_making.specs.declared.origin.TypeOrigin.{TypeOrigin as Origin};

use crate::form::TagForm;
use cbor_data::Width;
use check_terms::texts::{
    Control, HashForm, TagNumber, control_of, hash_form, occurrence_of, tag_number,
};
use check_terms::{NoRoom, Terms};
use table_nodes::{Most, Test};

// The number of the tag's opening with this text.
pub(crate) fn tag_at(terms: &Terms<'_>, text: u32) -> Result<TagForm, NoRoom>
    ensures { IfOk result (λ f. (n : Text) → slice_get terms.now.texts text ≡ Some n → tag_form_view f ≡ N.tag_number n {N = Origin}) }
{
    let Some(text) = terms.text(text) else {
        return Err(NoRoom);
    };
    match tag_number(text) {
        TagNumber::Any => Ok(TagForm::Any),
        TagNumber::Exactly(number) => Ok(TagForm::Exactly(number)),
        TagNumber::TooGreat => Err(NoRoom),
    }
}

// The control with this text as its name, if it is known.
pub(crate) fn control_at(terms: &Terms<'_>, text: u32) -> Option<Control>
    ensures { (n : Text) → slice_get terms.now.texts text ≡ Some n → option_map control_view result ≡ C.control_of n }
{
    match terms.text(text) {
        Some(name) => control_of(name),
        None => None,
    }
}

// What a form of `#` with this text asks.
pub(crate) fn hash_at(terms: &Terms<'_>, text: u32) -> Result<Test, NoRoom>
    ensures { IfOk result (λ test. (n : Text) → slice_get terms.now.texts text ≡ Some n → test_view test ≡ N.hash_test (N.hash_form n)) }
{
    let Some(text) = terms.text(text) else {
        return Err(NoRoom);
    };
    match hash_form(text) {
        Some(form) => hash_test(form),
        None => Err(NoRoom),
    }
}

fn hash_test(form: HashForm) -> Result<Test, NoRoom>
    ensures { IfOk result (λ test. test_view test ≡ N.hash_test (form_of form)) }
{
    match form {
        HashForm::AnyItem => Ok(Test::Anything),
        HashForm::Major(digit) => Ok(Test::Major(digit)),
        HashForm::Numbered { number, .. } => number_test(number),
    }
}

// A float of a width, or a simple value.
fn number_test(number: u64) -> Result<Test, NoRoom>
    ensures { IfOk result (λ test. test_view test ≡ N.number_test number) }
{
    match number {
        25 => Ok(Test::Float(Width::W16)),
        26 => Ok(Test::Float(Width::W32)),
        27 => Ok(Test::Float(Width::W64)),
        _ => simple_test(number),
    }
}

fn simple_test(number: u64) -> Result<Test, NoRoom>
    ensures { IfOk result (λ test. test_view test ≡ F.simple_value number) }
{
    if number > 255 {
        return Err(NoRoom);
    }
    Ok(Test::Simple(number as u8))
}

/// How often an entry may stand.
#[derive(Clone, Copy)]
pub(crate) struct Times {
    pub least: u64,
    pub most: Most,
}

// What the occurrence with this text says.
pub(crate) fn times_at(terms: &Terms<'_>, text: u32) -> Result<Times, NoRoom>
    ensures least { IfOk result (λ o. (n : Text) → slice_get terms.now.texts text ≡ Some n → o.least ≡ N.least_in n) }
    ensures most { IfOk result (λ o. (n : Text) → slice_get terms.now.texts text ≡ Some n → most_view o.most ≡ N.most_in n) }
{
    let Some(text) = terms.text(text) else {
        return Err(NoRoom);
    };
    match occurrence_of(text) {
        Some(occurrence) => Ok(Times {
            least: occurrence.least,
            most: most_of(occurrence.most),
        }),
        None => Err(NoRoom),
    }
}

pub(crate) fn most_of(most: Option<u64>) -> Most
    ensures { most_view result ≡ most_in most }
{
    match most {
        Some(most) => Most::AtMost(most),
        None => Most::Any,
    }
}

impl Times {
    // Whether it is exactly once.
    pub(crate) fn are_once(&self) -> bool
        ensures { result ≡ N.is_once self.now.least (most_view self.now.most) }
    {
        self.least == 1 && self.most == Most::AtMost(1)
    }
    // Whether it is no number of times, as the least is over the most.
    pub(crate) fn are_impossible(&self) -> bool
        ensures { result ≡ is_over self.now.least (most_view self.now.most) }
    {
        match self.most {
            Most::AtMost(most) => most < self.least,
            Most::Any => false,
        }
    }
}
