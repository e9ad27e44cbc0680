//! The kinds of names, and what `~` of a name unwraps.

use crate::texts_told::text_in;
use check_names::kinds::Shape;
use check_reading::survey::Survey;
use check_terms::Terms;
use std::alloc::Global;

fn letter(shape: Option<Shape>) -> &'static str {
    match shape {
        None => "-",
        Some(Shape::Group) => "G",
        Some(Shape::Content) => "C",
    }
}

// The kind of the name, and what `~` of it unwraps; `-` of a name that stands nowhere.
pub(crate) fn kind_of(
    alloc: Global,
    terms: &Terms<'_>,
    survey: &Survey,
    name: &str,
) -> Option<String> {
    match terms.find_text(name) {
        Some(number) => {
            let kind = if survey.kinds.is_group(number) {
                "group"
            } else {
                "type"
            };
            let opened = letter(survey.kinds.opened(number));
            format!(in alloc; "{kind} {opened} ").ok()
        }
        None => text_in(alloc, "-"),
    }
}
