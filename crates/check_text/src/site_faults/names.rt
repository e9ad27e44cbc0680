//! What a survey says of a name, by the number of its text.

ghost use Rattle.std.specs.Prelude.{◌≡◌, option_map, slice_get};
ghost use Rattle.check_text.specs.SiteFaults.Names.{count_there, is_defined_there};
ghost use Rattle.check_text.specs.SiteFaults.Roles.{is_name_role};

use check_names::environment::Name;
use check_reading::survey::Survey;
use check_reading::words::Role;

// Whether a word that is this is a name.
pub(crate) fn is_name(role: Role) -> bool
    ensures { result ≡ is_name_role role }
{
    matches!(
        role,
        Role::Name { .. } | Role::Unwrapped { .. } | Role::ChosenFrom
    )
}

fn name_of(survey: &Survey, number: u32) -> Option<&Name>
    ensures { option_map (λ n. n.now) result ≡ slice_get survey.now.names.items number }
{
    survey.names.get(number as usize)
}

// Whether the name has a definition, in the prelude or in the text.
pub(crate) fn is_defined(survey: &Survey, number: u32) -> bool
    ensures { result ≡ is_defined_there (slice_get survey.now.names.items number) }
{
    match name_of(survey, number) {
        Some(name) => name.known.is_some() || name.first.is_some(),
        None => false,
    }
}

// How many parameters the name has, if it has a definition.
pub(crate) fn parameter_count(survey: &Survey, number: u32) -> Option<usize>
    ensures { result ≡ count_there survey.now.definitions.items (slice_get survey.now.names.items number) }
{
    let name = name_of(survey, number)?;
    if name.known.is_some() {
        return Some(0);
    }
    let definition = survey.definitions.get(name.first?)?;
    Some(definition.parameters.len())
}
