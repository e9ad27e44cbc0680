//! The names in the texts of openings, as `name<`, and of controls, as `.size`.

ghost use Rattle.std.specs.Prelude.{◌≡◌};
ghost use Rattle.cddl_language.specs.Numbers.{after, before};

/// The name in the text of its opening, as `name<`: what is before the first `<`, or all of a text without one.
pub fn opened_name(text: &str) -> &str
    ensures { result.now ≡ before 60 text.now }
{
    match text.split_once('<') {
        Some((name, _)) => name,
        None => text,
    }
}

/// The name of a control, as `.size`: what is after the first `.`, or nothing of a text without one.
pub fn control_name(text: &str) -> &str
    ensures { result.now ≡ after 46 text.now }
{
    match text.split_once('.') {
        Some((_, name)) => name,
        None => "",
    }
}
