//! Definitions with the templates of their bodies, ready to be filled with arguments.

ghost use Rattle.std.specs.Prelude.{◌≡◌, List, IfOk};
ghost use Rattle.cddl_language.specs.Terms as L;
ghost use Rattle.check_terms.specs.Definitions.{AreDefinitions, IsDefinition};
ghost use Rattle.check_instances.specs.Bodies.{ArePatterns, IsPattern};
ghost use Rattle.check_instances.specs.Steps as by;

use check_terms::fill::{Slots, Template};
use check_terms::{Body, Definition, NoRoom, Terms, push};
use std::alloc::Global;

/// A definition's body, and its template.
#[derive(Drop)]
pub(crate) struct Pattern {
    pub body: Body,
    pub template: Template,
}

// The definitions, ready to be filled.
pub(crate) fn patterns(
    alloc: Global,
    terms: &Terms<'_>,
    definitions: &[Definition],
) -> Result<Vec<Pattern>, NoRoom>
    ensures { IfOk result (λ v. (xs : List L.Definition) → AreDefinitions terms.now definitions.now xs → ArePatterns terms.now v.items xs) }
{
    let mut patterns = Vec::new(alloc);
    for definition in definitions {
        let pattern = pattern_of(alloc, terms, definition)?;
        push(&mut patterns, pattern)?;
    }
    Ok(patterns)
}

fn pattern_of(alloc: Global, terms: &Terms<'_>, definition: &Definition) -> Result<Pattern, NoRoom>
    ensures { IfOk result (λ p. (x : L.Definition) → IsDefinition terms.now definition.now x → IsPattern terms.now p x) }
{
    let body = definition.body;
    let slots = Slots::new(alloc, &definition.parameters)?;
    let template = Template::new(alloc, terms, &slots, row_of(body))?;
    Ok(Pattern { body, template })
}

pub(crate) fn row_of(body: Body) -> u32
    ensures { result ≡ by.row_of body }
{
    match body {
        Body::Types(row) | Body::Entry(row) => row,
    }
}
