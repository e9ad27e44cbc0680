//! Which names are parameters of which rules.

ghost use Rattle.std.specs.Prelude.{◌≡◌, IfOk};
ghost use Rattle.check_text.specs.SiteFaults.Marks.{AddsMark, AddsMarks, AreMarks, has_mark};

use check_reading::words::Word;
use check_terms::Definition;
use indexmap::IndexSet;
use std::alloc::{AllocError, Global};

/// A parameter: the place of its rule, and the number of its text.
#[derive(Clone, Copy, Debug, PartialEq, Eq, Hash)]
pub(crate) struct Mark {
    pub(crate) rule: usize,
    pub(crate) name: u32,
}

// The parameters of all rules.
pub(crate) fn marks_of(
    alloc: Global,
    definitions: &[Definition],
) -> Result<IndexSet<Mark>, AllocError>
    ensures { IfOk result (λ v. AreMarks definitions.now v.keys) }
{
    let mut marks = IndexSet::new(alloc);
    for (rule, definition) in definitions.iter().enumerate() {
        add_marks(&mut marks, rule, &definition.parameters)?;
    }
    Ok(marks)
}

fn add_marks(marks: &mut IndexSet<Mark>, rule: usize, parameters: &[u32]) -> Result<(), AllocError>
    ensures { IfOk result (λ v. AddsMarks rule parameters.now marks.old.keys marks.new.keys) }
{
    for name in parameters {
        add_mark(marks, Mark { rule, name: *name })?;
    }
    Ok(())
}

fn add_mark(marks: &mut IndexSet<Mark>, mark: Mark) -> Result<(), AllocError>
    ensures { IfOk result (λ v. AddsMark mark.rule mark.name marks.old.keys marks.new.keys) }
{
    marks.insert(mark)?;
    Ok(())
}

// Whether the name is a parameter of its rule.
pub(crate) fn is_marked(marks: &IndexSet<Mark>, word: Word) -> bool
    ensures { result ≡ has_mark marks.now.keys word.rule word.text }
{
    marks.contains(&Mark {
        rule: word.rule,
        name: word.text,
    })
}
