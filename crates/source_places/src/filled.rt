//! The types in the text as they are in an instance, with its arguments in the place of parameters (RFC 8610 section 3.10).

ghost use Rattle.std.specs.Prelude.{◌≡◌, ◌<◌, ℕ, IfOk, List, Some, length, slice_get, true};
ghost use Rattle.cddl_language.specs.Terms.{Ref, arguments_of, name_of};
ghost use Rattle.check_instances.specs.declared.closed.closed.Meaning.{Meaning};
ghost use Rattle.check_terms.specs.Filled.{term_trees};
ghost use Rattle.check_terms.specs.Fill.Templates.{AreTrees};
ghost use Rattle.check_terms.specs.Table.{Table};
ghost use Rattle.table_making.specs.declared.origin.TypeOrigin.{TypeOrigin as Origin};
ghost use Rattle.tree_nodes.specs.Syntax.Syntax as S;
ghost use Rattle.source_pieces.specs.Instances.{all_as_written, term_in};
ghost use Rattle.source_places.specs.Sources.{IsKept, IsMade};

use crate::copies::copy_of;
use crate::sources::{Sources, TypesInText};
use check_terms::NoRoom;
use check_terms::laws::{equal_numbers, growing_keeps};
use source_pieces::filled;
use source_pieces::laws::growing_keeps_rules;
use std::alloc::Global;

impl Sources<'_> {
    // The types as they are in the instance of this number, which has these arguments.
    pub(crate) fn filled(
        &self,
        alloc: Global,
        instance: u32,
        arguments: &[u32],
    ) -> Result<TypesInText, NoRoom>
        requires { 0 < length arguments.now }
        ensures origins { IfOk result (λ y. y.origins.items ≡ self.now.text.origins.items) }
        ensures numbers { IfOk result (λ y. y.numbers.items ≡ self.now.text.numbers.items) }
        ensures is_filled { IfOk result (λ y. y.filled ≡ true) }
        ensures rules { IfOk result (λ y. y.rules.items ≡ self.now.text.rules.items) }
        ensures filled { IfOk result (λ y. (t : Table) (ms : List Meaning) (rs : List S.Rule) (os : List Origin) → (made : IsMade all_as_written t ms rs os self.now.text) → IsKept made.more ms rs self.now → (q : Ref) (n : ℕ) → slice_get self.now.text.numbers.items instance ≡ Some (Some n) → slice_get self.now.terms.texts n ≡ Some (name_of q) → AreTrees self.now.terms arguments.now (term_trees (arguments_of q)) → IsMade (term_in q) t ms rs os y) }
    {
        let text = &self.text;
        let Some(name) = text.instance_name(instance) else {
            return Err(NoRoom);
        };
        let mut terms = copy_of(alloc, &self.terms)?;
        let pieces = filled(
            alloc,
            &mut terms,
            &self.definitions,
            &text.rules,
            &text.pieces,
            name,
            arguments,
        )?;
        equal_numbers(&terms);
        growing_keeps();
        growing_keeps_rules();
        Ok(TypesInText {
            origins: copied(alloc, &text.origins)?,
            numbers: copied(alloc, &text.numbers)?,
            names: terms.text_count(),
            rules: copied(alloc, &text.rules)?,
            pieces,
            filled: true,
        })
    }
}

fn copied<T: Copy>(alloc: Global, items: &[T]) -> Result<Vec<T>, NoRoom>
    ensures { IfOk result (λ v. v.items ≡ items.now) }
{
    match Vec::from_slice(alloc, items) {
        Ok(copy) => Ok(copy),
        Err(_) => Err(NoRoom),
    }
}
