//! Additions to a table of terms that answer `NoRoom` where memory is refused or a part is not there.

ghost use Rattle.std.specs.Prelude.{◌≡◌, ◌↔◌, IfOk, IsTrue};
ghost use Rattle.check_terms.specs.declared.row.Form.{Form};
ghost use Rattle.check_terms.specs.Table.{Grows, Holds, IsPart, Tree, node};
ghost use Rattle.std.specs.Prelude.{None, Some};

use check_terms::{Form, NoRoom, Row, Terms};

// The number of the row of this form with these parts and without a text, where the parts are there.
pub(crate) fn add(
    terms: &mut Terms<'_>,
    form: Form,
    first: Option<u32>,
    second: Option<u32>,
) -> Result<u32, NoRoom>
    ensures grows { Grows terms.old terms.new }
    ensures texts { terms.new.texts ≡ terms.old.texts }
    ensures stands { IfOk result (λ n. (a b : Tree) → Holds terms.old first a → Holds terms.old second b → Holds terms.new (Some n) (node form None a b)) }
{
    if !is_part(terms, first) || !is_part(terms, second) {
        return Err(NoRoom);
    }
    terms.add(Row {
        form,
        text: None,
        first,
        second,
    })
}

pub(crate) fn is_part(terms: &Terms<'_>, number: Option<u32>) -> bool
    ensures { IsTrue result ↔ IsPart terms.now number }
{
    match number {
        Some(number) => (number as usize) < terms.len(),
        None => true,
    }
}
