//! What a type says of an item where tests alone tell it: the type is a test, or a choice of such types.

ghost use Rattle.std.specs.Prelude.{◌≤◌, IfSome};
ghost use Rattle.cddl_match.specs.Ahead.{AreTold, IsTold, IsTypeTold};
ghost use Rattle.match_tests.specs.Views.{subject_view};
ghost use Rattle.table_nodes.specs.Language.{language_of};
ghost use Rattle.table_nodes.specs.Nodes.{type_view};

use crate::behind::type_behind;
use match_tests::{Subject, passes_test};
use table_nodes::{Node, Table, TypeId};

/// Choices in choices are looked into so deep, so that few tests are made in vain where something else is in them.
pub(crate) const DEEPEST: u8 = 3;

// Choices of so many types are not looked into: a table may have an index of them, by which few are asked.
const MANY: usize = 16;

// Whether a type of this form says yes, and how many questions that takes after the first, if not over `most`. Choices are
// looked into as deep as this.
#[inline(always)]
#[cycle(telling)]
pub(crate) fn form_tells(
    table: &Table,
    form: &Node,
    subject: Subject<'_>,
    depth: u8,
    most: u64,
) -> Option<(bool, u64)>
    ensures { IfSome result (λ said. IsTold (language_of table.now) (type_view form.now) (subject_view subject.entry) said.0 said.1 × (said.1 ≤ most)) }
{
    match form {
        Node::Plain(test) => Some((passes_test(test, subject), 0)),
        Node::Choice(members) if depth > 0 && members.len() < MANY => {
            one_tells(table, members, subject, depth - 1, most)
        }
        _ => None,
    }
}

// Whether one of these types says yes, and how many questions that takes, if not over `most`.
#[cycle(telling)]
fn one_tells(
    table: &Table,
    members: &[TypeId],
    subject: Subject<'_>,
    depth: u8,
    most: u64,
) -> Option<(bool, u64)>
    ensures { IfSome result (λ said. AreTold (language_of table.now) members.now (subject_view subject.entry) said.0 said.1 × (said.1 ≤ most)) }
{
    let mut asked = 0;
    for member in members {
        let (says, more) = type_tells(table, *member, subject, depth, most - asked)?;
        asked += more;
        if says {
            return Some((true, asked));
        }
    }
    Some((false, asked))
}

// Whether a type says yes, and how many questions that takes, if not over `most`.
#[cycle(telling)]
fn type_tells(
    table: &Table,
    node: TypeId,
    subject: Subject<'_>,
    depth: u8,
    most: u64,
) -> Option<(bool, u64)>
    ensures { IfSome result (λ said. IsTypeTold (language_of table.now) node (subject_view subject.entry) said.0 said.1 × (said.1 ≤ most)) }
{
    let behind = type_behind(table, node);
    let first = u64::from(behind.passed) + 1;
    let left = most.checked_sub(first)?;
    let (says, more) = form_tells(table, behind.form?, subject, depth, left)?;
    Some((says, more + first))
}
