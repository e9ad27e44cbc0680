//! What names, choices of one type and groups of one group lead to.

ghost use Rattle.std.specs.Prelude.{◌≡◌, [], ◌∷◌, IfSome, MatchOption};
ghost use Rattle.cddl_meaning.specs.Forms.{Choice, Language};
ghost use Rattle.cddl_match.specs.Ahead.{IsGroupOf, IsTypeOf};
ghost use Rattle.table_nodes.specs.Language.{language_of};
ghost use Rattle.table_nodes.specs.Nodes.{type_view};
ghost use Rattle.table_nodes.specs.declared.nodes.GroupId.{GroupId};
ghost use Rattle.table_nodes.specs.declared.nodes.TypeId.{TypeId};

use table_nodes::{Group, GroupId, Node, Table, TypeId};

/// So many names, choices of one and groups of one are looked through at once. What is behind more of them takes single
/// questions, so that no way is looked through again and again.
const FARTHEST: u8 = 8;

// The only one of the parts.
#[inline]
fn only<Id: Copy>(parts: &[Id]) -> Option<Id>
    ensures { IfSome result (λ part. parts.now ≡ part ∷ []) }
{
    match parts {
        [part] => Some(*part),
        _ => None,
    }
}

// The type that a type of this form leads to, if that is a name or a choice of one.
#[inline(always)]
fn next_type(form: &Node) -> Option<TypeId>
    ensures { IfSome result (λ next. (l : Language TypeId GroupId) (n : TypeId) → l.type_at n ≡ type_view form.now → IsTypeOf l n next 1) }
{
    match form {
        Node::Ref(to) => Some(*to),
        Node::Choice(members) => only(members),
        _ => None,
    }
}

// The group that a name or a group of one group leads to.
fn next_group(table: &Table, group: GroupId) -> Option<GroupId>
    ensures { IfSome result (λ next. IsGroupOf (language_of table.now) group next 1) }
{
    match table.group(group)? {
        Group::Ref(to) => Some(*to),
        Group::Sequence(parts) => only(parts),
        Group::Alternatives(parts) => only(parts),
        _ => None,
    }
}

/// What is behind names and choices of one.
#[derive(Clone, Copy)]
pub(crate) struct Behind<'t> {
    pub(crate) node: TypeId,
    /// Its form, if the table has the type.
    pub(crate) form: Option<&'t Node>,
    /// How many names and choices of one there are.
    pub(crate) passed: u8,
}

// The type behind names and choices of one.
#[inline(always)]
pub(crate) fn type_behind<'t>(table: &'t Table, node: TypeId) -> Behind<'t>
    ensures passed { IsTypeOf (language_of table.now) node result.node result.passed }
    ensures form { MatchOption result.form ((language_of table.now).type_at result.node ≡ Choice []) (λ it. (language_of table.now).type_at result.node ≡ type_view it.now) }
{
    let mut behind = Behind {
        node,
        form: table.node(node),
        passed: 0,
    };
    while behind.passed < FARTHEST {
        let Some(form) = behind.form else {
            break;
        };
        let Some(next) = next_type(form) else {
            break;
        };
        behind = Behind {
            node: next,
            form: table.node(next),
            passed: behind.passed + 1,
        };
    }
    behind
}

// The group behind names and groups of one group, and how many of them there are.
#[inline]
pub(crate) fn group_behind(table: &Table, group: GroupId) -> (GroupId, u8)
    ensures { IsGroupOf (language_of table.now) group result.0 result.1 }
{
    let mut behind = group;
    let mut asked = 0;
    while asked < FARTHEST {
        match next_group(table, behind) {
            Some(next) => behind = next,
            None => break,
        }
        asked += 1;
    }
    (behind, asked)
}
