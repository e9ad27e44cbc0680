//! Which members of a choice of types are asked.

use crate::calls::Said;
use crate::means::Means;
use item_nodes::Item;
use table_nodes::{Candidates, LiteralIndex, Table, TypeId};

/// The members of a choice that are left: all from a position on, or by an index those of them that may say yes.
#[derive(Clone, Copy)]
pub(crate) struct Members<'t> {
    members: &'t [TypeId],
    from: usize,
    index: Option<(&'t LiteralIndex, Candidates)>,
    // Fewer steps are left than the members take that are passed over.
    spent: bool,
}

impl<'t> Members<'t> {
    ghost use Rattle.std.specs.Prelude.{◌≡◌, ℕ, ◌+◌, ◌<◌, ◌≤◌, MatchOption, drop, length};
    ghost use Rattle.cbor_data.specs.Value.{Value};
    ghost use Rattle.cddl_meaning.specs.Forms.{Choice, Language};
    ghost use Rattle.cddl_match.specs.Choosing.{Ended, GoesOn, IsAsking, first_in, is_no, left_of};
    ghost use Rattle.item_nodes.specs.View.{view};
    ghost use Rattle.table_nodes.specs.Language.{language_of};
    ghost use Rattle.table_nodes.specs.declared.nodes.GroupId.{GroupId};
    ghost use Rattle.table_nodes.specs.declared.nodes.TypeId.{TypeId as Id};

    // All members of a choice, which are asked one after the other.
    #[inline(always)]
    pub(crate) fn all(members: &'t [TypeId]) -> Members<'t>
        ensures left { left_of result ≡ members.now }
        ensures asking { (l : Language Id GroupId) (x : Value) → IsAsking l x result }
    {
        Members {
            members,
            from: 0,
            index: None,
            spent: false,
        }
    }

    // The members of this choice. Where the table has an index of them, those that are literals of other values than this
    // item's are passed over.
    #[inline(always)]
    pub(crate) fn of(
        table: &'t Table,
        choice: TypeId,
        members: &'t [TypeId],
        item: &Item,
    ) -> Members<'t>
        requires { (language_of table.now).type_at choice ≡ Choice members.now }
        ensures left { left_of result ≡ members.now }
        ensures asking { IsAsking (language_of table.now) (view item.now) result }
    {
        let index = match table.index_of(choice, members) {
            Some(index) => Some((index, index.first(item))),
            None => None,
        };
        Members {
            members,
            from: 0,
            index,
            spent: false,
        }
    }

    // The position of the next member that is asked, or the number of members.
    #[inline(always)]
    fn first(&self) -> usize
        ensures { result ≡ first_in self.now }
    {
        match self.index {
            Some((_, next)) => next.first(),
            None => self.from,
        }
    }

    // The members after the next one that is asked, at this position.
    #[inline(always)]
    fn after(&self, first: usize) -> Members<'t>
        requires { first < length self.now.members.now }
        ensures left { left_of result ≡ drop (first + 1) self.now.members.now }
        ensures asking { (l : Language Id GroupId) (x : Value) → IsAsking l x self.now → first ≡ first_in self.now → IsAsking l x result }
    {
        let index = match self.index {
            Some((index, next)) => Some((index, index.after(next))),
            None => None,
        };
        Members {
            from: first + 1,
            index,
            ..*self
        }
    }

    // The next member that is asked. Each one before it that is passed over would say no in one judgement, so all of them take
    // a step each, at once. There is none where all members have said no, or where these steps are spent.
    #[inline(always)]
    pub(crate) fn next(&mut self, means: &mut Means<'_>) -> Option<TypeId>
        ensures { (l : Language Id GroupId) (x : Value) (p far : ℕ) → IsAsking l x self.old → p ≤ far → MatchOption result (Ended l x p far means.old.left means.new.left self.old self.new) (GoesOn l x p far means.old.left means.new.left self.old self.new) }
    {
        let first = self.first();
        let passed = first.saturating_sub(self.from) as u64;
        let Some(left) = means.left.checked_sub(passed) else {
            self.spent = true;
            return None;
        };
        means.left = left;
        let Some(member) = self.members.get(first) else {
            return None;
        };
        *self = self.after(first);
        Some(*member)
    }

    // What is said where there is no next member, and the trials that failed show so far.
    #[inline(always)]
    pub(crate) fn said(&self, far: usize) -> Said
        ensures { result ≡ is_no self.now.spent far }
    {
        if self.spent {
            Said::Spent
        } else {
            Said::No { far }
        }
    }
}
