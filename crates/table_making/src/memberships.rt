//! What items are asked of which numbers have to be members of a controller.

ghost use Rattle.std.specs.Prelude.{◌≡◌, IfOk};
ghost use Rattle.cddl_language.specs.Language.{membership_test};
ghost use Rattle.check_literals.specs.Sizes.Sizes.{sizes_at, sizes_of};
ghost use Rattle.check_terms.specs.Texts.Controls.{membership_view};
ghost use Rattle.table_making.specs.Forms.{type_form_view};
ghost use Rattle.table_making.specs.Lookups.{member_view};
ghost use Rattle.table_nodes.specs.Nodes.{test_view};
ghost use Rattle.table_nodes.specs.SizeSets.{set_view};

use crate::form::{TypeForm, nothing};
use crate::origin::TypeOrigin;
use crate::source::Source;
use check_terms::NoRoom;
use check_terms::texts::Membership;
use std::alloc::Global;
use table_nodes::{NumberSet, Test};

// The items to which the type on the left says yes, and whose size (RFC 8610 section 3.8.1), or each of whose bits (section
// 3.8.2), is a member of the controller, where it has members. All controls of one kind on one controller share the list of
// its members.
pub(crate) fn member_form(
    alloc: Global,
    source: &Source<'_>,
    membership: Membership,
    left: u32,
    right: u32,
) -> Result<TypeForm, NoRoom>
    ensures { IfOk result (λ f. type_form_view f ≡ member_view (membership_view membership) left (sizes_at (sizes_of source.now.members.now (membership_view membership)) right)) }
{
    let Some(members) = source.members.of(membership).get(right) else {
        return Ok(nothing(alloc));
    };
    match members.share() {
        Ok(members) => Ok(TypeForm::Such(TypeOrigin::Row(left), test_of(membership, members))),
        Err(_) => Err(NoRoom),
    }
}

fn test_of(membership: Membership, members: NumberSet) -> Test
    ensures { test_view result ≡ membership_test (membership_view membership) (set_view members) }
{
    match membership {
        Membership::Size => Test::Sized(members),
        Membership::Bits => Test::Bits(members),
    }
}
