//! A root that leads to more instances than there may be (C10).

ghost use Rattle.check_instances.specs.Found.{IsFound};
ghost use Rattle.cddl_language.specs.Faults.{HasTooManyInstances, Specification, definitions};
ghost use Rattle.cddl_language.specs.Terms.{Text};
ghost use Rattle.lists.specs.Least.{IsLeast};
ghost use Rattle.check_terms.specs.Table.{Table};

use check_instances::Found;

/// 0, where the root leads to more instances than may be (C10), of which there are 4,096 at most; else None.
pub fn too_many(found: &Found) -> Option<usize>
    ensures { (s : Specification) (root : Text) (t : Table) → IsFound (definitions s) root t found.now → IsLeast (HasTooManyInstances s root) result }
{
    match found {
        Found::Instances(_) => None,
        Found::TooMany => Some(0),
    }
}
