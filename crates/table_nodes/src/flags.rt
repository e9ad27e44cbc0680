//! Which groups of a table may take no item.
mod rules;

ghost use Rattle.std.specs.Prelude.{IfOk, List};
ghost use Rattle.cddl_meaning.specs.Ranks.Flags.{AreFlags};
ghost use Rattle.table_nodes.specs.Nodes.{language_in};
ghost use Rattle.table_nodes.specs.Ranks.{flag_in};
ghost use Rattle.table_nodes.specs.declared.nodes.Node.{Node};

use crate::Group;
use crate::flags::rules::{next_link, rules_of};
use graphs::implications::following;
use std::alloc::{AllocError, Global};

/// For each group of a list whether it may take no item, as its form shows (RFC 8610 sections 2.2 and 3.2): just those that may
/// have their flag set. Parts are groups of the same list; what is not there fails.
///
/// It takes time and memory in proportion to the groups and their parts. Nothing recurses. An error comes only where memory is
/// refused.
pub fn flags_of(alloc: Global, groups: &[Group]) -> Result<Vec<bool>, AllocError>
    ensures { IfOk result (λ v. (types : List Node) → AreFlags (language_in types groups.now) (flag_in v.items)) }
{
    let rules = rules_of(alloc, groups)?;
    let mut flags = following(alloc, next_link(groups, &rules), &rules)?;
    flags.truncate(groups.len());
    Ok(flags)
}
