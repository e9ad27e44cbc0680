//! A search over all types and groups that are asked for.

ghost use Rattle.std.specs.Prelude.{◌≡◌, IfOk, OnOk, Some, [], false, length, slice_get};
ghost use Rattle.table_making.specs.Basis.{IsSource, Sense};
ghost use Rattle.table_making.specs.Numbers.{Extends, keys_of};
ghost use Rattle.table_making.specs.Search.{HasSearch, IsWhole, keys_in};

use crate::groups::group_form;
use crate::numbers::Numbers;
use crate::origin::{GroupOrigin, TypeOrigin};
use crate::source::Source;
use crate::types::type_form;
use crate::weights::{take_group, take_type};
use check_terms::{NoRoom, Terms, push};
use rooms::Room;
use std::alloc::Global;
use table_nodes::{Group, Node};

/// How many types and groups there may be.
const MOST_NODES: u64 = 1 << 33;

/// Numbers, and the types and groups that are made so far, in the order of their numbers.
#[derive(Drop)]
pub(crate) struct Search {
    pub numbers: Numbers,
    pub types: Vec<Node>,
    pub groups: Vec<Group>,
    /// The parts of forms that may still be made.
    pub room: Room,
    /// The parts of groups that may still be gone through for the alternatives of maps.
    pub walks: Room,
}

impl Search {
    // Makes all types and groups that have numbers, and those that their parts ask for.
    pub(crate) fn run(
        &mut self,
        alloc: Global,
        terms: &Terms<'_>,
        source: &Source<'_>,
    ) -> Result<(), NoRoom>
        ensures grows { OnOk result (Extends (keys_in self.old) (keys_in self.new)) }
        ensures whole { OnOk result (IsWhole self.new) }
        ensures keeps { OnOk result ((s : Sense) → IsSource s terms.now source.now → HasSearch s terms.now self.old → HasSearch s terms.now self.new) }
    {
        for _ in 0..MOST_NODES {
            if !self.step(alloc, terms, source)? {
                return Ok(());
            }
        }
        Err(NoRoom)
    }

    // Makes the next type or group, if there is one.
    fn step(
        &mut self,
        alloc: Global,
        terms: &Terms<'_>,
        source: &Source<'_>,
    ) -> Result<bool, NoRoom>
        ensures grows { OnOk result (Extends (keys_in self.old) (keys_in self.new)) }
        ensures whole { IfOk result (λ more. more ≡ false → IsWhole self.new) }
        ensures keeps { OnOk result ((s : Sense) → IsSource s terms.now source.now → HasSearch s terms.now self.old → HasSearch s terms.now self.new) }
    {
        if let Some(origin) = self.numbers.type_at(self.types.len()) {
            self.make_type(alloc, terms, source, origin)?;
            return Ok(true);
        }
        if let Some(origin) = self.numbers.group_at(self.groups.len()) {
            self.make_group(alloc, terms, source, origin)?;
            return Ok(true);
        }
        Ok(false)
    }

    fn make_type(
        &mut self,
        alloc: Global,
        terms: &Terms<'_>,
        source: &Source<'_>,
        origin: TypeOrigin,
    ) -> Result<(), NoRoom>
        ensures grows { OnOk result (Extends (keys_in self.old) (keys_in self.new)) }
        ensures keeps { OnOk result ((s : Sense) → IsSource s terms.now source.now → slice_get (keys_in self.old).types (length self.old.types.items) ≡ Some origin → HasSearch s terms.now self.old → HasSearch s terms.now self.new) }
    {
        let form = type_form(alloc, terms, source, origin, &mut self.walks)?;
        take_type(&mut self.room, &form)?;
        let node = self.numbers.type_node(alloc, form)?;
        push(&mut self.types, node)?;
        Ok(())
    }

    fn make_group(
        &mut self,
        alloc: Global,
        terms: &Terms<'_>,
        source: &Source<'_>,
        origin: GroupOrigin,
    ) -> Result<(), NoRoom>
        ensures grows { OnOk result (Extends (keys_in self.old) (keys_in self.new)) }
        ensures keeps { OnOk result ((s : Sense) → IsSource s terms.now source.now → slice_get (keys_in self.old).groups (length self.old.groups.items) ≡ Some origin → HasSearch s terms.now self.old → HasSearch s terms.now self.new) }
    {
        let form = group_form(alloc, terms, source, origin)?;
        take_group(&mut self.room, &form)?;
        let node = self.numbers.group_node(alloc, form)?;
        push(&mut self.groups, node)?;
        Ok(())
    }
}
