//! Numbers of types and groups: each gets one at its first demand, and none twice.

ghost use Rattle.std.specs.Prelude.{◌≡◌, IfOk, Some, [], slice_get};
ghost use Rattle.table_nodes.specs.Nodes.{group_view, tag_number_view, type_view};
ghost use Rattle.check_terms.specs.Table.{Adds};
ghost use Rattle.table_making.specs.Forms.{group_form_view, tag_form_view, type_form_view};
ghost use Rattle.table_making.specs.Numbers.{MakesGroup, MakesNumber, MakesType, NumbersEntries, NumbersEntry, NumbersGroup, NumbersGroups, NumbersMap, NumbersType, NumbersTypes, keys_of};

use crate::form::{EntryForm, GroupForm, TagForm, TypeForm};
use crate::origin::{GroupOrigin, TypeOrigin};
use check_terms::{NoRoom, push};
use indexmap::IndexSet;
use std::alloc::{AllocError, Global};
use table_nodes::{Group, GroupId, MapEntry, Node, TagNumber, TypeId};

/// What the types and groups with numbers are of, in the order of the numbers.
#[derive(Drop)]
pub(crate) struct Numbers {
    pub types: IndexSet<TypeOrigin>,
    pub groups: IndexSet<GroupOrigin>,
}

fn insert_type(types: &mut IndexSet<TypeOrigin>, origin: TypeOrigin) -> Result<usize, NoRoom>
    ensures there { IfOk result (λ n. slice_get types.new.keys n ≡ Some origin) }
    ensures adds { Adds types.old.keys origin types.new.keys }
{
    match types.insert_full(origin) {
        Ok((number, _)) => Ok(number),
        Err(_) => Err(NoRoom),
    }
}

fn insert_group(groups: &mut IndexSet<GroupOrigin>, origin: GroupOrigin) -> Result<usize, NoRoom>
    ensures there { IfOk result (λ n. slice_get groups.new.keys n ≡ Some origin) }
    ensures adds { Adds groups.old.keys origin groups.new.keys }
{
    match groups.insert_full(origin) {
        Ok((number, _)) => Ok(number),
        Err(_) => Err(NoRoom),
    }
}

impl Numbers {
    pub(crate) fn new(alloc: Global) -> Self
        ensures types { result.types.keys ≡ [] }
        ensures groups { result.groups.keys ≡ [] }
    {
        Numbers {
            types: IndexSet::new(alloc),
            groups: IndexSet::new(alloc),
        }
    }

    // What the type of this number is of, if there is one.
    pub(crate) fn type_at(&self, number: usize) -> Option<TypeOrigin>
        ensures { result ≡ slice_get self.now.types.keys number }
    {
        self.types.get_index(number).copied()
    }

    // What the group of this number is of, if there is one.
    pub(crate) fn group_at(&self, number: usize) -> Option<GroupOrigin>
        ensures { result ≡ slice_get self.now.groups.keys number }
    {
        self.groups.get_index(number).copied()
    }

    pub(crate) fn type_origins(&self, alloc: Global) -> Result<Vec<TypeOrigin>, AllocError>
        ensures { IfOk result (λ v. v.items ≡ self.now.types.keys) }
    {
        self.types.iter().copied().collect(alloc)
    }

    pub(crate) fn group_origins(&self, alloc: Global) -> Result<Vec<GroupOrigin>, AllocError>
        ensures { IfOk result (λ v. v.items ≡ self.now.groups.keys) }
    {
        self.groups.iter().copied().collect(alloc)
    }

    // The number of the type.
    pub(crate) fn number_type(&mut self, origin: TypeOrigin) -> Result<TypeId, NoRoom>
        ensures { IfOk result (λ m. NumbersType (keys_of self.old) (keys_of self.new) origin m) }
    {
        let number = insert_type(&mut self.types, origin)?;
        Ok(TypeId { number })
    }

    // The number of the group.
    pub(crate) fn number_group(&mut self, origin: GroupOrigin) -> Result<GroupId, NoRoom>
        ensures { IfOk result (λ m. NumbersGroup (keys_of self.old) (keys_of self.new) origin m) }
    {
        let number = insert_group(&mut self.groups, origin)?;
        Ok(GroupId { number })
    }

    fn number_types(&mut self, alloc: Global, origins: &[TypeOrigin]) -> Result<Vec<TypeId>, NoRoom>
        ensures { IfOk result (λ v. NumbersTypes (keys_of self.old) (keys_of self.new) origins.now v.items) }
    {
        let mut numbers = Vec::new(alloc);
        for origin in origins {
            let number = self.number_type(*origin)?;
            push(&mut numbers, number)?;
        }
        Ok(numbers)
    }

    fn number_groups(
        &mut self,
        alloc: Global,
        origins: &[GroupOrigin],
    ) -> Result<Vec<GroupId>, NoRoom>
        ensures { IfOk result (λ v. NumbersGroups (keys_of self.old) (keys_of self.new) origins.now v.items) }
    {
        let mut numbers = Vec::new(alloc);
        for origin in origins {
            let number = self.number_group(*origin)?;
            push(&mut numbers, number)?;
        }
        Ok(numbers)
    }

    // An entry of a map, with numbers for its types.
    fn number_entry(&mut self, form: EntryForm) -> Result<MapEntry, NoRoom>
        ensures { IfOk result (λ m. NumbersEntry (keys_of self.old) (keys_of self.new) form m) }
    {
        let key_type = self.number_type(form.key)?;
        let value_type = self.number_type(form.value)?;
        Ok(MapEntry {
            least: form.least,
            most: form.most,
            key_type,
            cuts: form.cuts,
            value_type,
        })
    }

    fn number_entries(
        &mut self,
        alloc: Global,
        forms: &[EntryForm],
    ) -> Result<Vec<MapEntry>, NoRoom>
        ensures { IfOk result (λ v. NumbersEntries (keys_of self.old) (keys_of self.new) forms.now v.items) }
    {
        let mut entries = Vec::new(alloc);
        for form in forms {
            let entry = self.number_entry(*form)?;
            push(&mut entries, entry)?;
        }
        Ok(entries)
    }

    // The alternatives of a map, with numbers for the types of their entries.
    fn number_map(
        &mut self,
        alloc: Global,
        forms: &[Vec<EntryForm>],
    ) -> Result<Vec<Vec<MapEntry>>, NoRoom>
        ensures { IfOk result (λ v. NumbersMap (keys_of self.old) (keys_of self.new) forms.now v.items) }
    {
        let mut alternatives = Vec::new(alloc);
        for alternative in forms {
            let entries = self.number_entries(alloc, alternative)?;
            push(&mut alternatives, entries)?;
        }
        Ok(alternatives)
    }

    fn tag_number(&mut self, form: TagForm) -> Result<TagNumber, NoRoom>
        ensures { IfOk result (λ m. MakesNumber (keys_of self.old) (keys_of self.new) (tag_form_view form) (tag_number_view m)) }
    {
        match form {
            TagForm::Any => Ok(TagNumber::Any),
            TagForm::Exactly(number) => Ok(TagNumber::Exactly(number)),
            TagForm::SuchAs(origin) => {
                let head = self.number_type(origin)?;
                Ok(TagNumber::SuchAs(head))
            }
        }
    }

    // The type of this form.
    pub(crate) fn type_node(&mut self, alloc: Global, form: TypeForm) -> Result<Node, NoRoom>
        ensures { IfOk result (λ m. MakesType (keys_of self.old) (keys_of self.new) (type_form_view form) (type_view m)) }
    {
        match form {
            TypeForm::Plain(test) => Ok(Node::Plain(test)),
            TypeForm::Ref(origin) => {
                let number = self.number_type(origin)?;
                Ok(Node::Ref(number))
            }
            TypeForm::Choice(origins) => {
                let numbers = self.number_types(alloc, &origins)?;
                Ok(Node::Choice(numbers))
            }
            TypeForm::ArrayOf(origin) => {
                let number = self.number_group(origin)?;
                Ok(Node::ArrayOf(number))
            }
            TypeForm::TagOf(form, origin) => {
                let tag = self.tag_number(form)?;
                let content = self.number_type(origin)?;
                Ok(Node::TagOf(tag, content))
            }
            TypeForm::SimpleBy(origin) => {
                let number = self.number_type(origin)?;
                Ok(Node::SimpleBy(number))
            }
            TypeForm::MapOf(forms) => {
                let alternatives = self.number_map(alloc, &forms)?;
                Ok(Node::MapOf(alternatives))
            }
            TypeForm::Both(left, right) => {
                let left = self.number_type(left)?;
                let right = self.number_type(right)?;
                Ok(Node::Both(left, right))
            }
            TypeForm::Such(origin, test) => {
                let number = self.number_type(origin)?;
                Ok(Node::Such(number, test))
            }
            TypeForm::Holding(left, content, right) => {
                let left = self.number_type(left)?;
                let right = self.number_type(right)?;
                Ok(Node::Holding(left, content, right))
            }
        }
    }

    // The group of this form.
    pub(crate) fn group_node(&mut self, alloc: Global, form: GroupForm) -> Result<Group, NoRoom>
        ensures { IfOk result (λ m. MakesGroup (keys_of self.old) (keys_of self.new) (group_form_view form) (group_view m)) }
    {
        match form {
            GroupForm::Entry(origin) => {
                let number = self.number_type(origin)?;
                Ok(Group::Entry(number))
            }
            GroupForm::Ref(origin) => {
                let number = self.number_group(origin)?;
                Ok(Group::Ref(number))
            }
            GroupForm::Sequence(origins) => {
                let numbers = self.number_groups(alloc, &origins)?;
                Ok(Group::Sequence(numbers))
            }
            GroupForm::Alternatives(origins) => {
                let numbers = self.number_groups(alloc, &origins)?;
                Ok(Group::Alternatives(numbers))
            }
            GroupForm::Repeat { least, most, group } => {
                let group = self.number_group(group)?;
                Ok(Group::Repeat { least, most, group })
            }
        }
    }
}
