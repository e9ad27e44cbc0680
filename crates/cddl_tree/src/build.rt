//! The parts of a tree, put where they belong.
ghost use Rattle.std.specs.Prelude.{◌≡◌, false, None, IfOk, IfErr, MatchResult, []};
ghost use Rattle.cddl_token.specs.declared.Token.{Token};
ghost use Rattle.tree_nodes.specs.declared.tree.Leaf.{Leaf};
ghost use Rattle.tree_nodes.specs.Syntax.Machine as M;
ghost use Rattle.tree_nodes.specs.Syntax.Syntax as S;
ghost use Rattle.tree_nodes.specs.View.{leaf, view_grpent, view_ref, view_type1, view_type2, view_arg, view_group, view_types, view_parm};
ghost use Rattle.cddl_tree.specs.Frames.{view_alternatives, view_arguments, view_parameters, view_prefix, view_entries, IsChoice, IsKeyOf, IsContent};

use crate::frames::{Alternatives, Arguments, Content, Current, Parameters, Prefix, Stop};
use crate::memory::push_last;
use std::alloc::Global;
use tree_nodes::{
    Entry, Further, GenericArg, GenericParm, Group, GrpChoice, GrpEnt, Leaf, MemberKey, Parameter,
    Ref, Type1, Type2, Types,
};

// The refusal of a token.
pub(crate) fn unexpected(token: Current) -> Stop
    ensures { result ≡ Stop.Unexpected token.start }
{
    Stop::Unexpected(token.start)
}

// A type of one type1.
pub(crate) fn one_type(alloc: Global, type1: Box<Type1>) -> Types
    ensures { (read : Leaf → Token) → view_types read result ≡ S.only (view_type1 read type1.value) }
{
    Types {
        first: Box::into_inner(type1),
        others: Vec::new(alloc),
    }
}

// A type with one type1 more.
pub(crate) fn more_types(types: Box<Types>, slash: Leaf, type1: Box<Type1>) -> Result<Types, Stop>
    ensures { MatchResult result (λ t. (read : Leaf → Token) → view_types read t ≡ S.or (view_types read types.value) (read slash) (view_type1 read type1.value)) (λ e. e ≡ Stop.Memory) }
{
    let Types { first, mut others } = Box::into_inner(types);
    let type1 = Box::into_inner(type1);
    match push_last(&mut others, Further { sign: slash, type1 }) {
        Ok(()) => Ok(Types { first, others }),
        Err(error) => {
            drop(error);
            drop(first);
            drop(others);
            Err(Stop::Memory)
        }
    }
}

// The group that the open alternative ends.
pub(crate) fn group_of(
    alloc: Global,
    before: Option<Alternatives>,
    entries: Vec<Entry>,
) -> Result<Group, Stop>
    ensures { MatchResult result (λ g. (read : Leaf → Token) → view_group read g ≡ M.group_of (view_alternatives read before) (view_entries read entries.items)) (λ e. e ≡ Stop.Memory) }
{
    match before {
        None => Ok(Group {
            first: entries,
            others: Vec::new(alloc),
        }),
        Some(before) => {
            let Alternatives { group, slashes } = before;
            let Group { first, mut others } = group;
            match push_last(&mut others, GrpChoice { slashes, entries }) {
                Ok(()) => Ok(Group { first, others }),
                Err(error) => {
                    drop(error);
                    drop(first);
                    drop(others);
                    Err(Stop::Memory)
                }
            }
        }
    }
}

// The arguments with the one that was open.
pub(crate) fn arg_of(
    alloc: Global,
    before: Option<Arguments>,
    type1: Box<Type1>,
) -> Result<GenericArg, Stop>
    ensures { MatchResult result (λ a. (read : Leaf → Token) → view_arg read a ≡ M.arg_of (view_arguments read before) (view_type1 read type1.value)) (λ e. e ≡ Stop.Memory) }
{
    let type1 = Box::into_inner(type1);
    match before {
        None => Ok(GenericArg {
            first: type1,
            others: Vec::new(alloc),
        }),
        Some(before) => {
            let Arguments { arguments, comma } = before;
            let GenericArg { first, mut others } = Box::into_inner(arguments);
            match push_last(&mut others, Further { sign: comma, type1 }) {
                Ok(()) => Ok(GenericArg { first, others }),
                Err(error) => {
                    drop(error);
                    drop(first);
                    drop(others);
                    Err(Stop::Memory)
                }
            }
        }
    }
}

// The parameters with the one that was open.
pub(crate) fn parm_of(
    alloc: Global,
    before: Option<Parameters>,
    name: Leaf,
) -> Result<GenericParm, Stop>
    ensures { MatchResult result (λ p. (read : Leaf → Token) → view_parm read p ≡ M.parm_of (view_parameters read before) (read name)) (λ e. e ≡ Stop.Memory) }
{
    match before {
        None => Ok(GenericParm {
            first: name,
            others: Vec::new(alloc),
        }),
        Some(before) => {
            let Parameters { parameters, comma } = before;
            let GenericParm { first, mut others } = parameters;
            match push_last(&mut others, Parameter { comma, name }) {
                Ok(()) => Ok(GenericParm { first, others }),
                Err(error) => {
                    drop(error);
                    drop(others);
                    Err(Stop::Memory)
                }
            }
        }
    }
}

// A reference and what stands directly before it.
pub(crate) fn type2_of(prefix: Prefix, name: Ref) -> Type2
    ensures { (read : Leaf → Token) → view_type2 read result ≡ M.prefixed (view_prefix read prefix) (view_ref read name) }
{
    match prefix {
        Prefix::Bare => Type2::Typename(name),
        Prefix::Tilde(tilde) => Type2::Unwrapped { tilde, name },
        Prefix::Ampersand(ampersand) => Type2::ChoiceOfName { ampersand, name },
    }
}

// The type1 of a type that has no other.
pub(crate) fn sole_type1(types: Types) -> Result<Type1, ()>
    ensures sole { IfOk result (λ r. (read : Leaf → Token) → view_types read types ≡ S.only (view_type1 read r)) }
    ensures several { IfErr result (λ _. (read : Leaf → Token) → IsChoice (view_types read types)) }
{
    let Types { first, others } = types;
    if others.is_empty() {
        drop(others);
        Ok(first)
    } else {
        drop(first);
        drop(others);
        Err(())
    }
}

// The key before a colon: a name or a value.
pub(crate) fn simple_key(type1: Type1, colon: Leaf) -> Option<MemberKey>
    ensures { (read : Leaf → Token) → IsKeyOf read result (view_type1 read type1) (read colon) }
{
    match type1 {
        Type1::One(type2) => operand_key(Box::into_inner(type2), colon),
        Type1::Operation { left, right, .. } => {
            drop(left);
            drop(right);
            None
        }
    }
}

fn operand_key(type2: Type2, colon: Leaf) -> Option<MemberKey>
    ensures { (read : Leaf → Token) → IsKeyOf read result (S.one (view_type2 read type2)) (read colon) }
{
    match &type2 {
        Type2::Typename(name) => name_key(name, colon),
        Type2::Literal(value) => Some(MemberKey::ValueKey {
            value: *value,
            colon,
        }),
        Type2::Hash(_) => None,
        Type2::Unwrapped { .. } => None,
        Type2::ChoiceOfName { .. } => None,
        Type2::MapOf { .. } => None,
        Type2::ArrayOf { .. } => None,
        Type2::ChoiceOf { .. } => None,
        Type2::Parens { .. } => None,
        Type2::Tagged { .. } => None,
        Type2::SimpleBy { .. } => None,
        Type2::TaggedBy { .. } => None,
    }
}

fn name_key(name: &Ref, colon: Leaf) -> Option<MemberKey>
    ensures { (read : Leaf → Token) → IsKeyOf read result (S.one (S.typename (view_ref read name.now))) (read colon) }
{
    match name {
        Ref::Name(name) => Some(MemberKey::Bareword { name: *name, colon }),
        Ref::Applied { .. } => None,
    }
}

// What a group in parentheses stands for.
pub(crate) fn content_of(group: Group) -> Result<Content, Stop>
    ensures { MatchResult result (λ x. (read : Leaf → Token) → IsContent read x (view_group read group)) (λ e. e ≡ Stop.Memory) }
{
    let Group { first, others } = group;
    if others.is_empty() {
        sole_content(first, others)
    } else {
        Ok(Content::Group(Group { first, others }))
    }
}

// The same for one alternative.
fn sole_content(first: Vec<Entry>, others: Vec<GrpChoice>) -> Result<Content, Stop>
    requires { others.items ≡ [] }
    ensures { MatchResult result (λ x. (read : Leaf → Token) → IsContent read x (S.sole (view_entries read first.items))) (λ e. e ≡ Stop.Memory) }
{
    let mut first = first;
    match first.pop() {
        None => Ok(Content::Group(Group { first, others })),
        Some(entry) => {
            let Entry { grpent, comma } = entry;
            if !first.is_empty() {
                return whole(first, grpent, comma, others);
            }
            match comma {
                Some(comma) => whole(first, grpent, Some(comma), others),
                None => match lone_type(grpent) {
                    Ok(types) => {
                        drop(first);
                        drop(others);
                        Ok(Content::Type(types))
                    }
                    Err(grpent) => whole(first, grpent, None, others),
                },
            }
        }
    }
}

// The group with its last entry.
fn whole(
    first: Vec<Entry>,
    grpent: GrpEnt,
    comma: Option<Leaf>,
    others: Vec<GrpChoice>,
) -> Result<Content, Stop>
    requires group { (read : Leaf → Token) → S.is_type (S.sole (S.entries (view_entries read first.items) (view_grpent read grpent) (leaf read comma))) ≡ false }
    requires alone { others.items ≡ [] }
    ensures { MatchResult result (λ x. (read : Leaf → Token) → IsContent read x (S.sole (S.entries (view_entries read first.items) (view_grpent read grpent) (leaf read comma)))) (λ e. e ≡ Stop.Memory) }
{
    let mut first = first;
    match push_last(&mut first, Entry { grpent, comma }) {
        Ok(()) => Ok(Content::Group(Group { first, others })),
        Err(error) => {
            drop(error);
            drop(first);
            drop(others);
            Err(Stop::Memory)
        }
    }
}

// The type that an entry is, or the entry.
pub(crate) fn lone_type(grpent: GrpEnt) -> Result<Types, GrpEnt>
    ensures bare { IfOk result (λ t. (read : Leaf → Token) → view_grpent read grpent ≡ S.typed None (view_types read t)) }
    ensures other { IfErr result (λ e. (e ≡ grpent) × ((read : Leaf → Token) → S.is_bare (view_grpent read e) ≡ false)) }
{
    match grpent {
        GrpEnt::Typed { occur, types } => match occur {
            None => Ok(types),
            Some(occur) => Err(GrpEnt::Typed {
                occur: Some(occur),
                types,
            }),
        },
        GrpEnt::Keyed { occur, key, types } => Err(GrpEnt::Keyed { occur, key, types }),
        GrpEnt::Grouped {
            occur,
            opening,
            group,
            closing,
        } => Err(GrpEnt::Grouped {
            occur,
            opening,
            group,
            closing,
        }),
    }
}
