//! What a reason says, as it is reported.

ghost use Rattle.std.specs.Prelude.{◌≡◌, ◌++◌, IfOk};
ghost use Rattle.cddl_mismatch.specs.Causes.{chain_of, link_in, nothing_held, told_cause};

use cddl_reasons::{Cause, Reason};
use mismatch_words::Cause as Told;
use std::alloc::{AllocError, Global};
use table_nodes::Content;
use type_links::Link;

// The cause, without the types that it names; of a member that is missing also whether an entry before it has taken what it need
// not have.
pub(crate) fn told_cause(greedy: bool, cause: Cause) -> Told
    ensures { result ≡ told_cause greedy cause }
{
    match cause {
        Cause::Value => Told::Value,
        Cause::Missing { .. } => Told::MemberMissing { greedy },
        Cause::TooMuch => Told::MemberTooMuch,
        Cause::Stray => Told::PairStray,
        Cause::Few { count, least, .. } => Told::KeyTooFew { count, least },
        Cause::Many {
            count,
            most,
            later,
            ..
        } => Told::KeyTooMany { count, most, later },
        Cause::NothingHeld { content } => nothing_held(content),
    }
}

fn nothing_held(content: Content) -> Told
    ensures { result ≡ nothing_held content }
{
    match content {
        Content::OneItem => Told::NoItem,
        Content::Sequence => Told::NoSequence,
    }
}

// What led to what the reason is about: the links to what was open, and the one to the member's type or to the entry's key, where
// the cause has one.
pub(crate) fn chain_of(alloc: Global, reason: &Reason) -> Result<Vec<Link>, AllocError>
    ensures { IfOk result (λ chain. chain.items ≡ chain_of reason.now) }
{
    let mut chain = Vec::from_slice(alloc, &reason.links)?;
    push_link(&mut chain, reason.cause)?;
    Ok(chain)
}

fn push_link(chain: &mut Vec<Link>, cause: Cause) -> Result<(), AllocError>
    ensures { IfOk result (λ _. chain.new.items ≡ chain.old.items ++ link_in cause) }
{
    match cause {
        Cause::Missing { member } => {
            chain.push(Link::Type(member))?;
            return Ok(());
        }
        Cause::Few { key, .. } => {
            chain.push(Link::Key(key))?;
            return Ok(());
        }
        Cause::Many { key, .. } => {
            chain.push(Link::Key(key))?;
            return Ok(());
        }
        Cause::Value => return Ok(()),
        Cause::TooMuch => return Ok(()),
        Cause::Stray => return Ok(()),
        Cause::NothingHeld { .. } => return Ok(()),
    }
}
