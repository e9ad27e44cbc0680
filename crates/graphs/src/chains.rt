//! Where chains end: from link to link by numbers, as from a name to the name that it stands for.
ghost use Rattle.std.specs.Prelude.{◌≡◌, IfOk, map, vec_items};
ghost use Rattle.graphs.specs.Chains.Chains.{AreEnds};
ghost use Rattle.graphs.specs.Chains.Steps.{IsAfter, answer, joined, own_numbers};

use std::alloc::{AllocError, Global};

/// A link of a chain.
#[derive(Clone, Copy)]
pub enum Link {
    /// The chain ends here, with this answer.
    End(u32),
    /// It goes on at the link of this number; if there is none, it leads nowhere.
    Next(usize),
}

/// For each link the answer with which the chain that begins there ends, if it ends within so many links. A chain that comes
/// back to itself has none, however many are allowed.
///
/// It takes a time of n log m for n links of which m are allowed, however long the chains are, and up to 128 bytes for each
/// link. An error comes only where memory is refused.
pub fn ends(alloc: Global, links: &[Link], most: usize) -> Result<Vec<Option<u32>>, AllocError>
    ensures { IfOk result (λ v. AreEnds links.now most v.items) }
{
    let last = links_after(alloc, links, most)?;
    answers(alloc, &last)
}

// Where each chain is after so many links.
fn links_after(alloc: Global, links: &[Link], count: usize) -> Result<Vec<Link>, AllocError>
    ensures { IfOk result (λ v. IsAfter links.now count v.items) }
{
    if count == 0 {
        return first_links(alloc, links.len());
    }
    let half = links_after(alloc, links, count / 2)?;
    let double = join(alloc, &half, &half)?;
    if count % 2 == 0 {
        return Ok(double);
    }
    join(alloc, &double, links)
}

// Each link's own number.
fn first_links(alloc: Global, count: usize) -> Result<Vec<Link>, AllocError>
    ensures { IfOk result (λ v. v.items ≡ own_numbers count) }
{
    let mut links = Vec::new(alloc);
    for number in 0..count {
        links.push(Link::Next(number))?;
    }
    Ok(links)
}

// The way by the first links, and where it does not end there, on by the second.
fn join(alloc: Global, first: &[Link], second: &[Link]) -> Result<Vec<Link>, AllocError>
    ensures { IfOk result (λ v. v.items ≡ map (joined second.now) first.now) }
{
    let mut links = Vec::new(alloc);
    for link in first {
        links.push(step(*link, second))?;
    }
    Ok(links)
}

// Where a link leads, if not to its chain's end.
fn step(link: Link, links: &[Link]) -> Link
    ensures { result ≡ joined links.now link }
{
    match link {
        Link::End(answer) => Link::End(answer),
        Link::Next(number) => links.get(number).copied().unwrap_or(link),
    }
}

// The answers of the links that end a chain.
fn answers(alloc: Global, links: &[Link]) -> Result<Vec<Option<u32>>, AllocError>
    ensures { IfOk result (λ v. v.items ≡ map answer links.now) }
{
    let mut found = Vec::new(alloc);
    for link in links {
        found.push(answer_of(*link))?;
    }
    Ok(found)
}

fn answer_of(link: Link) -> Option<u32>
    ensures { result ≡ answer link }
{
    match link {
        Link::End(answer) => Some(answer),
        Link::Next(_) => None,
    }
}
