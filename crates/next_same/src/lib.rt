//! Positions in a list of numbers: from each to the next one with the same number.
#![tactic(auto)]

ghost use Rattle.std.specs.Prelude.{◌≡◌, ◌<◌, IfOk, Some, length, set, slice_get};
ghost use Rattle.next_same.specs.Chains.{AreBelow, AreHeads, AreLinks};

use std::alloc::{AllocError, Global};

/// The positions in a list of numbers, those with the same number linked in their order.
#[derive(Drop)]
pub struct Chains {
    /// For each number below a bound its first position.
    heads: Vec<usize>,
    /// For each position the next one with the same number. Where there is no such position, the length of the list stands.
    links: Vec<usize>,
}

impl Chains {
    ghost use Rattle.std.specs.Prelude.{◌≡◌, IfOk, List, Some, slice_get, suc, ℕ};
    ghost use Rattle.next_same.specs.Chains.{AreBelow, IsNext};
    ghost use Rattle.next_same.specs.Linked.{AreChains};

    /// The positions in a list of numbers below a bound. It takes a time in proportion to the numbers and the bound, and 8
    /// bytes for each. An error comes only where memory is refused.
    pub fn new(alloc: Global, numbers: &[usize], bound: usize) -> Result<Chains, AllocError>
        requires { AreBelow bound numbers.now }
        ensures { IfOk result (AreChains numbers.now) }
    {
        let mut heads = vec![in alloc; numbers.len(); bound]?;
        let links = links_of(alloc, &mut heads, numbers)?;
        Ok(Chains { heads, links })
    }

    /// The first position of a number in the list, or the length of the list.
    #[inline]
    pub fn first(&self, number: usize) -> usize
        ensures { (ns : List ℕ) → AreChains ns self.now → IsNext ns number 0 result }
    {
        match self.heads.get(number) {
            Some(first) => *first,
            None => self.links.len(),
        }
    }

    /// The next position after this one that has the same number, or the length of the list.
    #[inline]
    pub fn after(&self, position: usize) -> usize
        ensures { (ns : List ℕ) (n : ℕ) → AreChains ns self.now → slice_get ns position ≡ Some n → IsNext ns n (suc position) result }
    {
        match self.links.get(position) {
            Some(next) => *next,
            None => self.links.len(),
        }
    }

    /// How many numbers the list has.
    #[inline]
    pub fn len(&self) -> usize
        ensures { (ns : List ℕ) → AreChains ns self.now → result ≡ length ns }
    {
        self.links.len()
    }
}

// Links the positions of numbers, the last one first, and puts the first position of each number at its head.
fn links_of(
    alloc: Global,
    heads: &mut Vec<usize>,
    numbers: &[usize],
) -> Result<Vec<usize>, AllocError>
    requires below { AreBelow (length heads.old.items) numbers.now }
    requires none { AreHeads numbers.now (length numbers.now) heads.old.items }
    ensures many { IfOk result (λ links. length links.items ≡ length numbers.now) }
    ensures kept { length heads.new.items ≡ length heads.old.items }
    ensures heads { IfOk result (λ _. AreHeads numbers.now 0 heads.new.items) }
    ensures links { IfOk result (λ links. AreLinks numbers.now 0 links.items) }
{
    let mut links = vec![in alloc; numbers.len(); numbers.len()]?;
    let mut left = numbers.len();
    while left > 0 {
        left -= 1;
        links[left] = put_head(heads, numbers[left], left);
    }
    Ok(links)
}

// Puts the position at the head of the number, and answers what was there.
fn put_head(heads: &mut Vec<usize>, number: usize, position: usize) -> usize
    requires { number < length heads.old.items }
    ensures before { slice_get heads.old.items number ≡ Some result }
    ensures after { heads.new.items ≡ set heads.old.items number position }
{
    let before = heads[number];
    heads[number] = position;
    before
}
