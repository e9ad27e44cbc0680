//! What takes memory. A value that found none is given up.
ghost use Rattle.std.specs.Prelude.{◌≡◌, [], ◌∷◌, ◌++◌, IfOk};

use std::alloc::{AllocError, Global};

// The value in a box.
pub(crate) fn new_box<T: Drop>(alloc: Global, value: T) -> Result<Box<T>, AllocError>
    ensures ok { IfOk result (λ b. b.value ≡ value) }
{
    match Box::new(alloc, value) {
        Ok(value) => Ok(value),
        Err(error) => {
            drop(error);
            Err(AllocError)
        }
    }
}

// Puts the value after the others. There is room for one at first, since most lists of a tree
// have one part or none, and then for a quarter as many again.
pub(crate) fn push_last<T: Drop>(list: &mut Vec<T>, value: T) -> Result<(), AllocError>
    ensures items { IfOk result (λ _. list.new.items ≡ list.old.items ++ value ∷ []) }
{
    let count = list.len();
    if count == list.capacity() {
        list.reserve_exact(1 + count / 4)?;
    }
    match list.push(value) {
        Ok(()) => Ok(()),
        Err(error) => {
            drop(error);
            Err(AllocError)
        }
    }
}
