//! What a table says of an item, within a number of steps.

ghost use Rattle.std.specs.Prelude.{◌≡◌, ◌<◌, ◌≤◌, ℕ};
ghost use Rattle.cddl_meaning.specs.Judges.{Answer};
ghost use Rattle.cddl_meaning.specs.Ranks.Decided.{IsDecided};
ghost use Rattle.table_nodes.specs.Language.{RootSays, language_of, root_form};

use crate::answers::Verdict;
use crate::calls::Said;
use crate::means::Means;
use crate::saying::type_says;
use cbor_item::Sound;
use match_held::{Cells, Shelf};
use std::alloc::{AllocError, Global};
use table_nodes::Table;

/// So many questions deep, each is a call of its own. The number is small, since calls take room on the program's stack.
const MOST_CALLS: u8 = 64;

/// What the root type of the table says of the item.
///
/// `steps` bounds the work. One step is one question: a type asked of an item, or of the number of a tag or of a simple
/// value; or a group asked of a list of items; or an alternative asked of a map, there each pair, and each entry that is asked
/// about a pair; or one bit that is set, where a test asks about bits. An entry that is for one key is not asked about a pair
/// with another, and takes none. At most `steps` questions are asked, and as many may wait for a reply.
///
/// # Errors
///
/// `AllocError` where there is no memory for the questions that wait, for the tally of a map's pairs, or for what byte
/// strings hold; or where more bytes are to be read in these than 1 MiB, and 64 for each item and each byte of a string in the
/// item, those that are read again too, or an eighth of that kept at once for questions that wait, where a string counts four
/// bytes more than it has. Each 16 entries that are gone through for a map and its pairs, 16 places of a large item that are
/// counted, and 16 bytes of a long string that is compared count as one such byte; and a question that waits needs 16.
pub fn verdict(
    alloc: Global,
    table: &Table,
    item: &Sound,
    steps: u64,
) -> Result<Verdict, AllocError>
    // Whatever is returned, the root type says exactly one thing of the item.
    ensures decided { IsDecided (language_of table.now) (root_form table.now) 0 item.now }
    // A yes and a no are the definition's, and took as many steps as there are judgements in it.
    ensures yes { result ≡ Ok Verdict.Yes → (w : ℕ) × RootSays table.now item.now Answer.Yes w × (w ≤ steps) }
    ensures no { (place : ℕ) → result ≡ Ok (Verdict.No place) → (w : ℕ) × RootSays table.now item.now (Answer.No place) w × (w ≤ steps) }
    // Where the steps are spent, more judgements are in it.
    ensures spent { result ≡ Ok Verdict.Spent → (a : Answer) (w : ℕ) → RootSays table.now item.now a w → steps < w }
{
    let cells = Cells::new(alloc);
    let whole = item.item();
    let mut means = Means {
        left: steps,
        shelf: Shelf::for_item(alloc, &cells, whole),
    };
    match type_says(table, &mut means, table.root(), 0, whole, MOST_CALLS) {
        Said::Yes { .. } => Ok(Verdict::Yes),
        Said::No { far } => Ok(Verdict::No { place: far }),
        Said::Spent => Ok(Verdict::Spent),
        Said::NoMemory => Err(AllocError),
    }
}
