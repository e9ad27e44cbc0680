//! Forms of `#` that stand for nothing.

ghost use Rattle.std.specs.Prelude.{◌≡◌, List};
ghost use Rattle.cddl_language.specs.Terms.{Definition};
ghost use Rattle.check_reading.specs.Words.{IsSaid, Said};
ghost use Rattle.check_text.specs.SiteFaults.Words.{IsToldAtWord};
ghost use Rattle.check_text.specs.declared.site_faults.code.SiteCode.TheVariants.{HashForm};
ghost use Rattle.lists.specs.Least.{IsLeast};
ghost use Rattle.tree_nodes.specs.Syntax.Syntax.{Rule};

use check_reading::words::{Role, Word};
use check_terms::Terms;
use check_terms::texts::is_bad_hash;

// The offset of the word, if it is a `#` of a form that stands for nothing.
pub(crate) fn bad_hash_at(terms: &Terms<'_>, word: Word) -> Option<usize>
    ensures { (ds : List Definition) (r : Rule) (x : Said) → IsSaid terms.now word x → IsLeast (IsToldAtWord HashForm ds r x) result }
{
    let Role::Hash = word.role else {
        return None;
    };
    if is_bad_hash(terms.text(word.text)?) {
        Some(word.at)
    } else {
        None
    }
}
