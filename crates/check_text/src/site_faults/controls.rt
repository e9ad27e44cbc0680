//! Controls that are not known.

ghost use Rattle.std.specs.Prelude.{◌≡◌, List};
ghost use Rattle.cddl_language.specs.Terms.{Definition};
ghost use Rattle.check_reading.specs.Words.{IsSaid, Said};
ghost use Rattle.check_text.specs.SiteFaults.Words.{IsToldAtWord};
ghost use Rattle.check_text.specs.declared.site_faults.code.SiteCode.TheVariants.{UnknownControl};
ghost use Rattle.lists.specs.Least.{IsLeast};
ghost use Rattle.tree_nodes.specs.Syntax.Syntax.{Rule};

use check_reading::words::{Role, Word};
use check_terms::Terms;
use check_terms::texts::control_of;

// The offset of the word, if it is a control that is not known.
pub(crate) fn unknown_control_at(terms: &Terms<'_>, word: Word) -> Option<usize>
    ensures { (ds : List Definition) (r : Rule) (x : Said) → IsSaid terms.now word x → IsLeast (IsToldAtWord UnknownControl ds r x) result }
{
    let Role::Control = word.role else {
        return None;
    };
    match control_of(terms.text(word.text)?) {
        Some(_) => None,
        None => Some(word.at),
    }
}
