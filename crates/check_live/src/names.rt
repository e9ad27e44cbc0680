//! The names at sites.

ghost use Rattle.std.specs.Prelude.{◌≡◌, option_map};
ghost use Rattle.cddl_language.specs.Sites.{ref_at_site, ref_name};
ghost use Rattle.check_sites.specs.Sites.View.{view_site};
ghost use Rattle.cddl_token.specs.declared.Token.{Token};
ghost use Rattle.tree_nodes.specs.View.{token_of, view_ref};
ghost use Rattle.tree_nodes.specs.declared.tree.Leaf.{Leaf};

use check_sites::sites::Site;
use check_terms::opened_name;
use tree_nodes::{Ref, Tree};

// The reference at a site, if it has one.
pub(crate) fn name_at<'t>(site: Site<'t>) -> Option<&'t Ref>
    ensures { (read : Leaf → Token) → option_map (λ n. view_ref read n.now) result ≡ ref_at_site (view_site read site.entry) }
{
    match site {
        Site::Name { name, .. } => Some(name),
        Site::Unwrapping { name, .. } => Some(name),
        Site::ChoiceOfName { name, .. } => Some(name),
        _ => None,
    }
}

// The name of a reference.
pub(crate) fn name_text<'s>(tree: &Tree<'s>, name: &Ref) -> &'s str
    ensures { result.now ≡ ref_name (view_ref (token_of tree.now) name.now) }
{
    match name {
        Ref::Name(token) => tree.token(*token).text,
        Ref::Applied { opening, .. } => opened_name(tree.token(*opening).text),
    }
}
