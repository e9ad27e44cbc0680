//! What the list of sites says of each site.
ghost use Rattle.std.specs.Prelude.{◌≡◌, ℕ, Bool, List, Contains, Option, Some, false, map, slice_get};
ghost use Rattle.cddl_token.specs.declared.Token.{Token};
ghost use Rattle.tree_nodes.specs.Syntax.Syntax.{Rule};
ghost use Rattle.tree_nodes.specs.declared.tree.Leaf.{Leaf};
ghost use Rattle.cddl_language.specs.Sites.{Site, outer_sites, sites};
ghost use Rattle.check_sites.specs.declared.sites.site.Found.{Found};
ghost use Rattle.check_sites.specs.Sites.Listed.{StandsIn, WasFound};
ghost use Rattle.check_sites.specs.Sites.View.{outside, view_found};
ghost use Rattle.check_sites.specs.Sites.Walk.{all_outer_sites, all_sites};

/// A list that is all sites has each site of each rule, and no other.
pub fn found_sites()
    ensures found { (read : Leaf → Token) (rs : List Rule) (fs : List Found) → map (view_found read) fs ≡ all_sites rs → (f : Found) → Contains fs f → StandsIn sites read rs f }
    ensures every { (read : Leaf → Token) (rs : List Rule) (fs : List Found) → map (view_found read) fs ≡ all_sites rs → (k : ℕ) (r : Rule) (p : Site) → slice_get rs k ≡ Some r → Contains (sites r) p → WasFound read fs k p }
{}

/// What is outside of arguments in such a list are the sites outside of arguments.
pub fn found_outer_sites()
    ensures outside { (fs : List Found) (f : Found) → Contains (outside fs) f → Contains fs f × (f.in_argument ≡ false) }
    ensures found { (read : Leaf → Token) (rs : List Rule) (fs : List Found) → map (view_found read) (outside fs) ≡ all_outer_sites rs → (f : Found) → Contains fs f → f.in_argument ≡ false → StandsIn outer_sites read rs f }
    ensures every { (read : Leaf → Token) (rs : List Rule) (fs : List Found) → map (view_found read) (outside fs) ≡ all_outer_sites rs → (k : ℕ) (r : Rule) (p : Site) → slice_get rs k ≡ Some r → Contains (outer_sites r) p → WasFound read (outside fs) k p }
{}
