//! A law, whose function does nothing: the words of sites stand at these, and each site that has a word is there.

ghost use Rattle.std.specs.Prelude.{◌≡◌, List, Contains, Some, map};
ghost use Rattle.cddl_token.specs.declared.Token.{Token};
ghost use Rattle.check_reading.specs.Words.{AreWords, HasWord, IsWordOf, Said, said_at};
ghost use Rattle.check_reading.specs.declared.words.word.Word.{Word};
ghost use Rattle.check_sites.specs.Sites.View.{view_found, view_site};
ghost use Rattle.check_sites.specs.declared.sites.site.Found.{Found};
ghost use Rattle.check_terms.specs.Table.{Table};
ghost use Rattle.tree_nodes.specs.declared.tree.Leaf.{Leaf};

/// Each of the words stands at one of the sites, and each site that has a word has one of these.
pub fn words_stand()
    ensures found { (t : Table) (read : Leaf → Token) (fs : List Found) (ws : List Word) → AreWords t ws (map (view_found read) fs) → (w : Word) → Contains ws w → (f : Found) × (Contains fs f × IsWordOf t w (view_found read f)) }
    ensures every { (t : Table) (read : Leaf → Token) (fs : List Found) (ws : List Word) → AreWords t ws (map (view_found read) fs) → (f : Found) (x : Said) → Contains fs f → said_at (view_site read f.site) ≡ Some x → HasWord t ws f.rule x }
{}
