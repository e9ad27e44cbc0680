//! Laws, whose functions do nothing: what the numbers of a table stand for, and that it stays when the table grows.

ghost use Rattle.std.specs.Prelude.{◌≡◌, ◌<◌, ◌↔◌, ℕ, List, Option, Some, length};
ghost use Rattle.check_terms.specs.declared.row.Row.{Row};
ghost use Rattle.cddl_language.specs.Terms.{Text, Term, Ref, Terms as TermList, Group, Entries, Entry, Key};
ghost use Rattle.cddl_language.specs.Substitution.{fill, fill_ref, fill_all, fill_group, fill_entries, fill_entry, fill_key};
ghost use Rattle.cddl_language.specs.Terms as L;
ghost use Rattle.check_terms.specs.Definitions.{AreDefinitions, AreSame, AreTexts, IsBody, IsDefinition};
ghost use Rattle.check_terms.specs.declared.definition.Body.{Body};
ghost use Rattle.check_terms.specs.declared.definition.Definition.{Definition};
ghost use Rattle.check_terms.specs.Filled.{filled, term_trees};
ghost use Rattle.check_terms.specs.Table.{AddsRow, AddsText, Grows, Holds, IsPart, IsTable, Table, Tree};
ghost use Rattle.check_terms.specs.Trees.{IsTerm, IsRef, IsTerms, IsGroup, IsEntries, IsEntry, IsKey, term_tree, ref_tree, terms_tree, group_tree, entries_tree, entry_tree, key_tree};

use crate::terms::Terms;

/// A number stands for one tree at most.
pub fn one_tree()
    ensures { (t : Table) (n : Option ℕ) (x y : Tree) → Holds t n x → Holds t n y → x ≡ y }
{}

/// Each row of a table stands for a tree, and only rows do.
pub fn rows_stand(terms: &Terms)
    ensures some { (n : ℕ) → n < length terms.now.rows → (x : Tree) × Holds terms.now (Some n) x }
    ensures within { (n : ℕ) (x : Tree) → Holds terms.now (Some n) x → n < length terms.now.rows }
{
    terms.len();
}

/// No two rows or texts of a table are equal, and the parts of a row stand before it.
pub fn is_table(terms: &Terms<'_>)
    ensures { IsTable terms.now }
{
    terms.len();
}

/// What a number stands for stays when a row or a text is added.
pub fn adding_keeps()
    ensures row { (old new : Table) (r : Row) → AddsRow old r new → (n : Option ℕ) (x : Tree) → Holds old n x → Holds new n x }
    ensures text { (old new : Table) (s : Text) → AddsText old s new → (n : Option ℕ) (x : Tree) → Holds old n x → Holds new n x }
{}

/// What numbers stand for stays when a table grows, by however many rows and texts.
pub fn growing_keeps()
    ensures same { (t : Table) → Grows t t }
    ensures further { (a b c : Table) → Grows a b → Grows b c → Grows a c }
    ensures row { (old new : Table) (r : Row) → AddsRow old r new → Grows old new }
    ensures text { (old new : Table) (s : Text) → AddsText old s new → Grows old new }
    ensures part { (old new : Table) → Grows old new → (n : Option ℕ) → IsPart old n → IsPart new n }
    ensures tree { (old new : Table) → Grows old new → (n : Option ℕ) (x : Tree) → Holds old n x → Holds new n x }
    ensures texts { (old new : Table) → Grows old new → (ns : List ℕ) (xs : List Text) → AreTexts old.texts ns xs → AreTexts new.texts ns xs }
    ensures body { (old new : Table) → Grows old new → (b : Body) (x : L.Body) → IsBody old b x → IsBody new b x }
    ensures definition { (old new : Table) → Grows old new → (d : Definition) (x : L.Definition) → IsDefinition old d x → IsDefinition new d x }
    ensures definitions { (old new : Table) → Grows old new → (ds : List Definition) (xs : List L.Definition) → AreDefinitions old ds xs → AreDefinitions new ds xs }
{}

/// Numbers of one table are equal exactly where what they stand for is equal.
pub fn equal_numbers(terms: &Terms)
    ensures table { IsTable terms.now }
    ensures tree { (n m : Option ℕ) (x : Tree) → Holds terms.now n x → Holds terms.now m x → n ≡ m }
    ensures term { (n m : ℕ) (a b : Term) → IsTerm terms.now n a → IsTerm terms.now m b → (n ≡ m) ↔ (a ≡ b) }
    ensures reference { (n m : ℕ) (a b : Ref) → IsRef terms.now n a → IsRef terms.now m b → (n ≡ m) ↔ (a ≡ b) }
    ensures arguments { (n m : ℕ) (a b : TermList) → IsTerms terms.now n a → IsTerms terms.now m b → (n ≡ m) ↔ (a ≡ b) }
    ensures group { (n m : ℕ) (a b : Group) → IsGroup terms.now n a → IsGroup terms.now m b → (n ≡ m) ↔ (a ≡ b) }
    ensures entries { (n m : ℕ) (a b : Entries) → IsEntries terms.now n a → IsEntries terms.now m b → (n ≡ m) ↔ (a ≡ b) }
    ensures entry { (n m : ℕ) (a b : Entry) → IsEntry terms.now n a → IsEntry terms.now m b → (n ≡ m) ↔ (a ≡ b) }
    ensures key { (n m : ℕ) (a b : Key) → IsKey terms.now n a → IsKey terms.now m b → (n ≡ m) ↔ (a ≡ b) }
{
    terms.len();
}

/// Definitions by the numbers of one table stand for equal definitions exactly where all their numbers are equal.
pub fn equal_definitions(terms: &Terms)
    ensures { (d e : Definition) (x y : L.Definition) → IsDefinition terms.now d x → IsDefinition terms.now e y → AreSame d e ↔ (x ≡ y) }
{
    terms.len();
}

/// To put arguments in the place of parameters in a tree is to put them in what the tree is of.
pub fn filled_trees()
    ensures term { (ps : List Text) (xs : List Term) (t : Term) → filled ps (term_trees xs) (term_tree t) ≡ term_tree (fill ps xs t) }
    ensures reference { (ps : List Text) (xs : List Term) (r : Ref) → filled ps (term_trees xs) (ref_tree r) ≡ ref_tree (fill_ref ps xs r) }
    ensures arguments { (ps : List Text) (xs : List Term) (ts : TermList) → filled ps (term_trees xs) (terms_tree ts) ≡ terms_tree (fill_all ps xs ts) }
    ensures group { (ps : List Text) (xs : List Term) (g : Group) → filled ps (term_trees xs) (group_tree g) ≡ group_tree (fill_group ps xs g) }
    ensures entries { (ps : List Text) (xs : List Term) (es : Entries) → filled ps (term_trees xs) (entries_tree es) ≡ entries_tree (fill_entries ps xs es) }
    ensures entry { (ps : List Text) (xs : List Term) (e : Entry) → filled ps (term_trees xs) (entry_tree e) ≡ entry_tree (fill_entry ps xs e) }
    ensures key { (ps : List Text) (xs : List Term) (k : Key) → filled ps (term_trees xs) (key_tree k) ≡ key_tree (fill_key ps xs k) }
{}
