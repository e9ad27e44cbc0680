//! A law, whose function does nothing: what the indices of a name's definitions say of the environment.

ghost use Rattle.std.specs.Prelude.{◌≡◌, ℕ, List, Some, slice_get};
ghost use Rattle.check_names.specs.Environment.Environment.{IsStanding};
ghost use Rattle.check_names.specs.Environment.Names.{AreNames, standing};
ghost use Rattle.check_names.specs.declared.environment.environment.Name.{Name};
ghost use Rattle.cddl_language.specs.Prelude.{prelude};
ghost use Rattle.cddl_language.specs.Terms as L;
ghost use Rattle.cddl_language.specs.Terms.{Text};
ghost use Rattle.check_terms.specs.Definitions.{AreDefinitions};
ghost use Rattle.check_terms.specs.Table.{IsTable, Table};
ghost use Rattle.check_terms.specs.declared.definition.Definition.{Definition};

/// What the places of a name's definitions say of the environment, where the numbers are those of a table of terms.
pub fn names_stand()
    ensures { (t : Table) (count k : ℕ) (known definitions : List Definition) (names : List Name) (xs : List L.Definition) (n : Text) (name : Name) → IsTable t → AreDefinitions t known prelude → AreDefinitions t definitions xs → AreNames count known definitions names → slice_get t.texts k ≡ Some n → slice_get names k ≡ Some name → IsStanding xs n (standing name) }
{}
