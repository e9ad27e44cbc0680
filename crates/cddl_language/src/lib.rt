//! What a specification in CDDL means (RFC 8610), over the trees of its text. The definitions are in `specs/`. The functions
//! here do nothing: their contracts are laws, and examples.
#![tactic(auto)]

ghost use Rattle.std.specs.Prelude.{◌+◌, ◌*◌, ◌/◌, ◌%◌, ◌^◌, get_or, ◌≢◌, ◌↔◌, ◌<◌, ◌≤◌, ◌⊎◌, map, length, slice_index, [], ◌∷◌, ◌≡◌, ℕ, suc, Contains, Bool, List, Option, true, false, Some, None, codes};
ghost use Rattle.cddl_token.specs.declared.Code.{Code};
ghost use Rattle.cddl_token.specs.declared.Token.{Token};
ghost use Rattle.tree_nodes.specs.Syntax.Syntax as S;
ghost use Rattle.tree_nodes.specs.Syntax.Syntax.{Cddl, Rule};
ghost use Rattle.cddl_language.specs.Sites.{IsReached, a_map};
ghost use Rattle.cddl_language.specs.Substitution.{fill_group};
ghost use Rattle.cddl_language.specs.Faults.{IsAccepted, IsRefused, Specification, definitions, root_of, rules};
ghost use Rattle.cddl_language.specs.Free.{IsOnCycle, LeadsBack};
ghost use Rattle.cddl_language.specs.Kinds.{Opened, is_group, is_group_in, opened_in};
ghost use Rattle.cbor_data.specs.Embedded.{Embeds, EmbedsAll};
ghost use Rattle.cbor_data.specs.Equivalence.{IsSame};
ghost use Rattle.cbor_data.specs.Value as V;
ghost use Rattle.cbor_data.specs.Value.{Value, array, bytes, text, uint};
ghost use Rattle.cddl_meaning.specs.Forms.{Choice, Language, any_number_of, at_most, exactly, bits_among, bits_set, has_bit, has_size, is_below, is_up_to, passes};
ghost use Rattle.cddl_meaning.specs.Judges.{Answer, No, Says, Yes};
ghost use Rattle.cddl_meaning.specs.Literals.{HasPlainLiterals};
ghost use Rattle.cddl_language.specs.Choices.{chosen, chosen_by_name, chosen_in};
ghost use Rattle.cddl_language.specs.Controls.{Comparison, Computation, comparison_in, computation_in, control_of, is_ordering, Membership, of_bits};
ghost use Rattle.cddl_language.specs.MapFaults.{ComesBack, GoesThrough, HasMapShape, HasNoKey, IsSpliced, IsSplicedInto, LacksKey, IsLedToBy, OccursBadly, closed_entry, point_in};
ghost use Rattle.cddl_language.specs.Maps.{Alternatives, alternatives_in, map_alternatives};
ghost use Rattle.cddl_language.specs.Language.{Saying, TermSays, comparand, compared_test, language, type, reference, type_node};
ghost use Rattle.cddl_language.specs.StandsFor.{StandsFor};
ghost use Rattle.cddl_meaning.specs.Ranks.Ranked.{Name};
ghost use Rattle.cddl_literal.specs.Numbers.{IsUint, Meaning, number_after};
ghost use Rattle.cddl_token.specs.Numbers.{IsHashNumber, IsStar, IsTagNumberOpen};
ghost use Rattle.cddl_language.specs.Numbers.{hash_form, least_in, most_in, numbered, tag_number, uint_in};
ghost use Rattle.cddl_language.specs.Literals.{AreRight, AreTokens, Holds, Values, answer_of, computed_literal, item_of, literal_in, literal_of, whole};
ghost use Rattle.cddl_language.specs.Sizes.{Behind, Sizes, members_in, members_of, sizes_in, sizes_of};
ghost use Rattle.cddl_literal.specs.declared.operators.Joining.TheVariants.{AsTheyAre, Dedented};
ghost use Rattle.cddl_literal.specs.Operators.Joins.{joined};
ghost use Rattle.cddl_literal.specs.Operators.Sums.{plus};
ghost use Rattle.cddl_language.specs.Reading.{definitions_in, group_of, name_in, parameters_in};
ghost use Rattle.cddl_language.specs.Reach.{Point, Reaches, most_instances, points_in, ref_at};
ghost use Rattle.cddl_language.specs.Terms.{Definition, Entries, Entry, Group, Literal, Ref, Term, Text, alternatives, call, choice_of, choice_of_name, control, name_of, no_terms};

pub mod examples;
pub mod live;
pub mod written;

/// The instances are the least set that holds the root and, with a closed reference, the references in what it means.
pub fn instances_are_least()
    ensures { (ds : List Definition) (root : Text) (holds : Ref → Bool) → holds (call root no_terms) ≡ true → ((r : Ref) (p : Point) → holds r ≡ true → Contains (points_in ds r) p → holds (ref_at p) ≡ true) → (r : Ref) → Reaches ds root r → holds r ≡ true }
{}

/// Where what names mean refers to names without arguments alone, so is each instance.
pub fn names_are_instances()
    ensures { (ds : List Definition) (root : Text) → ((n : Text) (p : Point) → Contains (points_in ds (call n no_terms)) p → ref_at p ≡ call (name_of (ref_at p)) no_terms) → (r : Ref) → Reaches ds root r → r ≡ call (name_of r) no_terms }
{}

/// `&` says of an item what the choice of the types says that it chooses from, one after the other, and shows it at the same
/// place, though groups in its group are choices of their own.
pub fn chosen_types_say()
    ensures group { (worth : Values) (ds : List Definition) (g : Group) (ts : List Term) → chosen ds g ≡ Some ts → (p : ℕ) (x : Value) (a : Answer) → Saying (language worth ds) (Choice (map type ts)) p x a ↔ Saying (language worth ds) (type_node worth ds (type (choice_of g))) p x a }
    ensures name { (worth : Values) (ds : List Definition) (r : Ref) (ts : List Term) → chosen_by_name ds r ≡ Some ts → (p : ℕ) (x : Value) (a : Answer) → Saying (language worth ds) (Choice (map type ts)) p x a ↔ Saying (language worth ds) (type_node worth ds (type (choice_of_name r))) p x a }
{}

/// A control by `.and` or `.within` says yes where the type on its left and its controller do; the left one is asked first, and a
/// no shows where the type shows it that says it. A control by `.cbor` says yes of a byte string to which the type on its left does
/// and that holds one item to which the controller does, and one by `.cborseq` where it holds items of which the array is such. A
/// control by `.default` says what the type on its left says.
pub fn controls_of_types_say()
    ensures both { (worth : Values) (ds : List Definition) (a b : Term) (p : ℕ) (x : Value) → TermSays worth ds (control a (codes "and") b) p x Yes ↔ (TermSays worth ds a p x Yes × TermSays worth ds b p x Yes) }
    ensures left { (worth : Values) (ds : List Definition) (a b : Term) (p : ℕ) (x : Value) (far : ℕ) → TermSays worth ds a p x (No far) → TermSays worth ds (control a (codes "and") b) p x (No far) }
    ensures right { (worth : Values) (ds : List Definition) (a b : Term) (p : ℕ) (x : Value) (far : ℕ) → TermSays worth ds a p x Yes → TermSays worth ds b p x (No far) → TermSays worth ds (control a (codes "and") b) p x (No far) }
    ensures within { (worth : Values) (ds : List Definition) (a b : Term) (p : ℕ) (x : Value) (o : Answer) → TermSays worth ds (control a (codes "within") b) p x o ↔ TermSays worth ds (control a (codes "and") b) p x o }
    ensures item { (worth : Values) (ds : List Definition) (a b : Term) (p : ℕ) (x : Value) → TermSays worth ds (control a (codes "cbor") b) p x Yes ↔ (TermSays worth ds a p x Yes × ((bs : List ℕ) × (y : Value) × (x ≡ bytes bs) × Embeds bs y × TermSays worth ds b 0 y Yes)) }
    ensures sequence { (worth : Values) (ds : List Definition) (a b : Term) (p : ℕ) (x : Value) → TermSays worth ds (control a (codes "cborseq") b) p x Yes ↔ (TermSays worth ds a p x Yes × ((bs : List ℕ) × (ys : V.Values) × (x ≡ bytes bs) × EmbedsAll bs ys × TermSays worth ds b 0 (array ys) Yes)) }
    ensures default { (worth : Values) (ds : List Definition) (a b : Term) (p : ℕ) (x : Value) (o : Answer) → TermSays worth ds (control a (codes "default") b) p x o ↔ TermSays worth ds a p x o }
{}

/// A control by a comparison, where its controller is a literal with which items can be compared so, says yes where the type on its
/// left does and the item is the literal's value, is another one, or is a whole number below it, up to it, above it or from it on.
/// The type on its left is asked first and shows its no where it shows it; the comparison shows its no at the item.
pub fn comparisons_say()
    ensures equal { (worth : Values) (ds : List Definition) (a b : Term) (m : Meaning) (p : ℕ) (x : Value) → literal_of worth ds b ≡ Some m → TermSays worth ds (control a (codes "eq") b) p x Yes ↔ (TermSays worth ds a p x Yes × (x ≡ item_of m)) }
    ensures different { (worth : Values) (ds : List Definition) (a b : Term) (m : Meaning) (p : ℕ) (x : Value) → literal_of worth ds b ≡ Some m → TermSays worth ds (control a (codes "ne") b) p x Yes ↔ (TermSays worth ds a p x Yes × (x ≢ item_of m)) }
    ensures less { (worth : Values) (ds : List Definition) (a b : Term) (v : Value) (p : ℕ) (x : Value) → whole (literal_of worth ds b) ≡ Some v → TermSays worth ds (control a (codes "lt") b) p x Yes ↔ (TermSays worth ds a p x Yes × (is_below x v ≡ true)) }
    ensures at_most { (worth : Values) (ds : List Definition) (a b : Term) (v : Value) (p : ℕ) (x : Value) → whole (literal_of worth ds b) ≡ Some v → TermSays worth ds (control a (codes "le") b) p x Yes ↔ (TermSays worth ds a p x Yes × (is_up_to x v ≡ true)) }
    ensures greater { (worth : Values) (ds : List Definition) (a b : Term) (v : Value) (p : ℕ) (x : Value) → whole (literal_of worth ds b) ≡ Some v → TermSays worth ds (control a (codes "gt") b) p x Yes ↔ (TermSays worth ds a p x Yes × (is_below v x ≡ true)) }
    ensures at_least { (worth : Values) (ds : List Definition) (a b : Term) (v : Value) (p : ℕ) (x : Value) → whole (literal_of worth ds b) ≡ Some v → TermSays worth ds (control a (codes "ge") b) p x Yes ↔ (TermSays worth ds a p x Yes × (is_up_to v x ≡ true)) }
    ensures left { (worth : Values) (ds : List Definition) (a b : Term) (n : Text) (c : Comparison) (v : Value) (p : ℕ) (x : Value) (far : ℕ) → comparison_in (control_of n) ≡ Some c → comparand (is_ordering c) (literal_of worth ds b) ≡ Some v → TermSays worth ds a p x (No far) → TermSays worth ds (control a n b) p x (No far) }
    ensures missed { (worth : Values) (ds : List Definition) (a b : Term) (n : Text) (c : Comparison) (v : Value) (p : ℕ) (x : Value) → comparison_in (control_of n) ≡ Some c → comparand (is_ordering c) (literal_of worth ds b) ≡ Some v → TermSays worth ds a p x Yes → passes (compared_test c v) x ≡ false → TermSays worth ds (control a n b) p x (No p) }
{}

/// A control by `.size`, where its controller has members, says yes where the type on its left does and the item has a size that
/// is one of them. The type on its left is asked first and shows its no where it shows it; that of a size shows at the item. The
/// size of a string is the number of its bytes, and an unsigned number has each size in whose bytes it fits.
pub fn sizes_say()
    ensures yes { (worth : Values) (ds : List Definition) (a b : Term) (rs : Sizes) (p : ℕ) (x : Value) → sizes_of worth ds b ≡ Some rs → TermSays worth ds (control a (codes "size") b) p x Yes ↔ (TermSays worth ds a p x Yes × (has_size rs x ≡ true)) }
    ensures left { (worth : Values) (ds : List Definition) (a b : Term) (rs : Sizes) (p : ℕ) (x : Value) (far : ℕ) → sizes_of worth ds b ≡ Some rs → TermSays worth ds a p x (No far) → TermSays worth ds (control a (codes "size") b) p x (No far) }
    ensures missed { (worth : Values) (ds : List Definition) (a b : Term) (rs : Sizes) (p : ℕ) (x : Value) → sizes_of worth ds b ≡ Some rs → TermSays worth ds a p x Yes → has_size rs x ≡ false → TermSays worth ds (control a (codes "size") b) p x (No p) }
    ensures bytes { (rs : Sizes) (s : List ℕ) → (has_size rs (bytes s) ≡ true) ↔ ((r : ℕ × ℕ) × Contains rs r × (r.0 ≤ length s) × (length s ≤ r.1)) }
    ensures text { (rs : Sizes) (s : List ℕ) → (has_size rs (text s) ≡ true) ↔ ((r : ℕ × ℕ) × Contains rs r × (r.0 ≤ length s) × (length s ≤ r.1)) }
    ensures number { (rs : Sizes) (n : ℕ) → (has_size rs (uint n) ≡ true) ↔ ((r : ℕ × ℕ) × (m : ℕ) × Contains rs r × (r.0 ≤ m) × (m ≤ r.1) × (n < 256 ^ m)) }
{}

/// A control by `.bits`, where its controller has members, says yes where the type on its left does, the item is a byte string or
/// an unsigned number, and the number of each bit that is set in it is one of them. The type on its left is asked first and shows
/// its no where it shows it; that of the bits shows at the item. Bit k of a byte string is that of value 2^(k mod 8) in byte k / 8,
/// and bit k of a number the one of value 2^k.
pub fn bits_say()
    ensures yes { (worth : Values) (ds : List Definition) (a b : Term) (rs : Sizes) (p : ℕ) (x : Value) → members_of of_bits worth ds b ≡ Some rs → TermSays worth ds (control a (codes "bits") b) p x Yes ↔ (TermSays worth ds a p x Yes × (passes (bits_among rs) x ≡ true)) }
    ensures left { (worth : Values) (ds : List Definition) (a b : Term) (rs : Sizes) (p : ℕ) (x : Value) (far : ℕ) → members_of of_bits worth ds b ≡ Some rs → TermSays worth ds a p x (No far) → TermSays worth ds (control a (codes "bits") b) p x (No far) }
    ensures missed { (worth : Values) (ds : List Definition) (a b : Term) (rs : Sizes) (p : ℕ) (x : Value) → members_of of_bits worth ds b ≡ Some rs → TermSays worth ds a p x Yes → passes (bits_among rs) x ≡ false → TermSays worth ds (control a (codes "bits") b) p x (No p) }
    ensures bytes { (rs : Sizes) (s : List ℕ) → (passes (bits_among rs) (bytes s) ≡ true) ↔ ((k : ℕ) → k < 8 * length s → has_bit (get_or s (k / 8) 0) (k % 8) ≡ true → (r : ℕ × ℕ) × Contains rs r × (r.0 ≤ k) × (k ≤ r.1)) }
    ensures number { (rs : Sizes) (n : ℕ) → (passes (bits_among rs) (uint n) ≡ true) ↔ ((k : ℕ) → k < 64 → has_bit n k ≡ true → (r : ℕ × ℕ) × Contains rs r × (r.0 ≤ k) × (k ≤ r.1)) }
    ensures others { (rs : Sizes) (x : Value) → bits_set x ≡ None → passes (bits_among rs) x ≡ false }
{}

/// A control by `.plus`, `.cat` or `.det` is the literal that is computed from those that its sides are, the left one's first: their
/// sum, their join, or the join of both without the indentation of their lines. It says yes to that literal's value alone, and shows
/// its no at the item.
pub fn computed_literals_say()
    ensures literal { (worth : Values) (ds : List Definition) (a b : Term) (n : Text) (c : Computation) → computation_in (control_of n) ≡ Some c → literal_of worth ds (control a n b) ≡ computed_literal c (literal_of worth ds a) (literal_of worth ds b) }
    ensures sums { (worth : Values) (ds : List Definition) (a b : Term) (u v : Meaning) → literal_of worth ds a ≡ Some u → literal_of worth ds b ≡ Some v → literal_of worth ds (control a (codes "plus") b) ≡ answer_of (plus u v) }
    ensures joins { (worth : Values) (ds : List Definition) (a b : Term) (u v : Meaning) → literal_of worth ds a ≡ Some u → literal_of worth ds b ≡ Some v → literal_of worth ds (control a (codes "cat") b) ≡ answer_of (joined AsTheyAre u v) }
    ensures dedents { (worth : Values) (ds : List Definition) (a b : Term) (u v : Meaning) → literal_of worth ds a ≡ Some u → literal_of worth ds b ≡ Some v → literal_of worth ds (control a (codes "det") b) ≡ answer_of (joined Dedented u v) }
    ensures yes { (worth : Values) (ds : List Definition) (a b : Term) (n : Text) (c : Computation) (m : Meaning) (p : ℕ) (x : Value) → computation_in (control_of n) ≡ Some c → literal_of worth ds (control a n b) ≡ Some m → TermSays worth ds (control a n b) p x Yes ↔ (x ≡ item_of m) }
    ensures missed { (worth : Values) (ds : List Definition) (a b : Term) (n : Text) (c : Computation) (m : Meaning) (p : ℕ) (x : Value) → computation_in (control_of n) ≡ Some c → literal_of worth ds (control a n b) ≡ Some m → x ≢ item_of m → TermSays worth ds (control a n b) p x (No p) }
{}

/// Where the group of a map has alternatives, each entry that is spliced into it has a key or is a group, none leads back to the
/// reference in whose group it is, and each group may occur as often as it says.
pub fn flat_maps_are_right()
    ensures keys { (ds : List Definition) (g : Group) (mss : Alternatives) → map_alternatives ds g ≡ Some mss → (e : Entry) → IsSplicedInto ds e (alternatives g) → LacksKey ds e → ⊥ }
    ensures ways { (ds : List Definition) (g : Group) (mss : Alternatives) → map_alternatives ds g ≡ Some mss → (e : Entry) → ComesBack ds (alternatives g) e → ⊥ }
    ensures occurrences { (ds : List Definition) (g : Group) (mss : Alternatives) → map_alternatives ds g ≡ Some mss → (e : Entry) → IsSplicedInto ds e (alternatives g) → OccursBadly ds e → ⊥ }
{}

/// What is wrong with the group of a map that a root reaches, stands at a byte of the text: an entry that is spliced into it and
/// has neither a key nor a group, a group that may not occur so, and a way that comes back. And where an entry that stands in a map
/// leads to a reference, one that stands in a map has it.
pub fn map_faults_stand()
    ensures keys { (rs : List Rule) (root : Text) (r : Rule) (xs : List Term) (t : Token) (g : S.Group) → IsReached rs root r xs (a_map t g) → (e : Entry) → IsSplicedInto (definitions_in rs) e (alternatives (fill_group (parameters_in r) xs (group_of g))) → LacksKey (definitions_in rs) e → (at : ℕ) × HasNoKey rs root at }
    ensures occurrences { (rs : List Rule) (root : Text) (r : Rule) (xs : List Term) (t : Token) (g : S.Group) → IsReached rs root r xs (a_map t g) → (e : Entry) → IsSplicedInto (definitions_in rs) e (alternatives (fill_group (parameters_in r) xs (group_of g))) → OccursBadly (definitions_in rs) e → (at : ℕ) × HasMapShape rs root at }
    ensures ways { (rs : List Rule) (root : Text) (r : Rule) (xs : List Term) (t : Token) (g : S.Group) → IsReached rs root r xs (a_map t g) → (e : Entry) → ComesBack (definitions_in rs) (alternatives (fill_group (parameters_in r) xs (group_of g))) e → (at : ℕ) × HasMapShape rs root at }
    ensures leads { (rs : List Rule) (root : Text) (r : Rule) (xs : List Term) (q : Option Point) (e : S.GrpEnt) (p : Point) → IsSpliced rs root r xs q e → IsLedToBy (definitions_in rs) p (closed_entry r xs e) → (s : Rule) × (ys : List Term) × (u : Option Point) × (d : S.GrpEnt) × IsSpliced rs root s ys u d × (point_in (definitions_in rs) (closed_entry s ys d) ≡ Some p) }
{}

/// Where the group of a map has no alternatives, an entry that is spliced into it has neither a key nor a group, or is a group
/// that may not occur so; or a way into it goes through more names than there may be instances, so it comes back to one.
pub fn maps_without_alternatives()
    ensures { (ds : List Definition) (g : Group) → map_alternatives ds g ≡ None → ((e : Entry) × IsSplicedInto ds e (alternatives g) × (LacksKey ds e ⊎ OccursBadly ds e)) ⊎ GoesThrough ds (suc most_instances) (alternatives g) }
{}

/// Once `~` has unwrapped something, a name is a group's, a group in a map has alternatives, `&` chooses from a group, or a type is a
/// literal or has the members of a `.size` or a `.bits`, ways through more names change nothing.
pub fn more_names_change_nothing()
    ensures opened { (ds : List Definition) (k : ℕ) (r : Ref) (o : Opened) → opened_in k ds r ≡ Some o → opened_in (suc k) ds r ≡ Some o }
    ensures group { (ds : List Definition) (k : ℕ) (n : Text) → is_group_in k ds n ≡ true → is_group_in (suc k) ds n ≡ true }
    ensures alternatives { (ds : List Definition) (k n : ℕ) → k ≤ n → (ess : List Entries) (mss : Alternatives) → alternatives_in ds k ess ≡ Some mss → alternatives_in ds n ess ≡ Some mss }
    ensures chosen { (ds : List Definition) (k n : ℕ) → k ≤ n → (ess : List Entries) (ts : List Term) → chosen_in ds k ess ≡ Some ts → chosen_in ds n ess ≡ Some ts }
    ensures literal { (worth : Values) (ds : List Definition) (k n : ℕ) → k ≤ n → (t : Term) (m : Meaning) → literal_in worth ds k t ≡ Some m → literal_in worth ds n t ≡ Some m }
    ensures sizes { (worth : Values) (ds : List Definition) (k n : ℕ) → k ≤ n → (t : Term) (rs : Sizes) → sizes_in worth ds k t ≡ Some rs → sizes_in worth ds n t ≡ Some rs }
    ensures members { (m : Membership) (worth : Values) (ds : List Definition) (k n : ℕ) → k ≤ n → (b : Behind) (rs : Sizes) → members_in m worth ds k b ≡ Some rs → members_in m worth ds n b ≡ Some rs }
{}

/// A specification is accepted or refused: of an accepted one no fault is reported, of any other one, of one code at one byte. That one
/// is reported is said so: where none is, the specification is accepted.
pub fn one_fault()
    ensures same { (s : Specification) (worth : Values) (c d : Code) (p q : ℕ) → IsRefused s worth c p → IsRefused s worth d q → (d ≡ c) × (q ≡ p) }
    ensures apart { (s : Specification) (worth : Values) (c : Code) (p : ℕ) → IsAccepted s worth → IsRefused s worth c p → ⊥ }
    ensures some { (s : Specification) (worth : Values) → ((c : Code) (p : ℕ) → IsRefused s worth c p → ⊥) → IsAccepted s worth }
{}

/// An accepted specification has no cycle of free references: nothing that an instance asks before an item is taken or gone into
/// leads back to itself, by names of the text or of the prelude.
pub fn accepted_has_no_cycle()
    ensures cycle { (s : Specification) (worth : Values) (root : Text) (p : Point) → IsAccepted s worth → root_of s ≡ Some root → IsOnCycle (definitions s) root p → ⊥ }
    ensures back { (s : Specification) (worth : Values) (root : Text) (p : Point) → IsAccepted s worth → root_of s ≡ Some root → LeadsBack (definitions s) root p → ⊥ }
{}

/// The root of an accepted specification is a type.
pub fn accepted_root_is_type()
    ensures { (s : Specification) (worth : Values) (root : Text) → IsAccepted s worth → root_of s ≡ Some root → is_group (definitions s) root ≡ false }
{}

/// Where anything that an instance asks leads back to itself, the fault is reported for something: where no reference leads back, of a
/// name through which a choice does.
pub fn each_way_back_is_told()
    ensures { (ds : List Definition) (root : Text) (p : Point) → LeadsBack ds root p → ((q : Point) → IsOnCycle ds root q → ⊥) → ⊥ }
{}

/// A table that stands for a specification says of each item what the root says, at the same place and in as many judgements.
pub fn tables_say_the_same()
    ensures says { (worth : Values) (ds : List Definition) (root : Text) (l : Language ℕ ℕ) (top : ℕ) (rank : Name ℕ ℕ → ℕ) (ranks : ℕ) → StandsFor worth ds root l top rank ranks → (p w : ℕ) (x : Value) (a : Answer) → Says (language worth ds) (type_node worth ds (reference (call root no_terms))) p x a w → Says l (l.type_at top) p x a w }
    ensures no_more { (worth : Values) (ds : List Definition) (root : Text) (l : Language ℕ ℕ) (top : ℕ) (rank : Name ℕ ℕ → ℕ) (ranks : ℕ) → StandsFor worth ds root l top rank ranks → (p w : ℕ) (x : Value) (a : Answer) → Says l (l.type_at top) p x a w → Says (language worth ds) (type_node worth ds (reference (call root no_terms))) p x a w }
{}

/// The literals that a text can write or compute are numbers and strings.
pub fn literals_are_plain()
    ensures { (worth : Values) (ds : List Definition) → HasPlainLiterals (language worth ds) }
{}

/// A table that stands for a specification says yes to both of two items that are the same, or no to both. The places at which
/// a no shows may differ.
pub fn same_by_text<N, G>()
    ensures yes { (worth : Values) (ds : List Definition) (root : Text) (l : Language N G) (top : N) (rank : Name N G → ℕ) (ranks : ℕ) → StandsFor worth ds root l top rank ranks → (x y : Value) (w : ℕ) → IsSame x y → Says l (l.type_at top) 0 x Yes w → (v : ℕ) × Says l (l.type_at top) 0 y Yes v }
    ensures no { (worth : Values) (ds : List Definition) (root : Text) (l : Language N G) (top : N) (rank : Name N G → ℕ) (ranks : ℕ) → StandsFor worth ds root l top rank ranks → (x y : Value) (far w : ℕ) → IsSame x y → Says l (l.type_at top) 0 x (No far) w → (near v : ℕ) × Says l (l.type_at top) 0 y (No near) v }
{}

/// The values that are written in a specification have a table that is right, and right tables agree on them.
pub fn one_table_of_values()
    ensures some { (x : Cddl) → AreTokens x → (worth : Values) × AreRight x worth }
    ensures same { (x : Cddl) (u w : Values) → AreRight x u → AreRight x w → (v : Literal) → Holds x v → u v ≡ w v }
{
    cddl_literal::one_meaning();
    cddl_literal::cut_out();
}

/// The number that is read in a text is the one that the text spells.
pub fn numbers_are_spelled()
    ensures uint { (s : List ℕ) (n : ℕ) → IsUint s 0 (length s) n → uint_in s ≡ n }
    ensures tag { (s : List ℕ) (n : ℕ) → IsTagNumberOpen s 0 (length s) n → tag_number s {N = Text} ≡ exactly n }
    ensures least { (s : List ℕ) (low high : ℕ) → IsStar s 0 (length s) low high → least_in s ≡ low }
    ensures most { (s : List ℕ) (low high : ℕ) (h : IsStar s 0 (length s) low high) → h.star + 1 ≢ length s → most_in s ≡ at_most high }
    ensures no_most { (s : List ℕ) (low high : ℕ) (h : IsStar s 0 (length s) low high) → h.star + 1 ≡ length s → most_in s ≡ any_number_of }
    ensures hash { (s : List ℕ) (n : ℕ) → IsHashNumber s 0 (length s) n → hash_form s ≡ numbered (number_after 10 0 (slice_index s 1 ∷ [])) n }
{}
