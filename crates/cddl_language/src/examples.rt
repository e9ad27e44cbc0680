//! Examples of the definitions, by computing.

ghost use Rattle.std.specs.Prelude.{◌≡◌, ℕ, [], ◌∷◌, Some, None, codes, false, true};
ghost use Rattle.cbor_data.specs.Value.{Value, array, no_pairs, no_values, pair, pairs, text, uint, value};
ghost use Rattle.cddl_meaning.specs.Forms.{any_number_of, at_most, exactly};
ghost use Rattle.cddl_meaning.specs.Judges.{No, Says, Yes};
ghost use Rattle.cddl_literal.specs.Numbers.{Meaning, TextOf, UintOf};
ghost use Rattle.cddl_language.specs.Choices.{chosen};
ghost use Rattle.cddl_language.specs.Environment.{definitions_of};
ghost use Rattle.cddl_language.specs.Examples as E;
ghost use Rattle.cddl_language.specs.Faults.{IsAccepted, IsFaultAt};
ghost use Rattle.cddl_language.specs.Kinds.{is_group, opened, opens_group, opens_type};
ghost use Rattle.cddl_language.specs.Language.{language, type, type_node};
ghost use Rattle.cddl_language.specs.Literals.{Values, literal_of};
ghost use Rattle.cddl_language.specs.MapFaults.{HasMapShape, HasNoKey, HasTooManyAlternatives};
ghost use Rattle.cddl_language.specs.Maps.{map_alternatives};
ghost use Rattle.cddl_language.specs.Numbers.{hash_form, least_in, most_in, numbered, tag_number, uint_in};
ghost use Rattle.cddl_language.specs.Prelude.{definition, plain};
ghost use Rattle.cddl_language.specs.Reach.{Point, at_name, points_in};
ghost use Rattle.cddl_language.specs.Free.{IsFreeInMeaning};
ghost use Rattle.cddl_language.specs.Reading.{definitions_in, rules_of};
ghost use Rattle.cddl_language.specs.Controls.{of_bits};
ghost use Rattle.cddl_language.specs.Sizes.{members_of, sizes_of};
ghost use Rattle.cddl_language.specs.StandsFor.{StandsFor};
ghost use Rattle.cddl_language.specs.Substitution.{type_choices};
ghost use Rattle.cddl_language.specs.Texts as T;
ghost use Rattle.cddl_token.specs.declared.Code.TheVariants.{Arity, BadRange, BadRoot, Duplicate, GroupAsType, HashForm, KindClash, MapShape, NoKey, NoRoot, NotUnwrappable, Recursion, TooManyAlternatives, TooManyInstances, Undefined, UnknownControl};
ghost use Rattle.cddl_language.specs.Terms.{Text, call, choice_of_name, no_terms, entries, hash, map_of, no_entries, number, sole, typed};

/// Numbers in the texts of tokens.
pub fn numbers()
    ensures decimal { uint_in (codes "1024") ≡ 1024 }
    ensures hexadecimal { uint_in (codes "0x1F") ≡ 31 }
    ensures binary { uint_in (codes "0b101") ≡ 5 }
    ensures least { least_in (codes "2*3") ≡ 2 }
    ensures most { most_in (codes "2*3") ≡ at_most 3 }
    ensures star { most_in (codes "0x2*") ≡ any_number_of }
    ensures question { least_in (codes "?") ≡ 0 }
    ensures tag { tag_number (codes "#6.32(") {N = Text} ≡ exactly 32 }
    ensures hash { hash_form (codes "#7.25") ≡ numbered 7 25 }
{}

/// `=` replaces what the prelude says, `/=` adds to it; of a name's `=` the first counts; a socket may have none.
pub fn definitions()
    ensures replaced { definitions_of (definition (codes "int") E.tstr ∷ []) (codes "int") ≡ definition (codes "int") E.tstr ∷ [] }
    ensures extended { type_choices (E.also_type (codes "uint") E.tstr ∷ []) (E.a_ref (codes "uint")) ≡ hash (codes "#0") ∷ E.tstr ∷ [] }
    ensures once { definitions_of (definition (codes "a") E.tstr ∷ definition (codes "a") E.int ∷ []) (codes "a") ≡ definition (codes "a") E.tstr ∷ [] }
    ensures before_equals { type_choices (E.also_type (codes "a") E.tstr ∷ definition (codes "a") E.int ∷ []) (E.a_ref (codes "a")) ≡ E.tstr ∷ E.int ∷ [] }
    ensures socket { definitions_of [] (codes "$x") ≡ [] }
{}

/// Kinds: by a name, by `~`, of a circle, of sockets, of names of the prelude.
pub fn kinds()
    ensures circle { is_group E.in_circle (codes "a") ≡ false }
    ensures by_name { is_group E.some_names (codes "a") ≡ true }
    ensures by_unwrapping { is_group E.some_names (codes "c") ≡ true }
    ensures of_tag { is_group E.some_names (codes "e") ≡ false }
    ensures of_choice { is_group E.some_names (codes "f") ≡ false }
    ensures unknown { is_group E.some_names (codes "nobody") ≡ false }
    ensures group_socket { is_group [] (codes "$$x") ≡ true }
    ensures type_socket { is_group [] (codes "$x") ≡ false }
    ensures in_prelude { is_group (E.also_group (codes "int") E.a_group ∷ []) (codes "int") ≡ false }
{}

/// What `~` unwraps: maps and tags through names and parentheses; no choice, no circle, no parameter.
pub fn unwrapping()
    ensures map { opened E.some_names (E.a_ref (codes "d")) ≡ Some (opens_group E.x_int) }
    ensures tag { opened E.some_names (E.a_ref (codes "t")) ≡ Some (opens_type E.int) }
    ensures choice { opened E.some_names (E.a_ref (codes "g")) ≡ None }
    ensures circle { opened E.in_circle (E.a_ref (codes "a")) ≡ None }
    ensures generic { opened E.generics (E.of_int (codes "r")) ≡ Some (opens_group (sole (entries no_entries (typed None E.int) false))) }
    ensures parameter { opened E.generics (E.of_int (codes "p")) ≡ None }
    ensures hidden_name { opened (E.generic (codes "p") (codes "m") (plain (codes "m")) ∷ E.some_names) (E.of_int (codes "p")) ≡ None }
{}

/// Bodies of closed references, and the references in them. An argument after `~` is used.
pub fn bodies()
    ensures filled { type_choices E.generics (E.of_int (codes "q")) ≡ E.array_with (typed None E.int) ∷ [] }
    ensures passed_on { points_in E.generics (E.of_int (codes "r")) ≡ at_name (E.of_int (codes "q")) ∷ [] }
    ensures behind_unwrapping { points_in E.opens_parameter (E.of_int (codes "w")) ≡ at_name (E.a_ref (codes "int")) ∷ [] }
{}

/// Types that are one value, and the types of `&`.
pub fn choices()
    ensures literal { (worth : Values) → literal_of worth E.five (plain (codes "x")) ≡ Some (worth (number (codes "5"))) }
    ensures no_literal { (worth : Values) → literal_of worth [] E.int ≡ None }
    ensures chosen_types { chosen E.nested (E.group_of_name (codes "g")) ≡ Some (E.int ∷ E.tstr ∷ plain (codes "k") ∷ []) }
    ensures not_once { chosen E.not_to_choose (E.group_of_name (codes "g")) ≡ None }
    ensures endless { chosen E.not_to_choose (E.group_of_name (codes "h")) ≡ None }
{}

/// The members of the controller of `.size`: of numbers and ranges, of none, of a name, of a text, and of names that need each
/// other.
pub fn sizes()
    ensures choice { sizes_of E.worth [] E.one_or_three_to_five ≡ Some ((1, 1) ∷ (3, 5) ∷ []) }
    ensures open { sizes_of E.worth [] E.three_below_five ≡ Some ((3, 4) ∷ []) }
    ensures empty { sizes_of E.worth [] E.below_nought ≡ Some [] }
    ensures name { sizes_of E.worth E.of_two_sizes (plain (codes "s")) ≡ Some ((1, 1) ∷ (5, 5) ∷ []) }
    ensures text { sizes_of E.worth [] (E.a_text (codes "a")) ≡ None }
    ensures circle { sizes_of E.worth E.in_circle (plain (codes "a")) ≡ None }
{}

/// The members of the controller of `.bits`: of a choice from a group, with a range beside it, by names of groups, and of none,
/// since an entry may be left out. A controller of `.size` has none by such a choice.
pub fn bits()
    ensures choice { members_of of_bits E.worth [] E.nought_or_nine ≡ Some ((0, 0) ∷ (9, 9) ∷ []) }
    ensures range { members_of of_bits E.worth [] E.nine_or_four_to_seven ≡ Some ((9, 9) ∷ (4, 7) ∷ []) }
    ensures names { members_of of_bits E.worth E.bits_by_names (choice_of_name (E.a_ref (codes "g"))) ≡ Some ((0, 0) ∷ (2, 2) ∷ (4, 7) ∷ []) }
    ensures optional { members_of of_bits E.worth [] E.nought_or_not ≡ None }
    ensures size { sizes_of E.worth [] E.nought_or_nine ≡ None }
{}

/// Literals that are computed from others, and none: of a sum with a text, and of names that need each other.
pub fn computed_literals()
    ensures join { literal_of E.worth E.of_b E.a_then_b ≡ Some (TextOf (codes "ab")) }
    ensures line { literal_of E.worth [] E.a_then_line ≡ Some (TextOf (codes "a\nb")) }
    ensures sum { literal_of E.worth [] E.one_and_two ≡ Some (UintOf 3) }
    ensures unlike { literal_of E.worth [] E.one_and_text ≡ None }
    ensures circle { literal_of E.worth E.in_circle (plain (codes "a")) ≡ None }
{}

/// Alternatives of the groups of maps, and groups that have none.
pub fn maps()
    ensures row { map_alternatives [] E.a_or_b_then_c ≡ Some ((E.of_word (codes "a") (codes "1") ∷ E.of_word (codes "c") (codes "3") ∷ []) ∷ (E.of_word (codes "b") (codes "2") ∷ E.of_word (codes "c") (codes "3") ∷ []) ∷ []) }
    ensures slowest { map_alternatives [] E.two_of_four ≡ Some ((E.of_word (codes "a") (codes "1") ∷ E.of_word (codes "c") (codes "3") ∷ []) ∷ (E.of_word (codes "a") (codes "1") ∷ E.of_word (codes "d") (codes "4") ∷ []) ∷ (E.of_word (codes "b") (codes "2") ∷ E.of_word (codes "c") (codes "3") ∷ []) ∷ (E.of_word (codes "b") (codes "2") ∷ E.of_word (codes "d") (codes "4") ∷ []) ∷ []) }
    ensures optional { map_alternatives [] E.maybe_both ≡ Some ((E.of_word (codes "a") (codes "1") ∷ E.of_word (codes "b") (codes "2") ∷ []) ∷ [] ∷ []) }
    ensures any { map_alternatives [] E.any_of_free ≡ Some ((E.ints_from 0 (codes "1") ∷ E.ints_from 0 (codes "2") ∷ []) ∷ []) }
    ensures some { map_alternatives [] E.some_of_either ≡ Some ((E.ints_from 1 (codes "1") ∷ E.ints_from 0 (codes "2") ∷ []) ∷ (E.ints_from 0 (codes "1") ∷ E.ints_from 1 (codes "2") ∷ []) ∷ []) }
    ensures named { map_alternatives E.some_names E.two_names ≡ Some ((E.x_member ∷ E.x_member ∷ []) ∷ []) }
    ensures socket { map_alternatives [] (E.group_of_name (codes "$$x")) ≡ Some [] }
    ensures any_of_socket { map_alternatives [] (E.any_of (codes "$$x")) ≡ Some ([] ∷ []) }
    ensures any_of_pairs { map_alternatives [] E.any_of_both ≡ None }
    ensures some_of_pairs { map_alternatives [] E.some_of_both ≡ None }
    ensures some_of_optional { map_alternatives [] E.some_of_maybe ≡ None }
    ensures of_itself { map_alternatives E.of_itself (E.group_of_name (codes "g")) ≡ None }
    ensures without_key { map_alternatives [] (E.group_of_name (codes "int")) ≡ None }
{}

/// Faults of maps, each at its byte. Parentheses on the way back to a group are an entry, those of a whole body are not.
pub fn map_faults()
    ensures without_key { HasNoKey (rules_of T.map_of_int.tree) (codes "a") 5 }
    ensures of_pairs { HasMapShape (rules_of T.map_of_pairs.tree) (codes "m") 6 }
    ensures comes_back { HasMapShape (rules_of (T.two_rules T.map_of_g T.g_of_itself).tree) (codes "m") 23 }
    ensures too_many { HasTooManyAlternatives (rules_of T.map_of_ten.tree) (codes "m") 4 }
    ensures in_parens { HasMapShape (rules_of (T.two_rules T.map_of_g T.g_in_parens).tree) (codes "m") 23 }
    ensures in_opened { HasNoKey (rules_of (T.two_rules T.map_of_opened T.two_ints).tree) (codes "m") 16 }
    ensures behind_prelude { HasNoKey (rules_of (T.two_rules T.map_of_bytes T.bstr_is_map).tree) (codes "m") 23 }
    ensures twice { HasMapShape (rules_of T.map_of_twice.tree) (codes "m") 6 }
{}

/// What the language says of items: `int` of 1; `[* int, int]` of `[1]`, where nothing is given back; `[~u]` with
/// `u = #6.32(tstr)` of `["a"]`; `&(x: int, y: tstr)` of 1; `1...3` of 3; `{x: int}` of `{"x": 1}`, and of `{"y": 1}`, where the
/// key belongs to no entry.
pub fn items()
    ensures int { (worth : Values) (p : ℕ) → Says (language worth []) (type_node worth [] (type E.int)) p (uint 1) Yes 5 }
    ensures greedy { (worth : Values) → Says (language worth []) (type_node worth [] (type E.ints_then_int)) 0 (array (value (uint 1) no_values)) (No 0) 12 }
    ensures content { (worth : Values) → Says (language worth E.tagged_text) (type_node worth E.tagged_text (type E.opened_text)) 0 (array (value (text (codes "a")) no_values)) Yes 8 }
    ensures choice { (worth : Values) → Says (language worth []) (type_node worth [] (type E.one_of_two)) 0 (uint 1) Yes 6 }
    ensures range { (worth : Values) → worth (number (codes "1")) ≡ UintOf 1 → worth (number (codes "3")) ≡ UintOf 3 → Says (language worth []) (type_node worth [] (type E.below_three)) 0 (uint 3) (No 0) 1 }
    ensures pairs { (worth : Values) → Says (language worth []) (type_node worth [] (type (map_of E.x_int))) 0 (pairs (pair (text (codes "x")) (uint 1) no_pairs)) Yes 10 }
    ensures stray { (worth : Values) → Says (language worth []) (type_node worth [] (type (map_of E.x_int))) 0 (pairs (pair (text (codes "y")) (uint 1) no_pairs)) (No 1) 3 }
{}

/// In `t = &(b)`, `b = (x: t)` the choice goes through `b`, which is no reference there: recursion is reported for `t` alone.
pub fn through_a_group()
    ensures told { (worth : Values) → IsFaultAt T.chosen_through worth Recursion 0 }
    ensures not_told { (worth : Values) → IsFaultAt T.chosen_through worth Recursion 9 → ⊥ }
{}

/// A fault of each code at its byte, but for `TooManyInstances`, which has an example of its own.
pub fn faults()
    ensures defined_twice { (worth : Values) → IsFaultAt T.twice worth Duplicate 8 }
    ensures two_kinds { (worth : Values) → IsFaultAt T.type_and_group worth KindClash 8 }
    ensures undefined { (worth : Values) → IsFaultAt T.undefined worth Undefined 4 }
    ensures with_argument { (worth : Values) → IsFaultAt T.with_argument worth Arity 4 }
    ensures no_rule { (worth : Values) → IsFaultAt T.empty worth NoRoot 0 }
    ensures group_root { (worth : Values) → IsFaultAt T.group_root worth BadRoot 0 }
    ensures group_in_choice { (worth : Values) → IsFaultAt T.group_in_choice worth GroupAsType 4 }
    ensures choice_of_type { (worth : Values) → IsFaultAt T.choice_of_type worth GroupAsType 5 }
    ensures bare_tag { (worth : Values) → IsFaultAt T.bare_tag worth HashForm 4 }
    ensures with_regexp { (worth : Values) → IsFaultAt T.with_regexp worth UnknownControl 9 }
    ensures unwrapped_int { (worth : Values) → IsFaultAt T.unwrapped_int worth NotUnwrappable 5 }
    ensures unwrapped_argument { (worth : Values) → IsFaultAt T.unwrapped_argument worth NotUnwrappable 6 }
    ensures choice_of_maybe { (worth : Values) → IsFaultAt T.choice_of_maybe worth NotUnwrappable 4 }
    ensures first_itself { (worth : Values) → IsFaultAt T.first_itself worth Recursion 0 }
    ensures chosen_itself { (worth : Values) → IsFaultAt T.chosen_itself worth Recursion 0 }
    ensures chosen_by_name { (worth : Values) → IsFaultAt T.chosen_by_name worth Recursion 7 }
    ensures group_first_itself { (worth : Values) → IsFaultAt (T.two_rules T.r_of_g T.maybe_int_then_g) worth Recursion 8 }
    ensures to_text { (worth : Values) → IsFaultAt T.to_text worth BadRange 7 }
    ensures to_parameter { (worth : Values) → IsFaultAt T.to_parameter worth BadRange 22 }
    ensures three_to_two { (worth : Values) → IsFaultAt T.three_to_two worth BadRange 5 }
    ensures without_key { (worth : Values) → IsFaultAt T.map_of_int worth NoKey 5 }
    ensures of_pairs { (worth : Values) → IsFaultAt T.map_of_pairs worth MapShape 6 }
    ensures too_many { (worth : Values) → IsFaultAt T.map_of_ten worth TooManyAlternatives 4 }
{}

/// `t = [* t]` is accepted: its entry asks `t` of an item, so the name is not free in what it means.
pub fn accepted()
    ensures { (worth : Values) → IsAccepted T.lists worth }
{}

/// `r = a<int>`, `a<t> = [t, ? a<[t]>]` has more instances than may be.
pub fn endless()
    ensures { (worth : Values) → IsFaultAt T.endless worth TooManyInstances 0 }
{}

/// A table of two types stands for `a = #`.
pub fn table()
    ensures { (worth : Values) → StandsFor worth E.anything (codes "a") E.one_test 0 E.rank_at 1 }
{}

/// In `r = [g]`, `g = (int, ? g)` no reference is free in what `g` means.
pub fn behind_an_item()
    ensures { (p : Point) → IsFreeInMeaning (definitions_in (T.r_of_g ∷ T.int_then_maybe_g ∷ [])) p (at_name (call (codes "g") no_terms)) → ⊥ }
{}
