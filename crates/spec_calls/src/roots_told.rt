//! What is reported for the instances of a text, by the name of the call that is asked.

use crate::chain::{Meant, Opened};
use crate::coming::of_coming_back;
use crate::maps::of_map_faults;
use alternatives::{Part as SplicePart, Summary, summaries};
use cddl_literal::Literal;
use cddl_literal::operators::Fault;
use check_groups::splices::parts_of;
use check_instances::closed::{Meaning, alternatives, choices, entries};
use check_instances::openings::{Opening, Part, part_of};
use check_literals::Literals;
use check_literals::sizes::Sizes;
use check_maps::map_faults::MapFaults;
use check_maps::spliced::{Owner, Spliced};
use check_reached::{Asked, Question};
use check_recursion::{Node, Order, Ranks, find_order};
use check_sites::entries::Holder;
use check_terms::Terms;
use std::alloc::Global;
use table_making::{Nodes, Source, nodes_of};
use table_nodes::NumberSet;

// What is reported for the instances of a text, by the name of the call that tells it. They stand in the order in which they are
// found, with the root first.
pub(crate) fn told(
    alloc: Global,
    terms: &Terms<'_>,
    meant: &Meant<'_>,
    what: &str,
) -> Option<String> {
    match what {
        "opens" => of_openings(alloc, &meant.opened.openings),
        "asked" => of_asked(alloc, &meant.reached.questions.asked),
        "entries" => of_asked(alloc, &meant.reached.questions.entries),
        "spliced" => of_spliced(alloc, &meant.groups.spliced),
        "back" => of_coming_back(alloc, terms, meant),
        "wrong_maps" => of_map_faults(alloc, terms, meant),
        "order" => order_of(alloc, terms, meant),
        "nodes" => nodes_in(alloc, terms, meant),
        _ => of_each(alloc, terms, meant, what),
    }
}

// The word of an instance.
fn word_of(
    alloc: Global,
    terms: &Terms<'_>,
    meant: &Meant<'_>,
    what: &str,
    meaning: &Meaning,
) -> Option<String> {
    match what {
        "names" => name_of(alloc, terms, meaning),
        "types" => types_of(alloc, terms, meaning),
        "groups" => group_of(alloc, terms, meaning),
        "parts" => part_in(alloc, terms, meant.opened, meaning),
        "literals" => literal_in(alloc, &meant.valued.literals, meaning),
        "sizes" => sizes_in(alloc, terms, &meant.valued.members.sizes, meaning),
        "bits" => sizes_in(alloc, terms, &meant.valued.members.bits, meaning),
        "maps" => wrong_in(alloc, terms, &meant.groups.map_faults, meaning),
        "chooses" => flag_in(alloc, &meant.groups.choosable, meaning.group),
        _ => flag_in(alloc, &meant.groups.may_be_empty, meaning.group),
    }
}

// A word for each instance, and a space after each.
fn of_each(alloc: Global, terms: &Terms<'_>, meant: &Meant<'_>, what: &str) -> Option<String> {
    let mut words = String::new(alloc);
    for meaning in &meant.opened.closed.meanings {
        let word = word_of(alloc, terms, meant, what, meaning)?;
        words.push_str(word.as_str()).ok()?;
        words.push_str(" ").ok()?;
    }
    Some(words)
}

pub(crate) fn text_in(alloc: Global, text: &str) -> Option<String> {
    format!(in alloc; "{text}").ok()
}

fn flag_in(alloc: Global, flags: &[bool], row: Option<u32>) -> Option<String> {
    match row {
        Some(row) => match flags.get(row as usize) {
            Some(true) => text_in(alloc, "yes"),
            _ => text_in(alloc, "no"),
        },
        None => text_in(alloc, "-"),
    }
}

fn name_of(alloc: Global, terms: &Terms<'_>, meaning: &Meaning) -> Option<String> {
    let name = terms.row(meaning.call)?.text?;
    text_in(alloc, terms.text(name)?)
}

// How many choices the instance has, and how many its first one has by itself.
fn types_of(alloc: Global, terms: &Terms<'_>, meaning: &Meaning) -> Option<String> {
    let count = meaning.types.len();
    match meaning.types.first() {
        Some(row) => {
            let inner = choices(alloc, terms, *row).ok()?.len();
            format!(in alloc; "{count}/{inner}").ok()
        }
        None => format!(in alloc; "{count}").ok(),
    }
}

// How many alternatives the instance has, and how many entries its first one has.
fn group_of(alloc: Global, terms: &Terms<'_>, meaning: &Meaning) -> Option<String> {
    let Some(group) = meaning.group else {
        return text_in(alloc, "-");
    };
    let rows = alternatives(alloc, terms, group).ok()?;
    let count = rows.len();
    let inner = entries(alloc, terms, *rows.first()?).ok()?.len();
    format!(in alloc; "{count}/{inner}").ok()
}

// What is wrong in a map with each entry of an alternative.
fn push_wrong(
    alloc: Global,
    terms: &Terms<'_>,
    map_faults: &[MapFaults],
    alternative: u32,
    word: &mut String,
) -> Option<()> {
    for entry in &entries(alloc, terms, alternative).ok()? {
        word.push_str(wrong_with(map_faults, *entry)).ok()?;
    }
    Some(())
}

// What is wrong in a map with each entry of the instance's alternatives, and whether its group has too many.
fn wrong_in(
    alloc: Global,
    terms: &Terms<'_>,
    map_faults: &[MapFaults],
    meaning: &Meaning,
) -> Option<String> {
    let Some(group) = meaning.group else {
        return text_in(alloc, "-");
    };
    let mut word = String::new(alloc);
    for row in &alternatives(alloc, terms, group).ok()? {
        push_wrong(alloc, terms, map_faults, *row, &mut word)?;
    }
    if map_faults.get(group as usize)?.has_too_many {
        word.push_str("!").ok()?;
    }
    Some(word)
}

fn wrong_with(map_faults: &[MapFaults], entry: u32) -> &'static str {
    match map_faults.get(entry as usize) {
        Some(faults) if faults.lacks_key => "k",
        Some(faults) if faults.occurs_badly => "o",
        _ => ".",
    }
}

fn of_openings(alloc: Global, openings: &[Opening]) -> Option<String> {
    let mut words = String::new(alloc);
    for opening in openings {
        let word = match opening {
            Opening::Nothing => "- ",
            Opening::Group(_) => "group ",
            Opening::Type(_) => "type ",
        };
        words.push_str(word).ok()?;
    }
    Some(words)
}

// What the first choice of the instance is as an entry.
fn part_in(alloc: Global, terms: &Terms<'_>, opened: &Opened, meaning: &Meaning) -> Option<String> {
    let Some(row) = meaning.types.first() else {
        return text_in(alloc, "-");
    };
    match part_of(terms, &opened.closed, &opened.kinds, &opened.openings, *row) {
        Part::AsksType => text_in(alloc, "type"),
        Part::NamesGroup(place) => format!(in alloc; "group{place}").ok(),
        Part::Opens(place, _) => format!(in alloc; "opened{place}").ok(),
    }
}

// The literal that the first choice of the instance is, or why it computes none.
fn literal_in(alloc: Global, literals: &Literals, meaning: &Meaning) -> Option<String> {
    let Some(row) = meaning.types.first() else {
        return text_in(alloc, "-");
    };
    match literals.get(*row) {
        Some(Literal::Uint(number)) => format!(in alloc; "{number}").ok(),
        Some(Literal::Nint(number)) => format!(in alloc; "-1-{number}").ok(),
        Some(Literal::Text(text)) => text_in(alloc, text.as_str()),
        Some(Literal::Bytes(bytes)) => {
            let count = bytes.len();
            format!(in alloc; "{count}bytes").ok()
        }
        None => fault_word(alloc, literals.fault(*row)),
    }
}

fn fault_word(alloc: Global, fault: Option<Fault>) -> Option<String> {
    match fault {
        Some(Fault::LeftKind) => text_in(alloc, "left"),
        Some(Fault::RightKind) => text_in(alloc, "right"),
        Some(Fault::OutOfRange) => text_in(alloc, "range"),
        Some(Fault::NotUtf8) => text_in(alloc, "utf8"),
        None => text_in(alloc, "-"),
    }
}

fn sizes_at<'m>(terms: &Terms<'_>, sizes: &'m Sizes, meaning: &Meaning) -> Option<&'m NumberSet> {
    let controller = terms.row(*meaning.types.first()?)?.second?;
    sizes.get(controller)
}

// The members of the controller of the first choice of the instance, and how many ranges they are.
fn sizes_in(alloc: Global, terms: &Terms<'_>, sizes: &Sizes, meaning: &Meaning) -> Option<String> {
    let Some(sizes) = sizes_at(terms, sizes, meaning) else {
        return text_in(alloc, "-");
    };
    let mut sum: u64 = 0;
    let ranges = sizes.ranges();
    for range in ranges {
        sum = sum.checked_add(range.last)?.checked_add(range.least)?;
    }
    let count = ranges.len();
    format!(in alloc; "{count}of{sum}").ok()
}

fn sort_of(question: &Question) -> &'static str {
    match question {
        Question::ChoosesFrom => "from",
        Question::ChoosesByName => "name",
        Question::IsWhole => "whole",
        Question::IsLiteral => "literal",
        Question::IsNumber => "number",
        Question::IsAddend => "addend",
        Question::IsString => "string",
        Question::Computes => "computes",
        Question::HasSizes => "sizes",
        Question::HasBits => "bits",
        Question::MapGroup => "map",
        Question::Entry(Holder::Map) => "own",
        Question::Entry(Holder::Rule) => "rule",
        Question::Entry(Holder::Opened) => "opened",
    }
}

fn of_asked(alloc: Global, questions: &[Asked]) -> Option<String> {
    let mut words = String::new(alloc);
    for asked in questions {
        let word = word_at(alloc, sort_of(&asked.question), asked.at)?;
        words.push_str(word.as_str()).ok()?;
    }
    Some(words)
}

fn word_at(alloc: Global, word: &str, at: usize) -> Option<String> {
    format!(in alloc; "{word}{at} ").ok()
}

// The owner and the offset of an entry.
pub(crate) fn word_of_entry(alloc: Global, entry: &Spliced) -> Option<String> {
    let owner = match entry.owner {
        Owner::Map => "map",
        Owner::Named(_) => "named",
        Owner::Opened(_) => "opened",
    };
    word_at(alloc, owner, entry.at)
}

fn of_spliced(alloc: Global, spliced: &[Spliced]) -> Option<String> {
    let mut words = String::new(alloc);
    for entry in spliced {
        let word = word_of_entry(alloc, entry)?;
        words.push_str(word.as_str()).ok()?;
    }
    Some(words)
}

// Whether the ranks of what an instance means, opens and chooses from are within their bound.
fn are_bounded(ranks: &Ranks, place: u32) -> bool {
    let most = ranks.bound();
    ranks.rank(Node::Name(place)) <= most
        && ranks.rank(Node::Unwrapping(place)) <= most
        && ranks.rank(Node::Choice(place)) <= most
        && ranks.rank(Node::ChosenName(place)) <= most
        && ranks.rank(Node::OpenedChoice(place)) <= most
}

// Whether an instance is above the first of its choices, and this is above the row after it in which `&` would choose.
fn is_above(ranks: &Ranks, place: u32, meaning: &Meaning) -> bool {
    match meaning.types.first() {
        Some(row) => ranks.rank(Node::Row(*row)) < ranks.rank(Node::Name(place)),
        None => ranks.rank(Node::Name(place)) <= ranks.bound(),
    }
}

// The order of what is asked of an item.
pub(crate) fn order_in(alloc: Global, terms: &Terms<'_>, meant: &Meant<'_>) -> Option<Order> {
    find_order(
        alloc,
        terms,
        &meant.opened.closed,
        &meant.opened.kinds,
        &meant.opened.openings,
        &meant.groups.choosable,
        &meant.groups.may_be_empty,
    )
    .ok()
}

// Of each instance whether it is above what it means; or of each whether it comes back to itself.
fn order_of(alloc: Global, terms: &Terms<'_>, meant: &Meant<'_>) -> Option<String> {
    match &order_in(alloc, terms, meant) {
        Some(Order::Ranks(ranks)) => of_ranks(alloc, &meant.opened.closed.meanings, ranks),
        Some(Order::Cycles(flags)) => of_flags(alloc, flags),
        None => None,
    }
}

fn of_ranks(alloc: Global, meanings: &[Meaning], ranks: &Ranks) -> Option<String> {
    let mut words = String::new(alloc);
    let mut place: u32 = 0;
    for meaning in meanings {
        let right = are_bounded(ranks, place) && is_above(ranks, place, meaning);
        words.push_str(if right { "down " } else { "up " }).ok()?;
        place = place.checked_add(1)?;
    }
    Some(words)
}

fn of_flags(alloc: Global, flags: &[bool]) -> Option<String> {
    let mut words = String::new(alloc);
    for flag in flags {
        words.push_str(if *flag { "round " } else { "- " }).ok()?;
    }
    Some(words)
}

// How many types and groups are made, and whether there is an origin for each.
fn counts_of(alloc: Global, nodes: &Nodes) -> Option<String> {
    let types = nodes.types.len();
    let groups = nodes.groups.len();
    let same = types == nodes.type_origins.len() && groups == nodes.group_origins.len();
    format!(in alloc; "{types} {groups} {same}").ok()
}

fn nodes_of_parts(
    alloc: Global,
    terms: &Terms<'_>,
    meant: &Meant<'_>,
    parts: &[SplicePart],
    summaries: &[Option<Summary>],
) -> Option<String> {
    let source = Source {
        closed: &meant.opened.closed,
        kinds: &meant.opened.kinds,
        openings: &meant.opened.openings,
        literals: &meant.valued.literals,
        members: &meant.valued.members,
        choosable: &meant.groups.choosable,
        parts,
        summaries,
    };
    match &nodes_of(alloc, terms, &source, 0) {
        Ok(nodes) => counts_of(alloc, nodes),
        Err(_) => None,
    }
}

fn nodes_in(alloc: Global, terms: &Terms<'_>, meant: &Meant<'_>) -> Option<String> {
    let Opened {
        closed,
        kinds,
        openings,
        ..
    } = meant.opened;
    let Ok(parts) = parts_of(alloc, terms, closed, kinds, openings) else {
        return None;
    };
    match &summaries(alloc, &parts) {
        Ok(summaries) => nodes_of_parts(alloc, terms, meant, &parts, summaries),
        Err(_) => None,
    }
}
