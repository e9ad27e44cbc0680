//! Tables that words build: each word is a type or a group, and numbers name those of the same list. The parts of a word have
//! colons between them, and `tests/run_calls.py` explains them.
use call_lines::{bytes, count, number};
use cbor_item::Item;
use std::alloc::{AllocError, Global};
use table_nodes::{
    Content, Group, GroupId, MapEntry, Most, Node, NumberRange, NumberSet, Ranks, TagNumber, Test,
    TypeId, Whole,
};

pub(crate) fn type_id(word: &str) -> TypeId {
    TypeId {
        number: count(word),
    }
}

fn group_id(word: &str) -> GroupId {
    GroupId {
        number: count(word),
    }
}

// The part before the first colon, and what is after it.
pub(crate) fn cut(word: &str) -> (&str, &str) {
    word.split_once(':').unwrap_or((word, ""))
}

fn most(word: &str) -> Most {
    if word == "any" {
        return Most::Any;
    }
    Most::AtMost(number(word))
}

// `5`, or `n5` for -6.
fn whole(word: &str) -> Whole {
    match word.strip_prefix('n') {
        Some(digits) => Whole::Nint(number(digits)),
        None => Whole::Uint(number(word)),
    }
}

fn whole_item(word: &str) -> Item {
    match whole(word) {
        Whole::Uint(number) => Item::Uint(number),
        Whole::Nint(number) => Item::Nint(number),
    }
}

fn type_ids(alloc: Global, words: &str) -> Result<Vec<TypeId>, AllocError> {
    let mut ids = Vec::new(alloc);
    for word in words.split(',') {
        if !word.is_empty() {
            ids.push(type_id(word))?;
        }
    }
    Ok(ids)
}

fn group_ids(alloc: Global, words: &str) -> Result<Vec<GroupId>, AllocError> {
    let mut ids = Vec::new(alloc);
    for word in words.split(',') {
        if !word.is_empty() {
            ids.push(group_id(word))?;
        }
    }
    Ok(ids)
}

// The types that words with spaces between them say.
pub(crate) fn types_of(alloc: Global, words: &str) -> Result<Vec<Node>, AllocError> {
    let mut types = Vec::new(alloc);
    for word in words.split(' ') {
        types.push(node_of(alloc, word)?)?;
    }
    Ok(types)
}

fn node_of(alloc: Global, word: &str) -> Result<Node, AllocError> {
    let (form, told) = cut(word);
    Ok(match form {
        "ref" => Node::Ref(type_id(told)),
        "choice" => Node::Choice(type_ids(alloc, told)?),
        "array" => Node::ArrayOf(group_id(told)),
        "simple" => Node::SimpleBy(type_id(told)),
        "map" => Node::MapOf(alternatives_of(alloc, told)?),
        "such" => such_of(alloc, told)?,
        "tag" | "both" | "one" | "sequence" => pair_of(form, told),
        _ => Node::Plain(test_of(alloc, form, told)?),
    })
}

// Types of two others.
fn pair_of(form: &str, told: &str) -> Node {
    let (left, right) = cut(told);
    match form {
        "tag" => Node::TagOf(TagNumber::SuchAs(type_id(left)), type_id(right)),
        "one" => Node::Holding(type_id(left), Content::OneItem, type_id(right)),
        "sequence" => Node::Holding(type_id(left), Content::Sequence, type_id(right)),
        _ => Node::Both(type_id(left), type_id(right)),
    }
}

fn such_of(alloc: Global, told: &str) -> Result<Node, AllocError> {
    let (id, told) = cut(told);
    let (form, told) = cut(told);
    Ok(Node::Such(type_id(id), test_of(alloc, form, told)?))
}

fn test_of(alloc: Global, form: &str, told: &str) -> Result<Test, AllocError> {
    Ok(match form {
        "major" => Test::Major(told.parse::<u8>().unwrap_or(0)),
        "closed" => between(told, true),
        "open" => between(told, false),
        "text" => Test::Equals(Item::Text(String::from_str(alloc, told)?)),
        "bytes" => Test::Equals(Item::Bytes(bytes(alloc, told)?)),
        "is" => Test::Equals(whole_item(told)),
        "ne" => Test::Differs(Item::Uint(number(told))),
        "lt" => Test::Less(whole(told)),
        "le" => Test::AtMost(whole(told)),
        "gt" => Test::Greater(whole(told)),
        "ge" => Test::AtLeast(whole(told)),
        "size" => Test::Sized(ranges_of(alloc, told)?),
        "bits" => Test::Bits(ranges_of(alloc, told)?),
        _ => Test::Anything,
    })
}

fn between(told: &str, closed: bool) -> Test {
    let (least, last) = cut(told);
    Test::Between {
        least: whole(least),
        last: whole(last),
        closed,
    }
}

// Ranges, each as `first..last`, with commas between them.
fn ranges_of(alloc: Global, told: &str) -> Result<NumberSet, AllocError> {
    let mut ranges = Vec::new(alloc);
    for range in told.split(',') {
        let (least, last) = range.split_once("..").unwrap_or((range, range));
        ranges.push(NumberRange {
            least: number(least),
            last: number(last),
        })?;
    }
    NumberSet::new(alloc, ranges)
}

// Alternatives with `/` between them; none where there is no text.
fn alternatives_of(alloc: Global, told: &str) -> Result<Vec<Vec<MapEntry>>, AllocError> {
    let mut alternatives = Vec::new(alloc);
    for entries in told.split('/') {
        if !entries.is_empty() {
            alternatives.push(entries_of(alloc, entries)?)?;
        }
    }
    Ok(alternatives)
}

// Entries with commas between them; `-` stands for none.
fn entries_of(alloc: Global, told: &str) -> Result<Vec<MapEntry>, AllocError> {
    let mut entries = Vec::new(alloc);
    for entry in told.split(',') {
        if entry != "-" {
            entries.push(entry_of(entry))?;
        }
    }
    Ok(entries)
}

// `least*most:`, the type of the keys, `=` or, where it cuts, `^`, and the type of the values.
fn entry_of(entry: &str) -> MapEntry {
    let (least, told) = entry.split_once('*').unwrap_or(("0", entry));
    let (most_word, told) = told.split_once(':').unwrap_or(("0", told));
    let cuts = told.contains('^');
    let (key, value) = told
        .split_once(if cuts { '^' } else { '=' })
        .unwrap_or((told, ""));
    MapEntry {
        least: number(least),
        most: most(most_word),
        key_type: type_id(key),
        cuts,
        value_type: type_id(value),
    }
}

// The groups that words with spaces between them say.
pub(crate) fn groups_of(alloc: Global, words: &str) -> Result<Vec<Group>, AllocError> {
    let mut groups = Vec::new(alloc);
    for word in words.split(' ') {
        if !word.is_empty() {
            groups.push(group_of(alloc, word)?)?;
        }
    }
    Ok(groups)
}

fn group_of(alloc: Global, word: &str) -> Result<Group, AllocError> {
    let (form, told) = cut(word);
    Ok(match form {
        "entry" => Group::Entry(type_id(told)),
        "ref" => Group::Ref(group_id(told)),
        "seq" => Group::Sequence(group_ids(alloc, told)?),
        "alt" => Group::Alternatives(group_ids(alloc, told)?),
        _ => repeat_of(form, told),
    })
}

// `least*most:group`.
fn repeat_of(form: &str, told: &str) -> Group {
    let (least, most_word) = form.split_once('*').unwrap_or((form, form));
    Group::Repeat {
        least: number(least),
        most: most(most_word),
        group: group_id(told),
    }
}

// Three lists with spaces between them, each of numbers with commas, or `-` for none: the ranks of types and of groups, and 1
// for each group that may take no item.
pub(crate) fn ranks_of(alloc: Global, words: &str) -> Result<Ranks, AllocError> {
    let (types, words) = words.split_once(' ').unwrap_or((words, ""));
    let (groups, flags) = words.split_once(' ').unwrap_or((words, ""));
    Ok(Ranks {
        types: numbers(alloc, types)?,
        groups: numbers(alloc, groups)?,
        may_be_empty: flags_in(alloc, flags)?,
    })
}

fn numbers(alloc: Global, words: &str) -> Result<Vec<usize>, AllocError> {
    let mut out = Vec::new(alloc);
    for word in words.split(',') {
        if word != "-" {
            out.push(count(word))?;
        }
    }
    Ok(out)
}

fn flags_in(alloc: Global, words: &str) -> Result<Vec<bool>, AllocError> {
    let mut out = Vec::new(alloc);
    for word in words.split(',') {
        if word != "-" {
            out.push(word == "1")?;
        }
    }
    Ok(out)
}
