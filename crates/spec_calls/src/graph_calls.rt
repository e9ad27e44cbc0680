//! Calls of `graphs`: cycles, implications and chains of numbers.
use call_lines::{count, first, push_no_memory, push_none, push_number, push_space};
use graphs::chains::{Link, ends};
use graphs::cycles::{Edge, Order, bottom_up, order_of};
use graphs::implications::{Implication, following};
use std::alloc::{AllocError, Global};

// A number, of nodes, of facts or of links that may be followed, and then edges, implications or links.
pub(crate) fn answer(
    alloc: Global,
    name: &str,
    words: &str,
    out: &mut String,
) -> Result<(), AllocError> {
    let (number, words) = first(words);
    match name {
        "bottom_up" => push_bottom_up(alloc, count(number), words, out),
        "order_of" => push_order(alloc, count(number), words, out),
        "following" => push_following(alloc, count(number), words, out),
        "ends" => push_ends(alloc, count(number), words, out),
        _ => out.push_str("no such call"),
    }
}

// The edges `from-to`.
fn edges_of(alloc: Global, words: &str) -> Result<Vec<Edge>, AllocError> {
    let mut edges = Vec::new(alloc);
    for word in words.split(' ') {
        if let Some((from, to)) = word.split_once('-') {
            edges.push(Edge {
                from: count(from),
                to: count(to),
            })?;
        }
    }
    Ok(edges)
}

fn push_bottom_up(
    alloc: Global,
    nodes: usize,
    words: &str,
    out: &mut String,
) -> Result<(), AllocError> {
    let edges = edges_of(alloc, words)?;
    match bottom_up(alloc, nodes, &edges) {
        Ok(order) => push_numbers(alloc, &order, out),
        Err(_) => push_no_memory(out),
    }
}

fn push_numbers(alloc: Global, numbers: &[usize], out: &mut String) -> Result<(), AllocError> {
    for number in numbers {
        push_space(out)?;
        push_number(alloc, *number as u64, out)?;
    }
    push_none(out)
}

fn push_order(
    alloc: Global,
    nodes: usize,
    words: &str,
    out: &mut String,
) -> Result<(), AllocError> {
    let edges = edges_of(alloc, words)?;
    match order_of(alloc, nodes, &edges) {
        Ok(Order::Ranks(ranks)) => {
            out.push_str("Ranks")?;
            push_numbers(alloc, &ranks, out)
        }
        Ok(Order::Cycles(flags)) => {
            out.push_str("Cycles ")?;
            push_flags(&flags, out)
        }
        Err(_) => push_no_memory(out),
    }
}

fn push_flags(flags: &[bool], out: &mut String) -> Result<(), AllocError> {
    for flag in flags {
        out.push_str(if *flag { "y" } else { "n" })?;
    }
    push_none(out)
}

// A fact, or none where there is no number.
fn fact(word: &str) -> Option<usize> {
    word.parse::<usize>().ok()
}

// The implications `then`, `then:first` or `then:first:second`.
fn rules_of(alloc: Global, words: &str) -> Result<Vec<Implication>, AllocError> {
    let mut rules = Vec::new(alloc);
    for word in words.split(' ') {
        if !word.is_empty() {
            rules.push(rule(word))?;
        }
    }
    Ok(rules)
}

fn rule(word: &str) -> Implication {
    let (then, premises) = word.split_once(':').unwrap_or((word, ""));
    let (one, other) = premises.split_once(':').unwrap_or((premises, ""));
    Implication {
        then: count(then),
        first: fact(one),
        second: fact(other),
    }
}

fn push_following(
    alloc: Global,
    facts: usize,
    words: &str,
    out: &mut String,
) -> Result<(), AllocError> {
    let rules = rules_of(alloc, words)?;
    match following(alloc, facts, &rules) {
        Ok(flags) => push_flags(&flags, out),
        Err(_) => push_no_memory(out),
    }
}

// The links, each the number of the next one, or `end:` with an answer.
fn links_of(alloc: Global, words: &str) -> Result<Vec<Link>, AllocError> {
    let mut links = Vec::new(alloc);
    for word in words.split(' ') {
        links.push(match word.strip_prefix("end:") {
            Some(answer) => Link::End(call_lines::limit(answer)),
            None => Link::Next(count(word)),
        })?;
    }
    Ok(links)
}

fn push_ends(alloc: Global, most: usize, words: &str, out: &mut String) -> Result<(), AllocError> {
    let links = links_of(alloc, words)?;
    match ends(alloc, &links, most) {
        Ok(answers) => push_answers(alloc, &answers, out),
        Err(_) => push_no_memory(out),
    }
}

fn push_answers(
    alloc: Global,
    answers: &[Option<u32>],
    out: &mut String,
) -> Result<(), AllocError> {
    for answer in answers {
        push_space(out)?;
        match answer {
            Some(number) => push_number(alloc, *number as u64, out)?,
            None => out.push_str("-")?,
        }
    }
    push_none(out)
}
