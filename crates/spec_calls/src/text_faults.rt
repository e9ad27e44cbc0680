//! The faults of a text that are reported at its rules and sites, by their offsets.

use crate::texts_told::text_in;
use check_reading::survey::Survey;
use check_terms::Terms;
use check_text::rule_faults::{
    bad_root, duplicate, kind_clash, no_root, root_of, wrong_arity as wrong_arity_of_rule,
};
use check_text::site_faults::{SiteCode, site_fault};
use std::alloc::Global;

// The code at words of this name.
fn site_code(code: &str) -> Option<SiteCode> {
    match code {
        "undefined" => Some(SiteCode::Undefined),
        "wrong_arity" => Some(SiteCode::Arity),
        "group_as_type" => Some(SiteCode::GroupAsType),
        "bad_hash" => Some(SiteCode::HashForm),
        "unknown_control" => Some(SiteCode::UnknownControl),
        _ => None,
    }
}

// The least offset of a fault whose search allocates, if there is memory.
fn searched(
    alloc: Global,
    terms: &Terms<'_>,
    survey: &Survey,
    code: &str,
) -> Option<Option<usize>> {
    match site_code(code) {
        Some(code) => site_fault(alloc, terms, survey, code).ok(),
        None => searched_at_rules(alloc, terms, survey, code),
    }
}

fn searched_at_rules(
    alloc: Global,
    terms: &Terms<'_>,
    survey: &Survey,
    code: &str,
) -> Option<Option<usize>> {
    match code {
        "duplicate" => duplicate(alloc, terms, survey).ok(),
        _ => Some(offset(terms, survey, code)),
    }
}

// The least offset of a fault of roots or of another code.
fn offset(terms: &Terms<'_>, survey: &Survey, code: &str) -> Option<usize> {
    match code {
        "no_root" => no_root(terms, survey, None),
        "no_root:x" => no_root(terms, survey, Some("x")),
        "root_of:x" => root_of(terms, survey, Some("x")).map(|_| 1),
        "bad_root" => bad_root(terms, survey, None),
        "bad_root:x" => bad_root(terms, survey, Some("x")),
        "kind_clash" => kind_clash(terms, survey),
        _ => wrong_arity_of_rule(terms, survey),
    }
}

// The least offset of the fault of this code, or `-`.
pub(crate) fn fault_in(
    alloc: Global,
    terms: &Terms<'_>,
    survey: &Survey,
    code: &str,
) -> Option<String> {
    match searched(alloc, terms, survey, code) {
        Some(Some(at)) => format!(in alloc; "{at} ").ok(),
        Some(None) => text_in(alloc, "-"),
        None => None,
    }
}
