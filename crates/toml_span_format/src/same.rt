//! Compares sections without regard to spans.
ghost use Rattle.std.specs.Prelude.{◌≡◌, ◌↔◌, IsTrue, map};
ghost use Rattle.toml_span_read.specs.Data.{parsed_section, parsed_value, parsed_assignment, simple_key, parts};
ghost use Rattle.toml_span_format.specs.Same.{bare_key, bare_value, bare_assignment, bare_section};

use toml_span_lex::key::Key;
use toml_span_read::{Assignment, DottedKey, Section, Val, ValKind};

/// Returns whether two keys have the same name.
fn same_key(a: &Key<'_>, b: &Key<'_>) -> bool
    ensures { IsTrue result ↔ (bare_key (simple_key a.now) ≡ bare_key (simple_key b.now)) }
{
    a.name.as_ref() == b.name.as_ref()
}

/// Returns whether two lists of keys have the same names, in the same order.
pub(crate) fn same_keys(a: &[Key<'_>], b: &[Key<'_>]) -> bool
    ensures { IsTrue result ↔ (map bare_key (map simple_key a.now) ≡ map bare_key (map simple_key b.now)) }
{
    if a.len() != b.len() {
        return false;
    }
    for (i, x) in a.iter().enumerate() {
        if !same_key(x, &b[i]) {
            return false;
        }
    }
    true
}

/// Returns whether two dotted keys have the same parts.
fn same_parts(a: &DottedKey<'_>, b: &DottedKey<'_>) -> bool
    ensures { IsTrue result ↔ (map bare_key (parts a.now) ≡ map bare_key (parts b.now)) }
{
    same_keys(a.inner.as_slice(), b.inner.as_slice()) && same_key(&a.last, &b.last)
}

/// Returns whether two values are equal, without regard to spans.
#[cycle(same_value)]
fn same_value(a: &Val<'_>, b: &Val<'_>) -> bool
    ensures { IsTrue result ↔ (bare_value (parsed_value a.now) ≡ bare_value (parsed_value b.now)) }
{
    match (&a.kind, &b.kind) {
        (ValKind::String(x), ValKind::String(y)) => x.as_ref() == y.as_ref(),
        (ValKind::Integer(x), ValKind::Integer(y)) => *x == *y,
        (ValKind::Float(x), ValKind::Float(y)) => *x == *y,
        (ValKind::Boolean(x), ValKind::Boolean(y)) => *x == *y,
        (ValKind::Datetime(x), ValKind::Datetime(y)) => x.text() == y.text(),
        (ValKind::Array(x), ValKind::Array(y)) => same_values(x.as_slice(), y.as_slice()),
        (ValKind::Inline(x), ValKind::Inline(y)) => same_pairs(x.as_slice(), y.as_slice()),
        _ => false,
    }
}

/// Returns whether two lists of values are equal, without regard to spans.
#[cycle(same_value)]
fn same_values(a: &[Val<'_>], b: &[Val<'_>]) -> bool
    ensures { IsTrue result ↔ (map bare_value (map parsed_value a.now) ≡ map bare_value (map parsed_value b.now)) }
{
    if a.len() != b.len() {
        return false;
    }
    for (i, x) in a.iter().enumerate() {
        if !same_value(x, &b[i]) {
            return false;
        }
    }
    true
}

/// Returns whether two assignments are equal, without regard to spans.
#[cycle(same_value)]
pub(crate) fn same_pair(a: &Assignment<'_>, b: &Assignment<'_>) -> bool
    ensures { IsTrue result ↔ (bare_assignment (parsed_assignment a.now) ≡ bare_assignment (parsed_assignment b.now)) }
{
    same_parts(&a.parts, &b.parts) && same_value(&a.value, &b.value)
}

/// Returns whether two lists of assignments are equal, without regard to spans.
#[cycle(same_value)]
fn same_pairs(a: &[Assignment<'_>], b: &[Assignment<'_>]) -> bool
    ensures { IsTrue result
        ↔ (map bare_assignment (map parsed_assignment a.now) ≡ map bare_assignment (map parsed_assignment b.now)) }
{
    if a.len() != b.len() {
        return false;
    }
    for (i, x) in a.iter().enumerate() {
        if !same_pair(x, &b[i]) {
            return false;
        }
    }
    true
}

/// Returns whether two sections are equal, without regard to spans.
fn same_section(a: &Section<'_>, b: &Section<'_>) -> bool
    ensures { IsTrue result ↔ (bare_section (parsed_section a.now) ≡ bare_section (parsed_section b.now)) }
{
    a.array == b.array
        && same_keys(a.header.as_slice(), b.header.as_slice())
        && same_pairs(a.assignments.as_slice(), b.assignments.as_slice())
}

/// Returns whether two lists of sections are equal, without regard to spans.
pub(crate) fn same_sections(a: &[Section<'_>], b: &[Section<'_>]) -> bool
    ensures { IsTrue result ↔ (map bare_section (map parsed_section a.now)
        ≡ map bare_section (map parsed_section b.now)) }
{
    if a.len() != b.len() {
        return false;
    }
    for (i, x) in a.iter().enumerate() {
        if !same_section(x, &b[i]) {
            return false;
        }
    }
    true
}
