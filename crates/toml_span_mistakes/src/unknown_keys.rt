//! Messages, notes, labels and help for unknown and deprecated keys, and for unexpected values. If an allocation
//! fails, the output so far is dropped.
ghost use Rattle.std.specs.Prelude.{◌≡◌, ◌++◌, codes, IfOk, OnOk, map, option_map, string_bytes};
ghost use Rattle.std.specs.List.{flat_map};
ghost use Rattle.std.specs.Option.{option_to_list};
ghost use Rattle.toml_span_tree.specs.Diagnostic.{label_content};
ghost use Rattle.toml_span_tree.specs.Error.{marked_keys};
ghost use Rattle.toml_span_mistakes.specs.UnknownKeys as spec;

use std::alloc::{AllocError, Global};
use toml_span_lex::span::Span;
use toml_span_report::nearest;
use toml_span_tree::Label;

/// Appends `name` in backticks to `out`.
fn push_named(out: &mut String, name: &str) -> Result<(), AllocError>
    ensures { OnOk result (string_bytes out.new ≡ string_bytes out.old ++ spec.named name.now) }
{
    out.push_str("`")?;
    out.push_str(name)?;
    out.push_str("`")
}

/// Appends the names in backticks to `out`, each after a comma.
fn push_more(out: &mut String, names: &[&str]) -> Result<(), AllocError>
    ensures { OnOk result (string_bytes out.new ≡ string_bytes out.old
        ++ flat_map (λ name. codes ", " ++ spec.named name) (map (λ name. name.now) names.now)) }
{
    for name in names {
        out.push_str(", ")?;
        push_named(out, *name)?;
    }
    Ok(())
}

/// Appends the names in backticks to `out`, separated by commas.
fn push_listed(out: &mut String, names: &[&str]) -> Result<(), AllocError>
    ensures { OnOk result (string_bytes out.new ≡ string_bytes out.old
        ++ spec.listed (map (λ name. name.now) names.now)) }
{
    match names.split_first() {
        Some((first, more)) => {
            push_named(out, *first)?;
            push_more(out, more)
        }
        None => Ok(()),
    }
}

/// Returns the names of the keys as string slices.
pub(crate) fn key_names<'a>(
    alloc: Global,
    keys: &'a [(String, Span)],
) -> Result<Vec<&'a str>, AllocError>
    ensures { IfOk result (λ names. map (λ name. name.now) names.items ≡ map (λ key. key.0) (marked_keys keys.now)) }
{
    let mut names = Vec::with_capacity(alloc, keys.len())?;
    for key in keys {
        names.push(key.0.as_str())?;
    }
    Ok(names)
}

/// Returns the names in `owned` as string slices.
pub(crate) fn lent_names<'a>(alloc: Global, owned: &'a [String]) -> Result<Vec<&'a str>, AllocError>
    ensures { IfOk result (λ names. map (λ name. name.now) names.items ≡ map string_bytes owned.now) }
{
    let mut names = Vec::with_capacity(alloc, owned.len())?;
    for name in owned {
        names.push(name.as_str())?;
    }
    Ok(names)
}

/// Returns the message for the unknown keys `names`.
pub(crate) fn unknown_keys(alloc: Global, names: &[&str]) -> Result<String, AllocError>
    ensures { IfOk result (λ out. string_bytes out ≡ spec.unknown_keys (map (λ name. name.now) names.now)) }
{
    let title = if names.len() == 1 {
        "unknown key "
    } else {
        "unknown keys "
    };
    let mut out = String::from_str(alloc, title)?;
    push_listed(&mut out, names)?;
    Ok(out)
}

/// Returns a note that lists the expected keys `names`, or says that the table can't have keys if `names` is empty.
pub(crate) fn what_is_expected(alloc: Global, names: &[&str]) -> Result<String, AllocError>
    ensures { IfOk result (λ out. string_bytes out ≡ spec.expected_keys (map (λ name. name.now) names.now)) }
{
    if names.is_empty() {
        return String::from_str(alloc, "this table can't have keys");
    }
    let mut out = String::from_str(alloc, "expected ")?;
    push_listed(&mut out, names)?;
    Ok(out)
}

/// Returns the message for an unexpected value, which lists the expected values `names`.
pub(crate) fn one_of(alloc: Global, names: &[&str]) -> Result<String, AllocError>
    ensures { IfOk result (λ out. string_bytes out ≡ spec.one_of (map (λ name. name.now) names.now)) }
{
    let title = if names.len() == 1 {
        "expected "
    } else {
        "expected one of "
    };
    let mut out = String::from_str(alloc, title)?;
    push_listed(&mut out, names)?;
    Ok(out)
}

/// Returns the message that the key `old` is deprecated, and that `new` replaces it.
pub(crate) fn deprecated(alloc: Global, old: &str, new: &str) -> Result<String, AllocError>
    ensures { IfOk result (λ out. string_bytes out ≡ spec.deprecated old.now new.now) }
{
    let mut out = String::new(alloc);
    push_named(&mut out, old)?;
    out.push_str(" is deprecated, use ")?;
    push_named(&mut out, new)?;
    Ok(out)
}

/// Returns a list with a primary label at each key.
pub(crate) fn key_labels(
    alloc: Global,
    keys: &[(String, Span)],
) -> Result<Vec<Label<()>>, AllocError>
    ensures { IfOk result (λ labels. map label_content labels.items ≡ map spec.key_label (marked_keys keys.now)) }
{
    let mut labels = Vec::with_capacity(alloc, keys.len())?;
    for key in keys {
        labels.push(Label {
            primary: true,
            file: (),
            span: key.1,
            message: String::from_str(alloc, "unknown key")?,
        })?;
    }
    Ok(labels)
}

/// Appends ` in place of ` and `name` in backticks to `out`, unless `count` is 1. `count` is the number of unknown
/// names.
fn push_in_place_of(out: &mut String, count: usize, name: &str) -> Result<(), AllocError>
    ensures { OnOk result (string_bytes out.new ≡ string_bytes out.old ++ spec.in_place_of count name.now) }
{
    if count == 1 {
        return Ok(());
    }
    out.push_str(" in place of ")?;
    push_named(out, name)?;
    Ok(())
}

/// Returns the line of help that suggests `meant` for the unknown name `name`. `count` is the number of unknown names.
fn suggestion(alloc: Global, count: usize, name: &str, meant: &str) -> Result<String, AllocError>
    ensures { IfOk result (λ out. string_bytes out ≡ spec.suggestion count name.now meant.now) }
{
    let mut out = String::from_str(alloc, "did you mean ")?;
    push_named(&mut out, meant)?;
    push_in_place_of(&mut out, count, name)?;
    out.push_str("?")?;
    Ok(out)
}

/// Returns the line of help that suggests one of the names in `expected` for the unknown name `name`. Returns `None` if
/// none is near enough (`nearest`). `count` is the number of unknown names.
fn suggestion_for(
    alloc: Global,
    count: usize,
    name: &str,
    expected: &[&str],
) -> Result<Option<String>, AllocError>
    ensures { IfOk result (λ found. option_map string_bytes found
        ≡ spec.suggestion_for count (map (λ name. name.now) expected.now) name.now) }
{
    match nearest(alloc, name, expected)? {
        Some(meant) => Ok(Some(suggestion(alloc, count, name, meant)?)),
        None => Ok(None),
    }
}

/// Appends `text` to `texts`, if it is not `None`.
fn push_text(texts: &mut Vec<String>, text: Option<String>) -> Result<(), AllocError>
    ensures { OnOk result (map string_bytes texts.new.items
        ≡ map string_bytes texts.old.items ++ option_to_list (option_map string_bytes text)) }
{
    if let Some(text) = text {
        texts.push(text)?;
    }
    Ok(())
}

/// Returns a line of help for each unknown name in `names` that is near enough to an expected name (`nearest`).
pub(crate) fn suggestions(
    alloc: Global,
    names: &[&str],
    expected: &[&str],
) -> Result<Vec<String>, AllocError>
    ensures { IfOk result (λ help. map string_bytes help.items
        ≡ spec.suggestions (map (λ name. name.now) names.now) (map (λ name. name.now) expected.now)) }
{
    let mut help = Vec::new(alloc);
    for name in names {
        let text = suggestion_for(alloc, names.len(), *name, expected)?;
        push_text(&mut help, text)?;
    }
    Ok(help)
}
