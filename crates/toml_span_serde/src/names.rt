//! The names of fields and variants, with which keys and texts are compared.
ghost use Rattle.std.specs.Prelude.{◌≡◌, ◌++◌, IfOk, OnOk, map, option_map, string_bytes};
ghost use Rattle.toml_span_report.specs.Names.{nearest};
ghost use Rattle.toml_span_serde.specs.Names.{text_of};
ghost use Rattle.toml_span_serde.specs.Names as spec;

use serde::Name;
use std::alloc::{AllocError, Global};

/// Returns a name, converted to the case that `rename_all` requires.
fn text_of(alloc: Global, name: &Name<'_>) -> Result<String, AllocError>
    ensures { IfOk result (λ text. string_bytes text ≡ text_of name.now) }
{
    let mut text = String::new(alloc);
    name.case.append(name.kind, name.name, &mut text)?;
    Ok(text)
}

/// Appends a name and its aliases to `texts`.
fn push_forms(alloc: Global, name: &Name<'_>, texts: &mut Vec<String>) -> Result<(), AllocError>
    ensures { OnOk result (map string_bytes texts.new.items
        ≡ map string_bytes texts.old.items ++ spec.forms_of name.now) }
{
    texts.push(text_of(alloc, name)?)?;
    push_copies(alloc, name.aliases, texts)
}

/// Appends copies of the strings in `copied` to `texts`.
fn push_copies(alloc: Global, copied: &[&str], texts: &mut Vec<String>) -> Result<(), AllocError>
    ensures { OnOk result (map string_bytes texts.new.items
        ≡ map string_bytes texts.old.items ++ map (λ text. text.now) copied.now) }
{
    for text in copied {
        texts.push(String::from_str(alloc, *text)?)?;
    }
    Ok(())
}

/// Appends `name` and its aliases to `texts`, or nothing if its field or variant is skipped.
fn push_read(alloc: Global, name: &Name<'_>, texts: &mut Vec<String>) -> Result<(), AllocError>
    ensures { OnOk result (map string_bytes texts.new.items
        ≡ map string_bytes texts.old.items ++ spec.forms_read name.now) }
{
    if name.skipped {
        return Ok(());
    }
    push_forms(alloc, name, texts)
}

/// Returns a name and its aliases.
pub(crate) fn forms_of(alloc: Global, name: &Name<'_>) -> Result<Vec<String>, AllocError>
    ensures { IfOk result (λ texts. map string_bytes texts.items ≡ spec.forms_of name.now) }
{
    let mut texts = Vec::new(alloc);
    push_forms(alloc, name, &mut texts)?;
    Ok(texts)
}

/// Returns the names and their aliases, without those of skipped fields.
pub(crate) fn all_forms(alloc: Global, names: &[Name<'_>]) -> Result<Vec<String>, AllocError>
    ensures { IfOk result (λ texts. map string_bytes texts.items ≡ spec.all_forms names.now) }
{
    let mut texts = Vec::new(alloc);
    for name in names {
        push_read(alloc, name, &mut texts)?;
    }
    Ok(texts)
}

/// Returns copies of the texts.
pub(crate) fn copied(alloc: Global, texts: &[String]) -> Result<Vec<String>, AllocError>
    ensures { IfOk result (λ copy. map string_bytes copy.items ≡ map string_bytes texts.now) }
{
    let mut copy = Vec::with_capacity(alloc, texts.len())?;
    for text in texts {
        copy.push(String::from_str(alloc, text.as_str())?)?;
    }
    Ok(copy)
}

/// Returns the texts as borrowed strings.
fn lent(alloc: Global, texts: &[String]) -> Result<Vec<&str>, AllocError>
    ensures { IfOk result (λ lent. map (λ text. text.now) lent.items ≡ map string_bytes texts.now) }
{
    let mut lent = Vec::with_capacity(alloc, texts.len())?;
    for text in texts {
        lent.push(text.as_str())?;
    }
    Ok(lent)
}

/// Returns the one of `names` that is nearest to `word`, or `None` if no name is near enough
/// (`toml_span_report::nearest`).
pub(crate) fn meant<'a>(
    alloc: Global,
    word: &str,
    names: &'a [String],
) -> Result<Option<&'a str>, AllocError>
    ensures { IfOk result (λ found. option_map (λ name. name.now) found
        ≡ nearest word.now (map string_bytes names.now)) }
{
    let names = lent(alloc, names)?;
    toml_span_report::nearest(alloc, word, names.as_slice())
}
