//! Writes snippets, which are texts with placeholders for the user to fill in (LSP 3.17, Snippet Syntax).
use std::alloc::AllocError;
use toml_span_schema::Kinds;

/// The characters before which text outside a choice needs `\`.
pub(crate) const OUTSIDE: &str = "$}\\";

/// Appends text, with `\` before each of the characters `special`.
pub(crate) fn push_text(out: &mut String, text: &str, special: &str) -> Result<(), AllocError> {
    for c in text.chars() {
        if special.contains(c) {
            out.push('\\')?;
        }
        out.push(c)?;
    }
    Ok(())
}

/// Appends a placeholder at which the user chooses one of `words`.
fn push_choice(out: &mut String, words: &[&str]) -> Result<(), AllocError> {
    out.push_str("${1|")?;
    for (at, word) in words.iter().enumerate() {
        if at > 0 {
            out.push(',')?;
        }
        push_text(out, *word, ",|\\")?;
    }
    out.push_str("|}")
}

/// Appends a placeholder for a value of one of `kinds`, such that the text is valid TOML as it is: in quotes if `kinds`
/// has strings, otherwise in braces if it has tables, otherwise in brackets if it has arrays, otherwise 0 if it has
/// numbers, otherwise an empty string.
fn push_kind(out: &mut String, kinds: Kinds) -> Result<(), AllocError> {
    out.push_str(if kinds.string {
        "\"$1\""
    } else if kinds.table {
        "{ $1 }"
    } else if kinds.array {
        "[$1]"
    } else if kinds.integer || kinds.float {
        "${1:0}"
    } else {
        "${1:\"\"}"
    })
}

/// Appends a placeholder for a value. If there are `words`, it is a choice among them. Otherwise, if `kinds` allows
/// booleans but not strings, it is a choice of `true` and `false`, with the default first. Otherwise it contains the
/// default or, without a default, is the one that `push_kind` appends.
pub(crate) fn push_place(
    out: &mut String,
    kinds: Kinds,
    words: &[&str],
    default: Option<&str>,
) -> Result<(), AllocError> {
    if !words.is_empty() {
        return push_choice(out, words);
    }
    if kinds.boolean && !kinds.string {
        let is_on = default != Some("false");
        return push_choice(
            out,
            if is_on {
                &["true", "false"]
            } else {
                &["false", "true"]
            },
        );
    }
    match default {
        Some(default) => {
            out.push_str("${1:")?;
            push_text(out, default, OUTSIDE)?;
            out.push('}')
        }
        None => push_kind(out, kinds),
    }
}
