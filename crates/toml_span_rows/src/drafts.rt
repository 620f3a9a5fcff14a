//! `bumped VERSION`: the text, a manifest, with another version and without `package.publish`, or why it is refused.
//! `drafted PATH STRING`: the text with this string at the path.
use crate::Row;
use crate::output::Out;
use std::alloc::Global;
use toml_span::Stop;
use toml_span_edit::{Change, Draft, EditError};

/// Returns the manifest `text` with the version `version`, and without `package.publish`.
fn bumped(alloc: Global, text: &str, version: &str) -> Result<String, Stop<EditError>> {
    let draft = Draft::new(alloc, text)?
        .set_str("package.version", version)?
        .edit("package.publish", Change::Remove)?;
    Ok(draft.text)
}

/// Returns the text with the string `string` at `path`.
fn drafted(alloc: Global, text: &str, path: &str, string: &str) -> Result<String, Stop<EditError>> {
    Ok(Draft::new(alloc, text)?.set_str(path, string)?.text)
}

/// Prints the text that a call returned, or its error.
fn push_edited(edited: Result<String, Stop<EditError>>, out: &mut Out) {
    match edited {
        Ok(new) => out.push_str(new.as_str()),
        Err(stop) => out.display(stop),
    }
}

/// Prints the answer to `bumped` or `drafted`. Returns `false` for any other call.
pub fn answer(alloc: Global, row: Row<'_>, out: &mut Out) -> bool {
    let edited = match row.call {
        "bumped" => bumped(alloc, row.text, row.word(0)),
        "drafted" => drafted(alloc, row.text, row.word(0), row.word(1)),
        _ => return false,
    };
    push_edited(edited, out);
    true
}
