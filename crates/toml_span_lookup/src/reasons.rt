//! Says why schemas and catalogs can't be used.
ghost use Rattle.std.specs.Prelude.{◌≡◌, ◌++◌, OnOk, string_bytes};
ghost use Rattle.toml_span_lookup.specs.Findings as spec;

use crate::addresses::{is_remote, without_fragment};
use crate::options::Place;
use std::alloc::{AllocError, Global};
use std::fmt::Write;
use toml_span_report::line_column;
use toml_span_report::visible::push_visible;
use toml_span_schema::Flaw;

/// Adds an error line about the file at `path`, which may be a URL, to `complaint`. `what` names the failed action,
/// such as `read the catalog`, and `reason` says why it failed.
#[tactic(auto, unfolding(crate::specs::Findings::complaint))]
pub(crate) fn complain(
    complaint: &mut String,
    what: &str,
    path: &str,
    reason: &str,
) -> Result<(), AllocError>
    ensures { OnOk result (string_bytes complaint.new
        ≡ string_bytes complaint.old ++ spec.complaint what.now path.now reason.now) }
{
    complaint.push_str("error: cannot ")?;
    complaint.push_str(what)?;
    complaint.push_str(" `")?;
    push_visible(complaint, path)?;
    complaint.push_str("`: ")?;
    push_visible(complaint, reason)?;
    complaint.push_str("\n")
}

/// Returns the help that says how to name a local copy of the schema at `url`.
pub(crate) fn copy_help(alloc: Global, place: Place, url: &str) -> Result<String, AllocError> {
    match place {
        Place::Arguments => format!(in alloc; "name a local copy: `--schema-map {url}=FILE`"),
        Place::Settings => {
            format!(in alloc;
                "name a local copy in the settings: `\"schemaMap\": {{\"{url}\": \"FILE\"}}`"
            )
        }
    }
}

/// Returns the message that nothing is fetched, and how to name a local copy of the schemas at `urls`.
pub(crate) fn remote_message(
    alloc: Global,
    place: Place,
    urls: &[&str],
) -> Result<String, AllocError> {
    let is_one = urls.len() == 1;
    let copies = if is_one {
        "a local copy"
    } else {
        "local copies"
    };
    let mut out = format!(in alloc; "nothing is fetched; name {copies} with `")?;
    if place == Place::Settings {
        out.push_str("\"schemaMap\": {")?;
    }
    for (i, url) in urls.iter().enumerate() {
        let url = *url;
        match place {
            Place::Arguments => {
                let space = if i > 0 { " " } else { "" };
                write!(&mut out, "{space}--schema-map {url}=FILE")?;
            }
            Place::Settings => {
                let comma = if i > 0 { ", " } else { "" };
                write!(&mut out, "{comma}\"{url}\": \"FILE\"")?;
            }
        }
    }
    out.push_str(if place == Place::Settings { "}`" } else { "`" })?;
    Ok(out)
}

/// Returns the message that says which documents on servers `flaws` report as missing (see `remote_message`), or `None`
/// if they report none.
pub(crate) fn remote_reason(
    alloc: Global,
    place: Place,
    flaws: &[Flaw],
) -> Result<Option<String>, AllocError> {
    let mut urls: Vec<&str> = Vec::new(alloc);
    for flaw in flaws {
        let url = without_fragment(flaw.missing.as_str());
        if is_remote(url) && !urls.contains(&url) {
            urls.push(url)?;
        }
    }
    if urls.is_empty() {
        return Ok(None);
    }
    Ok(Some(remote_message(alloc, place, urls.as_slice())?))
}

/// Returns the message on a flaw in `text`, at the byte offset `at`, with its line, column and JSON pointer.
pub(crate) fn flaw_reason(
    alloc: Global,
    text: &str,
    at: usize,
    flaw: &Flaw,
) -> Result<String, AllocError> {
    let (line, column) = line_column(text, at);
    let pointer = if flaw.place.is_empty() {
        "the root"
    } else {
        flaw.place.as_str()
    };
    let message = flaw.message.as_str();
    format!(in alloc; "line {line}, column {column}, {pointer}: {message}")
}
