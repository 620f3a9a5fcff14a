//! The command `explain`.
ghost use Rattle.std.specs.Prelude.{◌≡◌, option_map};
ghost use Rattle.toml_span_commands.specs.Explain as spec;

use crate::answers::{Answer, helped, misuse, printed, warned};
use crate::commands::Command;
use crate::say::{quoted_word, similar_line};
use crate::schema_pages::{SCHEMA_PAGES, schema_page};
use crate::words::is_help;
use std::alloc::{AllocError, Global};
use toml_span_report::{CODES, explain as page_of_error};

/// The codes of `check` and `get` that are neither in `CODES` nor in `SCHEMA_PAGES`.
const OWN_CODES: [&str; 4] = ["too-many-errors", "not-utf-8", "too-long", "nothing-there"];

/// The explanation of `too-many-errors`.
const TOO_MANY_ERRORS: &str = "\
more errors than are reported

At most 100 errors of a file are reported, and fewer if it is larger than
1.28 MiB. Correct some of them and check again.";

/// The explanation of `not-utf-8`.
const NOT_UTF_8: &str = "\
a file that is not valid UTF-8

TOML files are UTF-8. This one has another encoding, such as Latin-1 or UTF-16,
or it is not a text file.

    iconv -f LATIN1 -t UTF-8 old.toml >new.toml";

/// The explanation of `too-long`.
const TOO_LONG: &str = "\
a file that is larger than 16 MiB

The program reads TOML files of at most 16 MiB. Split the file.";

/// The explanation of `nothing-there`.
const NOTHING_THERE: &str = "\
no value at the given path

The file is valid, but has no value at the path of `toml-span get`.

    toml-span get Cargo.toml /package/name
    toml-span get Cargo.toml /package/keywords/0
    toml-span get Cargo.toml ''                     # the whole document";

/// Returns the explanation of a code, or `None` for an unknown code.
#[tactic(auto, unfolding(crate::specs::Explain::page_of))]
fn page_of(code: &str) -> Option<&'static str>
    ensures { option_map (λ page. page.now) result ≡ spec.page_of code.now }
{
    match code {
        "too-many-errors" => Some(TOO_MANY_ERRORS),
        "not-utf-8" => Some(NOT_UTF_8),
        "too-long" => Some(TOO_LONG),
        "nothing-there" => Some(NOTHING_THERE),
        _ => match schema_page(code) {
            Some(page) => Some(page),
            None => page_of_error(code),
        },
    }
}

/// Returns all codes.
fn all_codes(alloc: Global) -> Result<Vec<&'static str>, AllocError> {
    let mut codes = Vec::from_slice(alloc, &CODES)?;
    codes.extend_from_slice(&OWN_CODES)?;
    for page in &SCHEMA_PAGES {
        codes.push(page.0)?;
    }
    Ok(codes)
}

/// Returns a line for each code: the code, and the first line of its explanation.
fn titles(alloc: Global) -> Result<String, AllocError> {
    let mut out = String::new(alloc);
    for code in &all_codes(alloc)? {
        out.push_str(*code)?;
        for _ in code.len()..31 {
            out.push(' ')?;
        }
        let page = page_of(*code).unwrap_or("");
        out.push_str(page.split_once('\n').map_or(page, |parts| parts.0))?;
        out.push('\n')?;
    }
    Ok(out)
}

/// Returns the answer that a code is not known, with the most similar code, if one is similar.
fn unknown(alloc: Global, code: &str) -> Result<Answer, AllocError> {
    let shown = quoted_word(alloc, code)?;
    let similar = similar_line(alloc, "code", code, all_codes(alloc)?.as_slice())?;
    let text = format!(in alloc;
        "error: no such code: {shown}\n{similar}help: `toml-span explain` lists the codes\n"
    )?;
    Ok(warned(alloc, text, 2))
}

/// Carries out `explain`: returns the answer with the explanation of a code, with all codes and the first lines of
/// their explanations, with the help, or that the arguments are wrong.
pub(crate) fn explain(alloc: Global, arguments: &[String]) -> Result<Answer, AllocError> {
    match arguments {
        [] => Ok(printed(alloc, titles(alloc)?)),
        [word] if is_help(word.as_str()) => helped(alloc, Command::Explain),
        [code] => match page_of(code.as_str()) {
            Some(page) => Ok(printed(alloc, format!(in alloc; "{code}: {page}\n")?)),
            None => unknown(alloc, code.as_str()),
        },
        _ => misuse(alloc, Command::Explain, "`explain` takes one code"),
    }
}
