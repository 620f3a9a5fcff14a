//! A lint for the manifests of packages, with ten rules.
use std::alloc::{AllocError, Global};
use std::collections::BTreeMap;
use toml_span::value::{Key, Table};
use toml_span::{DeserError, Span, Stop, Value, parse};
use toml_span_check::lints::{github_line, sarif_document, sarif_result};
use toml_span_mistakes::reports_of;
use toml_span_report::Severity::{Error, Warning};
use toml_span_report::{Report, Severity, Style, nearest, render_all};

/// The name of the file, for reports.
const NAME: &str = "Cargo.toml";

/// The tables that a manifest may have.
static TABLES: [&str; 4] = ["package", "dependencies", "features", "profile"];

/// A violation of a rule.
#[derive(Clone, Copy)]
struct Finding {
    severity: Severity,
    code: &'static str,
    message: &'static str,
    /// The span to mark, and its label.
    place: (Span, &'static str),
    /// Another span to mark, and its label.
    other: Option<(Span, &'static str)>,
    help: Option<&'static str>,
    /// The name that was probably meant.
    meant: Option<&'static str>,
}

/// Returns a finding that marks one place.
fn new_finding(
    severity: Severity,
    code: &'static str,
    message: &'static str,
    place: (Span, &'static str),
) -> Finding {
    Finding {
        severity,
        code,
        message,
        place,
        other: None,
        help: None,
        meant: None,
    }
}

/// Returns a finding if a key at the root is not in `TABLES`, otherwise `None`.
fn unknown_table(alloc: Global, key: &Key) -> Result<Option<Finding>, AllocError> {
    if TABLES.contains(&key.name.as_str()) {
        return Ok(None);
    }
    let message = "a manifest has no such table";
    let meant = nearest(alloc, key.name.as_str(), &TABLES)?;
    let found = new_finding(Error, "unknown-table", message, (key.span, ""));
    Ok(Some(Finding { meant, ..found }))
}

/// Returns the findings for `package`, the value of `key`: for each rule a finding, or `None` if the rule is not
/// violated.
fn package(key: &Key, package: &Value) -> [Option<Finding>; 5] {
    let mut found = [None; 5];
    if !package.has_key("version") {
        let message = "the package has no version";
        found[0] = Some(Finding {
            help: Some("add `version = \"0.1.0\"`"),
            ..new_finding(Error, "no-version", message, (key.span, ""))
        });
    }
    match package.pointer("/name") {
        Some(name) if !is_kebab(name) => {
            let message = "the name is not in kebab case";
            let place = (name.span, "use only lower-case letters, digits and `-`");
            found[1] = Some(new_finding(Warning, "name-case", message, place));
        }
        _ => {}
    }
    match package.pointer("/edition") {
        Some(year) if !is_edition(year) => {
            let message = "there is no such edition";
            let place = (year.span, "2015, 2018, 2021 or 2024");
            found[2] = Some(new_finding(Error, "unknown-edition", message, place));
        }
        _ => {}
    }
    match package.pointer("/description") {
        Some(text) if text.as_str() == Some("") => {
            let message = "the description is empty";
            found[3] = Some(new_finding(Warning, "no-description", message, (text.span, "")));
        }
        _ => {}
    }
    let file = package.pointer("/license-file");
    if let (Some(name), Some(file)) = (package.pointer("/license"), file) {
        let message = "the license has a name and a file";
        found[4] = Some(Finding {
            other: Some((name.span, "the name")),
            ..new_finding(Error, "two-licenses", message, (file.span, "the file"))
        });
    }
    found
}

/// Returns whether a value is a string that has only lower-case ASCII letters, digits and `-`, or is empty.
fn is_kebab(name: &Value) -> bool {
    let Some(name) = name.as_str() else {
        return false;
    };
    for byte in name.bytes() {
        if !matches!(byte, b'a'..=b'z' | b'0'..=b'9' | b'-') {
            return false;
        }
    }
    true
}

/// Returns whether a value is a string that names an edition of Rust.
fn is_edition(edition: &Value) -> bool {
    matches!(edition.as_str(), Some("2015" | "2018" | "2021" | "2024"))
}

/// Returns the findings for the dependency `value`: for each rule a finding, or `None` if the rule is not violated.
fn dependency(value: &Value) -> [Option<Finding>; 2] {
    let mut found = [None; 2];
    let version = value.pointer("/version").unwrap_or(value);
    if version.as_str() == Some("*") {
        let message = "any version is accepted";
        found[0] = Some(Finding {
            help: Some("write the oldest version that works, such as `1.2`"),
            ..new_finding(Warning, "any-version", message, (version.span, ""))
        });
    }
    match value.pointer("/path") {
        Some(path) if !value.has_key("version") => {
            let message = "the dependency has a path but no version";
            found[1] = Some(Finding {
                help: Some("add a `version`"),
                ..new_finding(Error, "path-alone", message, (path.span, ""))
            });
        }
        _ => {}
    }
    found
}

/// Appends to `list` the findings that are not `None`. If an allocation fails, `list` may have some of them.
fn push_all(found: &[Option<Finding>], list: &mut Vec<Finding>) -> Result<(), AllocError> {
    for one in found {
        if let Some(finding) = one {
            list.push(*finding)?;
        }
    }
    Ok(())
}

/// Checks the keywords of a package, if they are an array, and appends the findings to `list`. If an allocation fails,
/// `list` may have some of them.
fn keywords(alloc: Global, package: &Value, list: &mut Vec<Finding>) -> Result<(), AllocError> {
    let Some(found) = package.pointer("/keywords") else {
        return Ok(());
    };
    let Some(words) = found.as_array() else {
        return Ok(());
    };
    if let Some(sixth) = words.get(5) {
        let message = "there are more than five keywords";
        let place = (sixth.span, "the sixth");
        list.push(new_finding(Warning, "many-keywords", message, place))?;
    }
    let mut seen = BTreeMap::new(alloc);
    for word in words {
        let Some(text) = word.as_str() else {
            continue;
        };
        if let Some(before) = seen.insert(text, word.span)? {
            let message = "a keyword occurs twice";
            list.push(Finding {
                other: Some((before, "also here")),
                ..new_finding(Warning, "keyword-twice", message, (word.span, ""))
            })?;
        }
    }
    Ok(())
}

/// Checks a manifest, and appends the findings to `list`. If an allocation fails, `list` may have some of them.
fn lint(alloc: Global, root: &Table, list: &mut Vec<Finding>) -> Result<(), AllocError> {
    for (key, value) in root.iter() {
        push_all(&[unknown_table(alloc, key)?], list)?;
        match (key.name.as_str(), value.as_table()) {
            ("package", _) => {
                push_all(&package(key, value), list)?;
                keywords(alloc, value, list)?;
            }
            ("dependencies", Some(table)) => {
                for value in table.values() {
                    push_all(&dependency(value), list)?;
                }
            }
            _ => {}
        }
    }
    Ok(())
}

/// Returns the report of a finding.
fn report_of(alloc: Global, found: Finding) -> Result<Report, AllocError> {
    let (span, label) = found.place;
    let bare = Report::new(alloc, found.severity, found.code, found.message)?;
    let mut report = bare.primary(span, label)?;
    if let Some((span, label)) = found.other {
        report = report.secondary(span, label)?;
    }
    if let Some(text) = found.help {
        report = report.help(text)?;
    }
    if let Some(meant) = found.meant {
        report = report.help(format!(in alloc; "did you mean `{meant}`?")?.as_str())?;
    }
    Ok(report)
}

/// Returns the reports of all findings in a manifest.
fn lint_reports(alloc: Global, root: &Value) -> Result<Vec<Report>, AllocError> {
    let mut list = Vec::new(alloc);
    if let Some(root) = root.as_table() {
        lint(alloc, root, &mut list)?;
    }
    let mut reports = Vec::new(alloc);
    for found in &list {
        reports.push(report_of(alloc, *found)?)?;
    }
    Ok(reports)
}

/// Returns the reports for a text: the report of its error or, if it is valid TOML, the reports of all findings.
fn text_reports(alloc: Global, text: &str) -> Result<Vec<Report>, AllocError> {
    match parse(alloc, text) {
        Ok(root) => lint_reports(alloc, &root),
        Err(stop) => {
            let read: Result<(), Stop<DeserError<'_>>> = Err(stop.convert());
            reports_of(alloc, &read, &[], text)
        }
    }
}

/// Returns the reports as commands for GitHub workflows.
fn github(alloc: Global, reports: &[Report], text: &str) -> Result<String, AllocError> {
    let mut out = String::new(alloc);
    for report in reports {
        out.push_str(github_line(alloc, report, NAME, text)?.as_str())?;
    }
    Ok(out)
}

/// Returns the reports as a SARIF document.
fn sarif(alloc: Global, reports: &[Report], text: &str) -> Result<String, AllocError> {
    let mut results = String::new(alloc);
    for report in reports {
        results.push_str(sarif_result(alloc, report, NAME, text)?.as_str())?;
    }
    sarif_document(alloc, "manifest-lint", results.as_str())
}

/// Returns the reports on the manifest `text`, in the given format, and whether nothing is reported. `format` is
/// `github` or `sarif`; any other means plain text.
pub fn shown(alloc: Global, text: &str, format: &str) -> Result<(String, bool), AllocError> {
    let reports = text_reports(alloc, text)?;
    let reports = reports.as_slice();
    let shown = match format {
        "github" => github(alloc, reports, text)?,
        "sarif" => sarif(alloc, reports, text)?,
        _ => render_all(alloc, Style::Plain, reports, NAME, text)?,
    };
    Ok((shown, reports.is_empty()))
}
