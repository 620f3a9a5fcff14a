//! Looks up the schemas of files, as the options about schemas and configuration files say.
ghost use Rattle.std.specs.Prelude.{◌≡◌, ◌<◌, ◌++◌, IfOk, IsSomeAnd, IsTrue, OnOk, length, map, slice_get};
ghost use Rattle.std.specs.Prelude.{string_bytes};
ghost use Rattle.toml_span_commands.specs.Configured as spec;
ghost use Rattle.toml_span_commands.specs.Configured.{configured_says};
ghost use Rattle.toml_span_lookup.specs.Findings.{file_says};
ghost use Rattle.toml_span_report.specs.Report.{report_content};
ghost use Rattle.toml_span_tree.specs.Value.{view};

use crate::configured::Configured;
use std::alloc::{AllocError, Global};
use toml_span::Value;
use toml_span_check::input::Host;
use toml_span_check::newer::{Version, version_reports};
use toml_span_check::schemas::{Chooser, SchemaReports, Schemas};
use toml_span_config::sources::Sources;
use toml_span_lookup::directive::directive_of;
use toml_span_lookup::lookup::Lookup;
use toml_span_lookup::options::{LocalCopy, Options, Place};
use toml_span_report::{Report, Severity};

/// The arguments about schemas.
#[derive(Drop)]
pub(crate) struct SchemaOptions<'w> {
    /// The path or URL of the schema for all files, or an empty text.
    pub(crate) schema: &'w str,
    /// The path of a catalog, or an empty text.
    pub(crate) catalog: &'w str,
    /// The local copies of schemas, each as `URL=FILE`.
    pub(crate) maps: Vec<&'w str>,
    /// Whether to check the keyword `format`.
    pub(crate) has_formats: bool,
}

/// Returns the local copies that values of `--schema-map` name. Leaves out values without `=`.
fn copies_of(alloc: Global, maps: &[&str]) -> Result<Vec<LocalCopy>, AllocError> {
    let mut copies = Vec::new(alloc);
    for map in maps {
        if let Some((address, path)) = map.rsplit_once('=') {
            copies.push(copy_of(alloc, address, path)?)?;
        }
    }
    Ok(copies)
}

impl SchemaOptions<'_> {
    /// Converts the options for `Lookup`. Leaves out values of `maps` without `=`.
    pub(crate) fn options(&self, alloc: Global) -> Result<Options, AllocError>
        ensures { IfOk result (spec.IsLookedUp self.now) }
    {
        let mut options = Options::new(alloc, Place::Arguments);
        options.schema = String::from_str(alloc, self.schema)?;
        options.catalog = String::from_str(alloc, self.catalog)?;
        options.has_formats = self.has_formats;
        options.copies = copies_of(alloc, self.maps.as_slice())?;
        Ok(options)
    }
}

/// Returns the local copy at `path` of what is at `address`.
pub(crate) fn copy_of(alloc: Global, address: &str, path: &str) -> Result<LocalCopy, AllocError>
    ensures address { IfOk result (λ copy. string_bytes copy.address ≡ address.now) }
    ensures path { IfOk result (λ copy. string_bytes copy.path ≡ path.now) }
{
    Ok(LocalCopy {
        address: String::from_str(alloc, address)?,
        path: String::from_str(alloc, path)?,
    })
}

/// The schemas of files that have the same configuration file, and for which it names the same schema.
#[derive(Drop)]
struct Shared {
    /// The position in `Sources::list` of the configuration file, if there is one.
    source: Option<usize>,
    /// The path or URL of the schema, or an empty text.
    schema: String,
    lookup: Lookup,
}

/// The schema that a configuration file names for a file.
#[derive(Drop)]
struct Named {
    /// The position in `Sources::list` of the configuration file, if there is one.
    source: Option<usize>,
    /// The path or URL of the schema, or an empty text.
    schema: String,
    /// The version of TOML of the file, if its syntax is checked with the schema, otherwise TOML 1.1.
    version: Version,
    /// Whether warnings are errors.
    is_denied: bool,
}

/// A source of the schemas that are named by files, by arguments, by configuration files or by a catalog. It reads them
/// from local files.
#[derive(Drop)]
pub(crate) struct FileSchemas {
    host: Host,
    /// The options of the command line.
    options: Options,
    sources: Sources,
    /// The files, in the order in which they are checked.
    files: Vec<Configured>,
    /// The position in `files` of the file that was checked last.
    last: usize,
    /// Whether the files have several versions of TOML, so that their syntax is checked with the schema.
    are_mixed: bool,
    shared: Vec<Shared>,
}

/// Returns what the settings of a file say, and the schema that it has. `are_mixed` says whether the files have several
/// versions of TOML.
fn named_by(file: &Configured, schema: String, are_mixed: bool) -> Named
    ensures { result ≡ spec.named_by file.now schema are_mixed }
{
    let settings = &file.found.settings;
    Named {
        source: file.found.source,
        schema,
        version: if are_mixed {
            settings.toml.value
        } else {
            Version::Toml11
        },
        is_denied: settings.deny_warnings.value,
    }
}

/// Returns whether two files have the same configuration file, by its position, or both none.
fn is_same(one: Option<usize>, other: Option<usize>) -> bool
    ensures { IsTrue result → one ≡ other }
{
    match (one, other) {
        (Some(one), Some(other)) => one == other,
        (None, None) => true,
        _ => false,
    }
}

/// Returns whether the schemas are those for files with this configuration file and this schema.
fn is_shared(shared: &Shared, named: &Named) -> bool
    ensures { IsTrue result → spec.IsShared named.now shared.now }
{
    is_same(shared.source, named.source) && shared.schema.as_str() == named.schema.as_str()
}

impl FileSchemas {
    /// Returns a source of the schemas of `files`, which are named by files, by `options`, by the configuration files
    /// in `sources` or by the catalog in `options`. `are_mixed` says whether the files have several versions of TOML.
    /// Reads nothing yet.
    pub(crate) fn new(
        alloc: Global,
        host: Host,
        options: &SchemaOptions<'_>,
        sources: Sources,
        files: Vec<Configured>,
        are_mixed: bool,
    ) -> Result<FileSchemas, AllocError> {
        Ok(FileSchemas {
            host,
            options: options.options(alloc)?,
            sources,
            files,
            last: 0,
            are_mixed,
            shared: Vec::new(alloc),
        })
    }

    /// Returns the position in `files` of the file that reports call `name`, at `last` or after it, if there is one.
    fn position_of(&self, name: &str) -> Option<usize> {
        for at in self.last..self.files.len() {
            if self
                .files
                .get(at)
                .map_or(false, |file| file.shown.as_str() == name)
            {
                return Some(at);
            }
        }
        None
    }

    /// Returns what the configuration says of the file that reports call `name`, and whose content is `text`. The
    /// option `--schema`, and a directive in the file, come before a schema that the configuration names.
    fn named(&mut self, alloc: Global, name: &str, text: &str) -> Result<Named, AllocError>
        ensures keeps { self.new ≡ record self.old { last = self.new.last } }
        ensures named { IfOk result
            (spec.IsNamed (slice_get self.new.files.items self.new.last) self.new.are_mixed) }
    {
        self.last = self.position_of(name).unwrap_or(self.last);
        let Some(file) = self.files.get(self.last) else {
            return Ok(Named {
                source: None,
                schema: self.options.schema.clone()?,
                version: Version::Toml11,
                is_denied: false,
            });
        };
        let schema = if !self.options.schema.is_empty() {
            Some(self.options.schema.clone()?)
        } else if directive_of(text).is_some() {
            None
        } else {
            self.sources.schema_of(alloc, &file.found)?
        };
        Ok(named_by(file, schema.unwrap_or(String::new(alloc)), self.are_mixed))
    }

    /// Appends the local copies that a configuration file names, if the schema for a file is from one.
    fn push_copies(
        &self,
        alloc: Global,
        named: &Named,
        copies: &mut Vec<LocalCopy>,
    ) -> Result<(), AllocError> {
        let Some(source) = self.sources.source_at(named.source) else {
            return Ok(());
        };
        for copy in &source.config.copies {
            let path = source.shown_path(alloc, copy.path.as_str())?;
            copies.push(copy_of(alloc, copy.address.as_str(), path.as_str())?)?;
        }
        Ok(())
    }

    /// Returns the options of the command line with the schema and the local copies that a configuration file names.
    fn options_of(&self, alloc: Global, named: &Named) -> Result<Options, AllocError>
        ensures { IfOk result (λ options. string_bytes options.schema ≡ string_bytes named.now.schema) }
    {
        let mut options = self.options.clone()?;
        options.schema = named.schema.clone()?;
        self.push_copies(alloc, named, &mut options.copies)?;
        Ok(options)
    }

    /// Returns the position in `shared` of the schemas for a file, and appends them if they are not there.
    fn shared_at(&mut self, alloc: Global, named: &Named) -> Result<usize, AllocError>
        ensures within { IfOk result (λ at. at < length self.new.shared.items) }
        ensures same { IfOk result (λ at. IsSomeAnd (slice_get self.new.shared.items at) (spec.IsShared named.now)) }
    {
        for at in 0..self.shared.len() {
            if let Some(shared) = self.shared.get(at) {
                if is_shared(shared, named) {
                    return Ok(at);
                }
            }
        }
        let at = self.shared.len();
        let options = self.options_of(alloc, named)?;
        self.shared.push(Shared {
            source: named.source,
            schema: named.schema.clone()?,
            lookup: Lookup::new(alloc, options),
        })?;
        Ok(at)
    }

    /// Checks a document as `Lookup::check_reading` does, by the schemas for a file.
    fn check_shared(
        &mut self,
        alloc: Global,
        named: &Named,
        chooser: Chooser,
        name: &str,
        text: &str,
        root: &Value<'_>,
    ) -> Result<SchemaReports, AllocError>
        ensures { IfOk result (λ made. file_says chooser name.now text.now (view root.now)
            (map report_content made.reports.items) (string_bytes made.complaint)) }
    {
        let at = self.shared_at(alloc, named)?;
        let shared = &mut self.shared.as_mut_slice()[at];
        let host = &mut self.host;
        shared
            .lookup
            .check_reading(alloc, host, chooser, name, text, root)
    }
}

/// Returns a report, as an error if it is a warning and `is_denied`.
fn denied(mut report: Report, is_denied: bool) -> Report
    ensures { report_content result ≡ spec.denied is_denied (report_content report) }
{
    if is_denied && report.severity == Severity::Warning {
        report.severity = Severity::Error;
    }
    report
}

/// Appends reports, with warnings as errors if `is_denied`.
fn push_denied(
    reports: &mut Vec<Report>,
    found: Vec<Report>,
    is_denied: bool,
) -> Result<(), AllocError>
    ensures { OnOk result (map report_content reports.new.items ≡ map report_content reports.old.items
        ++ map (spec.denied is_denied) (map report_content found.items)) }
{
    for report in found {
        reports.push(denied(report, is_denied))?;
    }
    Ok(())
}

impl Schemas for FileSchemas {
    ghost says = { configured_says };

    fn check(
        &mut self,
        alloc: Global,
        chooser: Chooser,
        name: &str,
        text: &str,
        root: &Value<'_>,
    ) -> Result<SchemaReports, AllocError> {
        let named = self.named(alloc, name, text)?;
        let made = self.check_shared(alloc, &named, chooser, name, text, root)?;
        let mut reports = version_reports(alloc, text, named.version, name)?;
        push_denied(&mut reports, made.reports, named.is_denied)?;
        Ok(SchemaReports {
            reports,
            complaint: made.complaint,
        })
    }
}
