//! Configurations, and the settings that they have for a file.
ghost use Rattle.std.specs.Prelude.{◌≡◌, ◌<◌, ◌==◌, ◌&&◌, IfOk, length, map, slice_index, take, Some, true};
ghost use Rattle.std.specs.Prelude.{string_bytes};
ghost use Rattle.toml_span_check.specs.Patterns.{pattern};
ghost use Rattle.toml_span_config.specs.Config as spec;
ghost use Rattle.toml_span_config.specs.Tables as tables;

use crate::document::{CheckTable, Document, FilesTable, FmtTable, Glob};
use crate::layers::{Chosen, Layer, Origin, Settings, of_field};
use std::alloc::{AllocError, Global};
use std::collections::BTreeMap;
use toml_span::{DeserError, Spanned, Stop, from_str};
use toml_span_check::every::check;
use toml_span_check::patterns::{Pattern, last_match};
use toml_span_mistakes::reports_of;
use toml_span_report::Report;

/// An entry of the array `files`: settings for the files that its patterns select.
#[derive(Drop)]
pub struct Entry {
    patterns: Vec<Pattern>,
    layer: Layer,
    /// The path or URL of the schema, as it is written. Empty if the entry names no schema.
    pub schema: String,
}

/// A local copy of a schema, or of the schemas below an address.
#[derive(Drop)]
pub struct LocalCopy {
    /// The URL.
    pub address: String,
    /// The path of the copy, as it is written.
    pub path: String,
}

/// A configuration.
#[derive(Drop)]
pub struct Config {
    excludes: Vec<Pattern>,
    general: Layer,
    /// The entries of the array `files`.
    pub files: Vec<Entry>,
    /// The entries of the table `schema-map`.
    pub copies: Vec<LocalCopy>,
}

/// Returns the patterns of the globs, if they are there.
fn patterns_of(alloc: Global, globs: Option<Vec<Glob>>) -> Result<Vec<Pattern>, AllocError>
    ensures { IfOk result (λ patterns. map pattern patterns.items ≡ tables.patterns globs) }
{
    let mut patterns = Vec::new(alloc);
    let Some(globs) = globs else {
        return Ok(patterns);
    };
    for glob in globs {
        patterns.push(glob.pattern)?;
    }
    Ok(patterns)
}

/// Returns `lower` with the settings of a table `check`, which hold where both set one.
fn with_check(lower: Layer, table: &Option<CheckTable>) -> Layer
    ensures { result ≡ tables.with_check lower table.now }
{
    let Some(table) = table else {
        return lower;
    };
    let toml = match &table.toml {
        Some(name) => Some(Chosen {
            value: name.value.version,
            origin: Origin::File(name.span),
        }),
        None => None,
    };
    lower.under(Layer {
        toml,
        deny_warnings: of_field(&table.deny_warnings),
        ..Layer::empty()
    })
}

/// Returns `lower` with the settings of a table `fmt`, which hold where both set one.
fn with_fmt(lower: Layer, table: &Option<FmtTable>) -> Layer
    ensures { result ≡ tables.with_fmt lower table.now }
{
    let Some(table) = table else {
        return lower;
    };
    lower.under(Layer {
        width: of_field(&table.width),
        indent: of_field(&table.indent),
        sort_keys: of_field(&table.sort_keys),
        trailing_comma: of_field(&table.trailing_comma),
        expand_arrays: of_field(&table.expand_arrays),
        align_comments: of_field(&table.align_comments),
        blank_lines: of_field(&table.blank_lines),
        crlf: of_field(&table.crlf),
        ..Layer::empty()
    })
}

/// Returns the layer that names the schema of the entry at the position `at`, or sets nothing if the entry names none.
fn schema_layer(schema: &Option<Spanned<String>>, at: usize) -> Layer
    ensures { result ≡ tables.schema_layer schema.now at }
{
    match schema {
        Some(path) => Layer {
            schema: Some(Chosen {
                value: at,
                origin: Origin::File(path.span),
            }),
            ..Layer::empty()
        },
        None => Layer::empty(),
    }
}

/// Returns the entry at the position `at`.
fn entry_of(alloc: Global, table: FilesTable, at: usize) -> Result<Entry, AllocError>
    ensures content { IfOk result (λ entry. spec.entry entry ≡ tables.entry_content table at) }
    ensures schema { IfOk result (λ entry. string_bytes entry.schema ≡ tables.schema_text table.schema) }
{
    let FilesTable {
        globs,
        schema,
        check,
        fmt,
    } = table;
    let layer = with_fmt(with_check(schema_layer(&schema, at), &check), &fmt);
    let schema = match schema {
        Some(path) => path.value,
        None => String::new(alloc),
    };
    Ok(Entry {
        patterns: patterns_of(alloc, Some(globs))?,
        layer,
        schema,
    })
}

/// Returns the entries of the array `files`, if it is there.
fn entries_of(alloc: Global, files: Option<Vec<FilesTable>>) -> Result<Vec<Entry>, AllocError>
    ensures { IfOk result (λ entries. map spec.entry entries.items ≡ tables.entries files) }
{
    let mut entries = Vec::new(alloc);
    let Some(files) = files else {
        return Ok(entries);
    };
    for table in files {
        let at = entries.len();
        entries.push(entry_of(alloc, table, at)?)?;
    }
    Ok(entries)
}

/// Returns the entries of the table `schema-map`, if it is there.
fn copies_of(
    alloc: Global,
    map: Option<BTreeMap<String, String>>,
) -> Result<Vec<LocalCopy>, AllocError> {
    let mut copies = Vec::new(alloc);
    let Some(map) = map else {
        return Ok(copies);
    };
    for (address, path) in map {
        copies.push(LocalCopy { address, path })?;
    }
    Ok(copies)
}

/// Returns the configuration of a file that has been read.
fn config_of(alloc: Global, document: Document) -> Result<Config, AllocError>
    ensures { IfOk result (λ config. spec.config config ≡ tables.config_content document) }
{
    let Document {
        exclude,
        check,
        fmt,
        files,
        schema_map,
    } = document;
    Ok(Config {
        excludes: patterns_of(alloc, exclude)?,
        general: with_fmt(with_check(Layer::empty(), &check), &fmt),
        files: entries_of(alloc, files)?,
        copies: copies_of(alloc, schema_map)?,
    })
}

/// Returns `lower` with the settings of an entry, which hold where both set one, if the patterns of the entry select
/// the file at `path`. Fails if an allocation fails.
fn with_entry(alloc: Global, lower: Layer, entry: &Entry, path: &str) -> Result<Layer, AllocError>
    ensures { IfOk result (λ layer. layer ≡ spec.with_entry path.now lower (spec.entry entry.now)) }
{
    match last_match(alloc, entry.patterns.as_slice(), path, false)? {
        Some(true) => Ok(lower.under(entry.layer)),
        Some(false) | None => Ok(lower),
    }
}

/// Returns `lower` with the settings of each entry whose patterns select the file at `path`. The last of these entries
/// that sets a setting decides. Fails if an allocation fails.
fn with_entries(
    alloc: Global,
    lower: Layer,
    entries: &[Entry],
    path: &str,
) -> Result<Layer, AllocError>
    ensures { IfOk result (λ layer. layer ≡ spec.with_entries path.now lower (map spec.entry entries.now)) }
{
    let mut layer = lower;
    for entry in entries {
        layer = with_entry(alloc, layer, entry, path)?;
    }
    Ok(layer)
}

/// Returns whether the byte of `path` at the offset `end` is a slash, and the patterns select the directory before it.
/// Fails if an allocation fails.
fn selects_above(
    alloc: Global,
    patterns: &[Pattern],
    path: &str,
    end: usize,
) -> Result<bool, AllocError>
    requires { end < length path.now }
    ensures { IfOk result (λ found. found
        ≡ (slice_index path.now end == 47 && spec.selects_folder (map pattern patterns.now) (take end path.now))) }
{
    if path.as_bytes()[end] != b'/' {
        return Ok(false);
    }
    let found = last_match(alloc, patterns, &path[..end], true)?;
    Ok(found.unwrap_or(false))
}

impl Config {
    /// Returns a configuration that sets nothing.
    pub fn empty(alloc: Global) -> Config
        ensures { spec.config result ≡ spec.no_config }
    {
        Config {
            excludes: Vec::new(alloc),
            general: Layer::empty(),
            files: Vec::new(alloc),
            copies: Vec::new(alloc),
        }
    }

    /// Reads a configuration. Fails with the reports of all errors if the text is not valid TOML, or not a
    /// configuration. If it is not valid TOML, those are the syntax errors.
    pub fn read(alloc: Global, text: &str) -> Result<Config, Stop<Vec<Report>>> {
        match from_str::<Document>(alloc, text) {
            Ok(document) => Ok(config_of(alloc, document)?),
            Err(stop) => {
                let reports = check(alloc, text)?;
                if !reports.is_empty() {
                    return Err(Stop::Fault(reports));
                }
                let read: Result<(), Stop<DeserError<'_>>> = Err(stop);
                Err(Stop::Fault(reports_of(alloc, &read, &[], text)?))
            }
        }
    }

    /// Returns the settings that hold for the file at `path`, which is relative to the directory of the configuration.
    ///
    /// A setting of the command line, `arguments`, comes first. Then comes the last entry of `files` that sets it and
    /// whose patterns select the file, then the tables `check` and `fmt`, and then the default. Fails if an allocation
    /// fails.
    pub fn settings_for(
        &self,
        alloc: Global,
        arguments: Layer,
        path: &str,
    ) -> Result<Settings, AllocError>
        ensures { IfOk result (λ settings. settings ≡ spec.settings_for (spec.config self.now) arguments path.now) }
    {
        let layer = with_entries(alloc, self.general, self.files.as_slice(), path)?;
        Ok(layer.under(arguments).settled())
    }

    /// Returns the settings that hold for files that no entry of `files` selects.
    pub fn general_settings(&self, arguments: Layer) -> Settings
        ensures { result ≡ spec.general_settings (spec.config self.now) arguments }
    {
        self.general.under(arguments).settled()
    }

    /// Returns whether the patterns of `exclude` select the file at `path`, or a directory that contains it. `path` is
    /// relative to the directory of the configuration. Fails if an allocation fails.
    pub fn excludes(&self, alloc: Global, path: &str) -> Result<bool, AllocError>
        ensures { IfOk result (λ found. found ≡ spec.excludes (spec.config self.now) path.now) }
    {
        let patterns = self.excludes.as_slice();
        for at in 0..path.len() {
            if selects_above(alloc, patterns, path, at)? {
                return Ok(true);
            }
        }
        Ok(last_match(alloc, patterns, path, false)?.unwrap_or(false))
    }
}
