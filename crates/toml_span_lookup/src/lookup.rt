//! Finds the schemas of files, and checks documents against them.
ghost use Rattle.std.specs.Prelude.{◌≡◌, IfOk, OnOk, map, option_map, string_bytes};
ghost use Rattle.std.specs.Option.{is_some};
ghost use Rattle.toml_span_lookup.specs.Addresses as addresses;
ghost use Rattle.toml_span_lookup.specs.Choice as choice;
ghost use Rattle.toml_span_lookup.specs.Choice.{chosen};
ghost use Rattle.toml_span_lookup.specs.Findings as spec;
ghost use Rattle.toml_span_lookup.specs.Findings.{AddsWarnings, ReportsFor, ReportsOf, TellsNoSchema, file_says};
ghost use Rattle.toml_span_report.specs.Report.{report_content};
ghost use Rattle.toml_span_tree.specs.Value.{view};

use crate::addresses::{after, folder_of, is_remote, joined, push_decoded};
use crate::catalog::{Catalog, catalog_of, json_reason};
use crate::compiling::{Used, base_of, text_of, used_from};
use crate::directive::{Directive, directive_of, names_schema};
use crate::disk::{Disk, Stamp};
use crate::findings::{findings, not_fetched, push_warnings};
use crate::options::{LocalCopy, Options, Place};
use crate::reasons::{complain, copy_help, remote_message};
use std::alloc::{AllocError, Global};
use std::mem;
use toml_span::{Span, Value};
use toml_span_check::schemas::{Chooser, SchemaReports, Schemas};
use toml_span_report::Report;
use toml_span_schema::{CheckError, Guide};

/// The schema of a file.
#[derive(Drop)]
enum Choice {
    /// The file has no schema.
    None,
    /// The schema at this path.
    File(String),
    /// The schema with this URL, which has no local copy. The file names the URL at this span or, without a span, the
    /// catalog names it.
    Unmapped(String, Option<Span>),
    /// The schema with this URL, which the option `schema` names, and which has no local copy.
    Remote(String),
}

/// The schemas that files, options and a catalog name. Each schema is compiled once, and again if `refresh` finds that
/// its files have changed.
#[derive(Drop)]
pub struct Lookup {
    options: Options,
    catalog: Option<Catalog>,
    /// The stamp of the catalog before it was read.
    stamp: Option<Stamp>,
    /// Whether `prepare` has already read the catalog, or tried to read it.
    is_ready: bool,
    used: Vec<Used>,
    /// Error lines that have not been returned yet. They say why catalogs or schemas can't be used, or why documents
    /// can't be checked.
    complaint: String,
}

impl Lookup {
    /// Returns a `Lookup` with these options that has read nothing yet.
    pub fn new(alloc: Global, options: Options) -> Lookup {
        Lookup {
            options,
            catalog: None,
            stamp: None,
            is_ready: false,
            used: Vec::new(alloc),
            complaint: String::new(alloc),
        }
    }

    /// Returns `Arguments` if the options name a schema or a catalog, otherwise `Files`.
    #[tactic(auto, unfolding(crate::specs::Findings::chooser_of))]
    pub fn chooser(&self) -> Chooser
        ensures { result ≡ spec.chooser_of self.now }
    {
        if self.options.schema.is_empty() && self.options.catalog.is_empty() {
            Chooser::Files
        } else {
            Chooser::Arguments
        }
    }

    /// Returns the path of the schema that the file `name` names by `address` or, if the schema has a local copy, the
    /// path of the copy. Returns `None` if the schema is on a server and has no local copy. Fails if an allocation
    /// fails.
    pub fn path_for(
        &self,
        alloc: Global,
        name: &str,
        address: &str,
    ) -> Result<Option<String>, AllocError>
        ensures { IfOk result (λ path. option_map string_bytes path
            ≡ addresses.path_of self.now.options address.now (addresses.folder_of name.now)) }
    {
        self.path_of(alloc, address, folder_of(name))
    }

    /// Returns the path of the local copy of the schema at `address` or, without a local copy, of the schema itself. A
    /// relative address starts at `folder`. Returns `None` if the schema is on a server and has no local copy.
    fn path_of(
        &self,
        alloc: Global,
        address: &str,
        folder: &str,
    ) -> Result<Option<String>, AllocError>
        ensures { IfOk result (λ path. option_map string_bytes path
            ≡ addresses.path_of self.now.options address.now folder.now) }
    {
        if let Some(file) = self.options.copy_of(alloc, address)? {
            return Ok(Some(file));
        }
        if is_remote(address) {
            return Ok(None);
        }
        let mut path = String::new(alloc);
        match after("file://", address) {
            Some(part) => push_decoded(alloc, &mut path, part)?,
            None => path.push_str(address)?,
        }
        Ok(Some(joined(alloc, folder, path.as_str())?))
    }

    /// Returns the schema that the catalog has for the file `name`.
    fn choice_of_catalog(&self, alloc: Global, name: &str) -> Result<Choice, AllocError>
        ensures { IfOk result (λ made. chosen made ≡ choice.by_catalog self.now.options self.now.catalog name.now) }
    {
        let Some(catalog) = &self.catalog else {
            return Ok(Choice::None);
        };
        let Some(address) = catalog.address_for(alloc, name)? else {
            return Ok(Choice::None);
        };
        let folder = folder_of(self.options.catalog.as_str());
        match self.path_of(alloc, address.as_str(), folder)? {
            Some(path) => Ok(Choice::File(path)),
            None => Ok(Choice::Unmapped(address, None)),
        }
    }

    /// Returns the schema that a directive in the file `name` names. If that schema is on a server and has no local
    /// copy, but the catalog has a local schema for the file, returns the schema of the catalog.
    fn choice_of_directive(
        &self,
        alloc: Global,
        name: &str,
        directive: Directive<'_>,
    ) -> Result<Choice, AllocError>
        ensures { IfOk result (λ made. chosen made
            ≡ choice.by_directive self.now.options self.now.catalog name.now directive.entry.address.now
            directive.entry.span) }
    {
        let Directive { address, span } = directive;
        if let Some(path) = self.path_of(alloc, address, folder_of(name))? {
            return Ok(Choice::File(path));
        }
        match self.choice_of_catalog(alloc, name)? {
            Choice::File(path) => Ok(Choice::File(path)),
            _ => Ok(Choice::Unmapped(String::from_str(alloc, address)?, Some(span))),
        }
    }

    /// Returns the schema of the file `name`, whose content is `text`. The option `schema` decides first, then a
    /// directive in the file, then the catalog.
    fn choice(&self, alloc: Global, name: &str, text: &str) -> Result<Choice, AllocError>
        ensures { IfOk result (λ made. chosen made
            ≡ choice.choice_of self.now.options self.now.catalog name.now text.now) }
    {
        let given = self.options.schema.as_str();
        if !given.is_empty() {
            return match self.path_of(alloc, given, "")? {
                Some(path) => Ok(Choice::File(path)),
                None => Ok(Choice::Remote(String::from_str(alloc, given)?)),
            };
        }
        match directive_of(text) {
            Some(directive) => self.choice_of_directive(alloc, name, directive),
            None => self.choice_of_catalog(alloc, name),
        }
    }

    /// Returns whether the file `name`, whose content is `text`, has no schema. A catalog only counts if it has been
    /// read. Reads no files. Fails if an allocation fails.
    #[tactic(auto, unfolding(crate::specs::Findings::chooser_of))]
    pub fn has_no_schema(&self, alloc: Global, name: &str, text: &str) -> Result<bool, AllocError>
        ensures { IfOk result (TellsNoSchema self.now text.now) }
    {
        if !self.options.schema.is_empty() {
            return Ok(false);
        }
        if self.options.catalog.is_empty() {
            return Ok(!names_schema(text));
        }
        Ok(matches!(self.choice(alloc, name, text)?, Choice::None))
    }

    /// Reads the catalog that the options name, if any, unless `is_ready` is set. If the catalog can't be used, adds an
    /// error to `complaint`.
    fn prepare<D: Disk>(&mut self, alloc: Global, disk: &mut D) -> Result<(), AllocError>
        ensures { self.new.options ≡ self.old.options }
    {
        let path = self.options.catalog.as_str();
        if self.is_ready || path.is_empty() {
            return Ok(());
        }
        self.stamp = disk.stamp(path);
        let complaint = &mut self.complaint;
        if let Some(text) = text_of(alloc, disk, complaint, "read the catalog", path)? {
            self.catalog = catalog_of(alloc, text.as_str())?;
            if self.catalog.is_none() {
                let reason = json_reason(alloc, text.as_str(), "it has no array `schemas`")?;
                complain(complaint, "use the catalog", path, reason.as_str())?;
            }
        }
        self.is_ready = true;
        Ok(())
    }

    /// Returns the position in `used` of the schema at a path, or `None` if `used` does not have it.
    fn position_of(&self, path: &str) -> Option<usize>
        ensures { is_some result ≡ spec.has_path self.now.used.items path.now }
    {
        for (at, used) in self.used.as_slice().iter().enumerate() {
            if used.path.as_str() == path {
                return Some(at);
            }
        }
        None
    }

    /// Adds an error to `complaint` on the first call with this address: the schema at the URL `address`, which the
    /// option `schema` names, is not fetched.
    fn refuse_remote(&mut self, alloc: Global, address: &str) -> Result<(), AllocError> {
        if self.position_of(address).is_some() {
            return Ok(());
        }
        self.used.push(Used {
            path: String::from_str(alloc, address)?,
            guide: None,
            files: Vec::new(alloc),
            warnings: Vec::new(alloc),
            absent: Vec::new(alloc),
        })?;
        let reason = remote_message(alloc, self.options.place, &[address])?;
        complain(
            &mut self.complaint,
            "read the schema",
            address,
            reason.as_str(),
        )
    }

    /// Reads and compiles the schema of a `File`, unless it has been read. If the schema can't be used, adds an error
    /// to `complaint`. Calls `refuse_remote` for `Remote`, and does nothing for the other choices.
    fn load_choice<D: Disk>(
        &mut self,
        alloc: Global,
        disk: &mut D,
        choice: &Choice,
    ) -> Result<(), AllocError>
        ensures { OnOk result (spec.IsLoaded choice.now self.new.used.items) }
    {
        match choice {
            Choice::None | Choice::Unmapped(_, _) => Ok(()),
            Choice::Remote(address) => self.refuse_remote(alloc, address.as_str()),
            Choice::File(path) => {
                if self.position_of(path.as_str()).is_none() {
                    let complaint = &mut self.complaint;
                    let path = path.as_str();
                    let base = base_of(alloc, path, path)?;
                    self.used.push(used_from(alloc, disk, &self.options, complaint, path, base)?)?;
                }
                Ok(())
            }
        }
    }

    /// Drops the schema at a path if one of its files has changed since the file was read. `load_choice` then reads the
    /// schema again.
    fn forget_schema<D: Disk>(&mut self, disk: &mut D, path: &str) {
        let Some(at) = self.position_of(path) else {
            return;
        };
        if let Some(used) = self.used.get(at) {
            if used.is_stale(disk) {
                drop(self.used.remove(at));
            }
        }
    }

    /// Reads the catalog, and the schema of the file `name`, whose content is `text`. Does not read them again if their
    /// files have not changed. If the catalog or the schema can't be used, `take_complaint` returns the reason. Fails
    /// if an allocation fails.
    pub fn refresh<D: Disk>(
        &mut self,
        alloc: Global,
        disk: &mut D,
        name: &str,
        text: &str,
    ) -> Result<(), AllocError> {
        if self.is_ready && disk.stamp(self.options.catalog.as_str()) != self.stamp {
            self.is_ready = false;
            self.catalog = None;
        }
        self.prepare(alloc, disk)?;
        let choice = self.choice(alloc, name, text)?;
        if let Choice::File(path) = &choice {
            self.forget_schema(disk, path.as_str());
        }
        self.load_choice(alloc, disk, &choice)
    }

    /// Returns the schema at a path, or `None` if the schema has not been read or can't be used.
    fn guide_at(&self, path: &str) -> Option<&Guide>
        ensures { option_map (λ guide. guide.now) result ≡ spec.guide_at self.now.used.items path.now }
    {
        for used in self.used.as_slice() {
            if used.path.as_str() == path {
                return used.guide.as_ref();
            }
        }
        None
    }

    /// Returns the schema of the file `name`, whose content is `text`, without reading files. Returns `None` if the
    /// file has no schema, or if its schema has not been read or can't be used. Fails if an allocation fails.
    pub fn guide_of(
        &self,
        alloc: Global,
        name: &str,
        text: &str,
    ) -> Result<Option<&Guide>, AllocError>
        ensures { IfOk result (λ found. option_map (λ guide. guide.now) found
            ≡ spec.guide_of self.now name.now text.now) }
    {
        match self.choice(alloc, name, text)? {
            Choice::File(path) => Ok(self.guide_at(path.as_str())),
            _ => Ok(None),
        }
    }

    /// Returns `reports`, followed by a warning for each part of the schema at a path that is not checked. Each such
    /// warning is returned once, and not in an editor.
    fn with_notes(
        &mut self,
        alloc: Global,
        path: &str,
        mut reports: Vec<Report>,
    ) -> Result<Vec<Report>, AllocError>
        ensures { IfOk result (λ all. AddsWarnings (map report_content reports.items) (map report_content all.items)
            × (string_bytes self.new.complaint ≡ string_bytes self.old.complaint)) }
    {
        let notes = match self.position_of(path) {
            Some(at) => match self.used.get_mut(at) {
                Some(used) => mem::replace(&mut used.warnings, Vec::new(alloc)),
                None => Vec::new(alloc),
            },
            None => Vec::new(alloc),
        };
        if self.options.place == Place::Arguments {
            push_warnings(&mut reports, notes)?;
        }
        Ok(reports)
    }

    /// Checks the schema at `address`, a path or URL. Returns a warning for each part that is not checked. If the
    /// schema can't be used, `take_complaint` returns the reasons. Fails if an allocation fails.
    pub fn check_schema<D: Disk>(
        &mut self,
        alloc: Global,
        disk: &mut D,
        address: &str,
    ) -> Result<Vec<Report>, AllocError> {
        let Some(path) = self.path_of(alloc, address, "")? else {
            self.refuse_remote(alloc, address)?;
            return Ok(Vec::new(alloc));
        };
        let base = base_of(alloc, address, path.as_str())?;
        let used = used_from(
            alloc,
            disk,
            &self.options,
            &mut self.complaint,
            path.as_str(),
            base,
        )?;
        let Used { warnings, .. } = used;
        Ok(warnings)
    }

    /// Returns the documents that the schema at `address`, a URL, needs, including itself, and whose local copies do
    /// not exist. If the schema can't be used for another reason, `take_complaint` returns it. Fails if an allocation
    /// fails.
    pub fn absent_copies<D: Disk>(
        &mut self,
        alloc: Global,
        disk: &mut D,
        address: &str,
    ) -> Result<Vec<LocalCopy>, AllocError> {
        let mut copies = Vec::new(alloc);
        let Some(path) = self.path_of(alloc, address, "")? else {
            self.refuse_remote(alloc, address)?;
            return Ok(copies);
        };
        if is_remote(address) && disk.stamp(path.as_str()).is_none() {
            let address = String::from_str(alloc, address)?;
            copies.push(LocalCopy { address, path })?;
            return Ok(copies);
        }
        let mut complaint = String::new(alloc);
        let base = base_of(alloc, address, path.as_str())?;
        let path = path.as_str();
        let used = used_from(alloc, disk, &self.options, &mut complaint, path, base)?;
        let Used { absent, .. } = used;
        if absent.is_empty() {
            self.complaint.push_str(complaint.as_str())?;
        }
        Ok(absent)
    }

    /// Checks the document `root` of the file `name` against the schema at a path. Returns no reports if the schema has
    /// not been read or can't be used. If the check can't be completed, returns no reports, and adds an error to
    /// `complaint`.
    fn reports_of(
        &mut self,
        alloc: Global,
        path: &str,
        name: &str,
        root: &Value<'_>,
    ) -> Result<Vec<Report>, AllocError>
        ensures { IfOk result (λ reports. ReportsOf (spec.guide_at self.old.used.items path.now) name.now
            (view root.now) (map report_content reports.items) (string_bytes self.old.complaint)
            (string_bytes self.new.complaint)) }
    {
        let Some(guide) = self.guide_at(path) else {
            return Ok(Vec::new(alloc));
        };
        match findings(alloc, &guide.schema, root) {
            Ok(reports) => self.with_notes(alloc, path, reports),
            Err(CheckError::OutOfMemory) => Err(AllocError),
            Err(error) => {
                complain(&mut self.complaint, "check", name, error.message())?;
                Ok(Vec::new(alloc))
            }
        }
    }

    /// Checks the document `root` of the file `name` against the schema of a choice, as `reports_of` does. For
    /// `Unmapped`, returns a warning that the schema is not fetched. Returns no reports for `None` and `Remote`.
    fn reports_for(
        &mut self,
        alloc: Global,
        choice: &Choice,
        name: &str,
        root: &Value<'_>,
    ) -> Result<Vec<Report>, AllocError>
        ensures { IfOk result (λ reports. ReportsFor self.old.used.items choice.now name.now (view root.now)
            (map report_content reports.items) (string_bytes self.old.complaint) (string_bytes self.new.complaint)) }
    {
        match choice {
            Choice::None | Choice::Remote(_) => Ok(Vec::new(alloc)),
            Choice::File(path) => self.reports_of(alloc, path.as_str(), name, root),
            Choice::Unmapped(address, span) => {
                let help = copy_help(alloc, self.options.place, address.as_str())?;
                let report = not_fetched(alloc, address.as_str(), *span, help.as_str())?;
                Ok(vec![in alloc; report]?)
            }
        }
    }

    /// Returns the error lines that say why catalogs or schemas can't be used, or why documents can't be checked. Each
    /// line is returned once.
    pub fn take_complaint(&mut self, alloc: Global) -> String
        ensures { result ≡ self.old.complaint }
    {
        mem::replace(&mut self.complaint, String::new(alloc))
    }

    /// Checks a document against its schema, as `Schemas::check` does. Before that, reads the catalog and the schema if
    /// they have not been read, unless `chooser` is `Files` and `text` names no schema (`names_schema`). Fails if an
    /// allocation fails.
    pub fn check_reading<D: Disk>(
        &mut self,
        alloc: Global,
        disk: &mut D,
        chooser: Chooser,
        name: &str,
        text: &str,
        root: &Value<'_>,
    ) -> Result<SchemaReports, AllocError>
        ensures says { IfOk result (λ made. file_says chooser name.now text.now (view root.now)
            (map report_content made.reports.items) (string_bytes made.complaint)) }
        ensures chosen { IfOk result (λ made. spec.ChecksChosen self.old.options chooser name.now text.now
            (view root.now) (map report_content made.reports.items) (string_bytes made.complaint)) }
    {
        if chooser == Chooser::Files && !names_schema(text) {
            return Ok(SchemaReports {
                reports: Vec::new(alloc),
                complaint: String::new(alloc),
            });
        }
        self.prepare(alloc, disk)?;
        let choice = self.choice(alloc, name, text)?;
        self.load_choice(alloc, disk, &choice)?;
        let reports = self.reports_for(alloc, &choice, name, root)?;
        let complaint = self.take_complaint(alloc);
        Ok(SchemaReports { reports, complaint })
    }
}

/// Checks against the schemas that have been read. Reads no files.
impl Schemas for Lookup {
    ghost says = { file_says };

    fn check(
        &mut self,
        alloc: Global,
        chooser: Chooser,
        name: &str,
        text: &str,
        root: &Value<'_>,
    ) -> Result<SchemaReports, AllocError> {
        if chooser == Chooser::Files && !names_schema(text) {
            return Ok(SchemaReports {
                reports: Vec::new(alloc),
                complaint: String::new(alloc),
            });
        }
        let choice = self.choice(alloc, name, text)?;
        let reports = self.reports_for(alloc, &choice, name, root)?;
        let complaint = self.take_complaint(alloc);
        Ok(SchemaReports { reports, complaint })
    }
}
