//! Reads and compiles a schema with the documents to which it refers.
ghost use Rattle.std.specs.Prelude.{◌≡◌, IfOk, IsSomeAnd, slice_get, string_bytes};
ghost use Rattle.toml_span_schema.specs.Compiled.{IsCompiled};

use crate::addresses::{
    address_of, folder_of, is_remote, path_of_address, push_decoded, without_fragment,
};
use crate::catalog::json_reason;
use crate::disk::{Disk, Stamp};
use crate::metaschemas::metaschema;
use crate::options::{LocalCopy, Options};
use crate::places::place_in;
use crate::reasons::{complain, flaw_reason, remote_reason};
use std::alloc::{AllocError, Global};
use toml_span_report::Report;
use toml_span_schema::{Document, Flaw, Guide, SchemaError};

/// The maximum number of other documents that a schema may refer to.
const MOST_DOCUMENTS: usize = 100;

/// The size of the largest file that is read, in bytes.
const LONGEST: usize = 16_777_216;

/// A file that a schema needs, with its stamp from before the file was read.
#[derive(Drop)]
pub(crate) struct ReadFile {
    pub(crate) path: String,
    pub(crate) stamp: Option<Stamp>,
}

/// A schema that was compiled or refused.
#[derive(Drop)]
pub(crate) struct Used {
    pub(crate) path: String,
    /// The compiled schema, or `None` if the schema can't be used.
    pub(crate) guide: Option<Guide>,
    /// The files of the schema and of the documents to which it refers.
    pub(crate) files: Vec<ReadFile>,
    /// A warning for each part of the schema that is not checked.
    pub(crate) warnings: Vec<Report>,
    /// The documents to which the schema refers and whose local copies do not exist.
    pub(crate) absent: Vec<LocalCopy>,
}

/// The document of a schema, or a document to which the schema refers.
#[derive(Drop)]
struct Loaded {
    path: String,
    address: String,
    text: String,
}

/// The documents of a schema that have been read so far, and the addresses of all missing ones so far.
#[derive(Drop)]
struct Loading {
    documents: Vec<Loaded>,
    tried: Vec<String>,
}

impl Loaded {
    /// Returns the document as one that is compiled.
    fn document(&self) -> Document<'_>
        ensures { result.text.now ≡ string_bytes self.now.text }
    {
        Document {
            address: self.address.as_str(),
            text: self.text.as_str(),
        }
    }
}

/// Returns these documents as ones that are compiled.
fn documents_of(alloc: Global, loaded: &[Loaded]) -> Result<Vec<Document<'_>>, AllocError> {
    let mut documents = Vec::new(alloc);
    for one in loaded {
        documents.push(one.document())?;
    }
    Ok(documents)
}

/// Compiles the schema in the first of `documents`. The schema may refer to the other documents. Fails as
/// `Guide::from_document` does.
fn compile(alloc: Global, documents: &[Loaded]) -> Result<Guide, SchemaError>
    ensures { IfOk result (λ guide. IsSomeAnd (slice_get documents.now 0)
        (λ root. IsCompiled (string_bytes root.text) guide.schema)) }
{
    let Some((root, rest)) = documents.split_first() else {
        return Err(SchemaError::Internal);
    };
    let others = documents_of(alloc, rest)?;
    Guide::from_document(alloc, root.document(), others.as_slice())
}

/// Returns the text of the file at `path` without a byte order mark. If the file can't be read, is larger than 16 MiB
/// or is not valid UTF-8, returns `None` and adds an error to `complaint`. `what` names the failed action in this
/// error, such as `read the catalog`.
pub fn text_of<D: Disk>(
    alloc: Global,
    disk: &mut D,
    complaint: &mut String,
    what: &str,
    path: &str,
) -> Result<Option<String>, AllocError> {
    let reason = match disk.read_file(alloc, path)? {
        Ok(bytes) => {
            let text = str::from_utf8(bytes.as_slice());
            if bytes.len() > LONGEST {
                String::from_str(alloc, "it is larger than 16 MiB")?
            } else if let Ok(text) = text {
                let text = text.strip_prefix('\u{feff}').unwrap_or(text);
                return Ok(Some(String::from_str(alloc, text)?));
            } else {
                String::from_str(alloc, "it is not valid UTF-8")?
            }
        }
        Err(reason) => reason,
    };
    complain(complaint, what, path, reason.as_str())?;
    Ok(None)
}

/// Returns the document at `address`, or `None` if `documents` has none.
fn at_address<'d>(documents: &'d [Loaded], address: &str) -> Option<&'d Loaded> {
    for document in documents {
        if document.address.as_str() == address {
            return Some(document);
        }
    }
    None
}

/// Returns the path of the document at `address`, which `flaw` reports as missing, or of its local copy: the one that
/// the options name, or the file that is as far from the file of the reference as its address from that of the
/// reference. Returns `None` if the document has no local copy and is not a local file.
fn path_for<D: Disk>(
    alloc: Global,
    disk: &mut D,
    options: &Options,
    documents: &[Loaded],
    flaw: &Flaw,
    address: &str,
) -> Result<Option<String>, AllocError> {
    if let Some(file) = options.copy_of(alloc, address)? {
        return Ok(Some(file));
    }
    let first = match documents.first() {
        Some(document) => document.path.as_str(),
        None => "",
    };
    if let Some(path) = path_of_address(alloc, folder_of(first), address)? {
        return Ok(Some(path));
    }
    let Some(document) = at_address(documents, flaw.document.as_str()) else {
        return Ok(None);
    };
    let Some(rest) = address.strip_prefix(folder_of(flaw.base.as_str())) else {
        return Ok(None);
    };
    let mut path = String::from_str(alloc, folder_of(document.path.as_str()))?;
    push_decoded(alloc, &mut path, rest)?;
    let is_there = disk.stamp(path.as_str()).is_some();
    Ok(if is_there { Some(path) } else { None })
}

/// Adds an error to `complaint` for each reason why the schema at `path` can't be compiled.
fn refuse(
    alloc: Global,
    options: &Options,
    complaint: &mut String,
    path: &str,
    documents: &[Loaded],
    error: &SchemaError,
) -> Result<(), AllocError> {
    match error {
        SchemaError::Json { address } => {
            let Some(document) = at_address(documents, address.as_str()) else {
                return Ok(());
            };
            let (path, text) = (document.path.as_str(), document.text.as_str());
            let reason = json_reason(alloc, text, "it is not valid JSON")?;
            complain(complaint, "use the schema", path, reason.as_str())
        }
        SchemaError::Wrong { flaws, .. } => {
            let flaws = flaws.as_slice();
            if let Some(reason) = remote_reason(alloc, options.place, flaws)? {
                complain(complaint, "use the schema", path, reason.as_str())?;
            }
            refuse_flaws(alloc, complaint, documents, flaws)
        }
        _ => {
            let reason = error.message(alloc)?;
            complain(complaint, "use the schema", path, reason.as_str())
        }
    }
}

/// A flaw of a schema, with the path of its document and what is wrong there.
#[derive(Drop)]
struct ExplainedFlaw<'d, 'f> {
    flaw: &'f Flaw,
    path: &'d str,
    reason: String,
}

/// Returns what is wrong at each flaw. The flaws of a document are in the order of its text.
fn explain_flaws<'d, 'f>(
    alloc: Global,
    documents: &'d [Loaded],
    flaws: &'f [Flaw],
) -> Result<Vec<ExplainedFlaw<'d, 'f>>, AllocError> {
    let mut all = Vec::new(alloc);
    for document in documents {
        let (text, path) = (document.text.as_str(), document.path.as_str());
        let mut found = Vec::new(alloc);
        for (at, flaw) in flaws.iter().enumerate() {
            if flaw.document.as_str() == document.address.as_str() {
                found.push((place_in(alloc, text, flaw.place.as_str())?, at))?;
            }
        }
        found.sort_by_key(|entry| entry.0)?;
        for (place, at) in found {
            if let Some(flaw) = flaws.get(at) {
                let reason = flaw_reason(alloc, text, place, flaw)?;
                all.push(ExplainedFlaw { flaw, path, reason })?;
            }
        }
    }
    Ok(all)
}

/// Adds an error to `complaint` for each flaw, except for missing documents on servers.
fn refuse_flaws(
    alloc: Global,
    complaint: &mut String,
    documents: &[Loaded],
    flaws: &[Flaw],
) -> Result<(), AllocError> {
    for one in explain_flaws(alloc, documents, flaws)? {
        let (flaw, path) = (one.flaw, one.path);
        if !is_remote(flaw.missing.as_str()) {
            let (help, reason) = (flaw.help.as_str(), one.reason.as_str());
            let semicolon = if help.is_empty() { "" } else { "; " };
            let message = format!(in alloc; "{reason}{semicolon}{help}")?;
            complain(complaint, "use the schema", path, message.as_str())?;
        }
    }
    Ok(())
}

/// Returns a warning for each part of a schema that is not checked.
fn warnings_of(
    alloc: Global,
    documents: &[Loaded],
    flaws: &[Flaw],
) -> Result<Vec<Report>, AllocError> {
    let mut reports = Vec::new(alloc);
    for one in explain_flaws(alloc, documents, flaws)? {
        let (path, reason) = (one.path, one.reason.as_str());
        let message = format!(in alloc; "the schema `{path}`: {reason}")?;
        let report = Report::warning(alloc, "schema-not-checked", message.as_str())?;
        let help = one.flaw.help.as_str();
        reports.push(if help.is_empty() {
            report
        } else {
            report.help(help)?
        })?;
    }
    Ok(reports)
}

/// Reads the documents that `flaws` report as missing, and appends them to `loading.documents` and their files to
/// `used.files`. Metaschemas are built in, unless there are local copies. Returns whether there are any such documents.
/// If a document can't be read, adds an error to `complaint`.
fn push_missing<D: Disk>(
    alloc: Global,
    disk: &mut D,
    options: &Options,
    complaint: &mut String,
    used: &mut Used,
    loading: &mut Loading,
    flaws: &[Flaw],
) -> Result<bool, AllocError>
    ensures { used.new.path ≡ used.old.path }
{
    let known = loading.documents.len();
    for flaw in flaws {
        let address = without_fragment(flaw.missing.as_str());
        let is_tried = loading.tried.iter().any(|tried| tried.as_str() == address);
        if address.is_empty() || is_tried {
            continue;
        }
        let documents = loading.documents.as_slice();
        let path = path_for(alloc, disk, options, documents, flaw, address)?;
        loading.tried.push(String::from_str(alloc, address)?)?;
        if let Some(document) = document_at(alloc, disk, complaint, used, address, path)? {
            loading.documents.push(document)?;
        }
    }
    Ok(loading.documents.len() > known)
}

/// Returns the missing document at `address`, whose file or local copy is at `path`, or the metaschema that is built in
/// if there is no such file. If the file can't be read, returns `None` and adds an error to `complaint`.
fn document_at<D: Disk>(
    alloc: Global,
    disk: &mut D,
    complaint: &mut String,
    used: &mut Used,
    address: &str,
    path: Option<String>,
) -> Result<Option<Loaded>, AllocError>
    ensures { used.new.path ≡ used.old.path }
{
    let is_there = match &path {
        Some(path) => disk.stamp(path.as_str()).is_some(),
        None => false,
    };
    if !is_there {
        if let Some(text) = metaschema(alloc, address)? {
            let path = String::from_str(alloc, address)?;
            let address = path.clone()?;
            return Ok(Some(Loaded {
                path,
                address,
                text,
            }));
        }
    }
    let Some(path) = path else {
        return Ok(None);
    };
    if is_remote(address) && !is_there {
        used.absent.push(LocalCopy {
            address: String::from_str(alloc, address)?,
            path: String::from_str(alloc, path.as_str())?,
        })?;
    }
    let Some(text) = read_part(alloc, disk, complaint, used, path.as_str())? else {
        return Ok(None);
    };
    Ok(Some(Loaded {
        path,
        address: String::from_str(alloc, address)?,
        text,
    }))
}

/// Adds the file at `path` to `used.files`, and returns its text. If the file can't be read or is not valid UTF-8,
/// returns `None` and adds an error to `complaint`.
fn read_part<D: Disk>(
    alloc: Global,
    disk: &mut D,
    complaint: &mut String,
    used: &mut Used,
    path: &str,
) -> Result<Option<String>, AllocError>
    ensures { used.new.path ≡ used.old.path }
{
    let stamp = disk.stamp(path);
    used.files.push(ReadFile {
        path: String::from_str(alloc, path)?,
        stamp,
    })?;
    text_of(alloc, disk, complaint, "read the schema", path)
}

/// Compiles the schema in the first of `loading.documents`, and stores it in `used`. Reads the other documents to which
/// the schema refers. If the schema can't be compiled, adds an error to `complaint`.
fn compile_used<D: Disk>(
    alloc: Global,
    disk: &mut D,
    options: &Options,
    complaint: &mut String,
    used: &mut Used,
    mut loading: Loading,
) -> Result<(), AllocError>
    ensures { used.new.path ≡ used.old.path }
{
    for _ in 0..=MOST_DOCUMENTS {
        let error = match compile(alloc, loading.documents.as_slice()) {
            Ok(mut guide) => {
                let (documents, flaws) = (loading.documents.as_slice(), guide.warnings.as_slice());
                used.warnings = warnings_of(alloc, documents, flaws)?;
                guide.schema.set_formats(options.has_formats);
                used.guide = Some(guide);
                return Ok(());
            }
            Err(SchemaError::OutOfMemory) => return Err(AllocError),
            Err(error) => error,
        };
        let is_more = match &error {
            SchemaError::Wrong { flaws, .. } if loading.documents.len() <= MOST_DOCUMENTS => {
                let (loading, flaws) = (&mut loading, flaws.as_slice());
                push_missing(alloc, disk, options, complaint, used, loading, flaws)?
            }
            _ => false,
        };
        if !is_more {
            let path = used.path.as_str();
            let documents = loading.documents.as_slice();
            if let SchemaError::Wrong { warnings, .. } = &error {
                used.warnings = warnings_of(alloc, documents, warnings.as_slice())?;
            }
            return refuse(alloc, options, complaint, path, documents, &error);
        }
    }
    let reason = "it refers to more than 100 documents";
    complain(complaint, "use the schema", used.path.as_str(), reason)
}

/// Returns the address of the schema at `path`, against which its relative references are resolved. `address` is the
/// path or the URL that names the schema.
pub(crate) fn base_of(alloc: Global, address: &str, path: &str) -> Result<String, AllocError> {
    if is_remote(address) && !address.contains('"') && !address.contains('\\') {
        String::from_str(alloc, without_fragment(address))
    } else {
        address_of(alloc, path)
    }
}

/// Reads and compiles the schema at a path, whose address is `address`. If the schema can't be used, adds an error to
/// `complaint`, and returns a `Used` without a compiled schema.
pub(crate) fn used_from<D: Disk>(
    alloc: Global,
    disk: &mut D,
    options: &Options,
    complaint: &mut String,
    path: &str,
    address: String,
) -> Result<Used, AllocError>
    ensures { IfOk result (λ used. string_bytes used.path ≡ path.now) }
{
    let mut used = Used {
        path: String::from_str(alloc, path)?,
        guide: None,
        files: Vec::new(alloc),
        warnings: Vec::new(alloc),
        absent: Vec::new(alloc),
    };
    if let Some(text) = read_part(alloc, disk, complaint, &mut used, path)? {
        let mut loading = Loading {
            documents: Vec::new(alloc),
            tried: Vec::new(alloc),
        };
        loading.documents.push(Loaded {
            path: String::from_str(alloc, path)?,
            address,
            text,
        })?;
        compile_used(alloc, disk, options, complaint, &mut used, loading)?;
    }
    Ok(used)
}

impl Used {
    /// Returns whether a file of the schema, or of a document to which the schema refers, has changed since it was
    /// read.
    pub(crate) fn is_stale<D: Disk>(&self, disk: &mut D) -> bool {
        for file in self.files.as_slice() {
            if disk.stamp(file.path.as_str()) != file.stamp {
                return true;
            }
        }
        false
    }
}
