//! The claims that headers and assignments make on paths, and which of them clash.
ghost use Rattle.std.specs.Prelude.{◌≡◌, ⊤, string_bytes, IfOk};
ghost use Rattle.std.specs.Cow.{cow_str_bytes};
ghost use Rattle.toml_span_tree.specs.Error.{content_of};
ghost use Rattle.toml_span.specs.Clashes as clashes;
ghost use Rattle.toml_span.specs.code.Machine.{OkOrClash, earliest_clash};
ghost use Rattle.toml_span.specs.code.ClaimInfos as kept;

use smallvec::SmallVec;
use std::alloc::{AllocError, Global};
use toml_span_lex::key::Key;
use toml_span_lex::span::Span;
use toml_span_lex::stop::Stop;
use toml_span_tree::{Error, ErrorKind};

// Toolchain: `SmallVec` fills unused slots with defaults ("the trait bound `Key: Default` is not satisfied"), so `Key`,
// `ClaimInfo` and `ClaimKind` have a default.
/// The kind of a claim: what a header, key or element declares a path to be.
#[derive(Clone, Copy, Default)]
pub enum ClaimKind {
    /// A table through which a header passes: `a` in `[a.b]`.
    #[default]
    Passed,
    /// The table that a header in single brackets opens.
    StandardTable,
    /// The array to which a header in double brackets adds a table. Only the first such header makes this claim.
    ArrayOfTables,
    /// A table that is an element of an array of tables.
    TableElement,
    /// A table through which a dotted key passes: `a` in `a.b = 1`.
    Dotted,
    /// A value: the value of an assignment, or an element of an array in brackets.
    Assigned,
}

/// A claim, without its path and the name of its key.
#[derive(Clone, Copy, Default)]
pub struct ClaimInfo {
    pub kind: ClaimKind,
    /// The span of the part of the header or key that makes the claim. For an element of an array in brackets, the span
    /// of the element.
    pub key: Span,
    /// The line of the header, from its first bracket to the end of the line, including the line end. For a claim that
    /// no header makes, the span of the value, which no clash reports.
    pub line: Span,
    /// The span that the table, array or value at the path has if this claim determines it: that of the header's
    /// section or of the assigned value.
    pub extent: Span,
}

/// The data that the claims of all parts of a header share.
#[derive(Clone, Copy)]
pub struct HeaderInfo {
    /// Whether the header has double brackets.
    pub array: bool,
    /// The span from the header's first bracket to the end of its line, including the line end.
    pub line: Span,
    /// The span of the header's section.
    pub extent: Span,
}

/// The kinds of clashes.
#[derive(Clone, Copy)]
pub enum ClashKind {
    /// Two headers name the same path, at least one of them in single brackets.
    DuplicateTable,
    /// A path is assigned twice. Or it is assigned, and is also a table or array of tables. Or a header names it, and a
    /// dotted key passes through it.
    DuplicateKey,
    /// A table that an earlier header passes through is defined as an array of tables.
    RedefineAsArray,
}

/// Returns how two claims on the same path clash, or `None` if they do not.
fn clash_kind(earlier: ClaimKind, later: ClaimKind) -> Option<ClashKind>
    ensures { result ≡ clashes.clash_kind earlier later }
{
    match (earlier, later) {
        (ClaimKind::Passed, ClaimKind::ArrayOfTables) => Some(ClashKind::RedefineAsArray),
        (ClaimKind::StandardTable, ClaimKind::StandardTable | ClaimKind::ArrayOfTables) => Some(
            ClashKind::DuplicateTable,
        ),
        (ClaimKind::ArrayOfTables, ClaimKind::StandardTable) => Some(ClashKind::DuplicateTable),
        (ClaimKind::Dotted, ClaimKind::StandardTable | ClaimKind::ArrayOfTables) => Some(
            ClashKind::DuplicateKey,
        ),
        (ClaimKind::StandardTable | ClaimKind::ArrayOfTables, ClaimKind::Dotted) => Some(
            ClashKind::DuplicateKey,
        ),
        (ClaimKind::Assigned, ClaimKind::TableElement)
        | (ClaimKind::TableElement, ClaimKind::Assigned) => None,
        (ClaimKind::Assigned, _) | (_, ClaimKind::Assigned) => Some(ClashKind::DuplicateKey),
        _ => None,
    }
}

/// A clash, without the name of the key.
#[derive(Clone, Copy)]
pub struct ClashInfo {
    pub kind: ClashKind,
    /// The span of the earlier header or key.
    pub first: Span,
    /// The span of the later header or key, where the error is reported.
    pub span: Span,
}

/// Returns the clash of the kind `kind` between two claims. Its spans are those of the two keys for a `DuplicateKey`,
/// otherwise those of the two header lines.
fn clash_info_of(earlier: ClaimInfo, later: ClaimInfo, kind: ClashKind) -> ClashInfo
    ensures { result ≡ clashes.clash_info earlier later kind }
{
    match kind {
        ClashKind::DuplicateKey => ClashInfo {
            kind,
            first: earlier.key,
            span: later.key,
        },
        ClashKind::DuplicateTable | ClashKind::RedefineAsArray => ClashInfo {
            kind,
            first: earlier.line,
            span: later.line,
        },
    }
}

/// Returns the clash of two claims on the same path, or `None` if they do not clash.
fn clash_info_between(earlier: ClaimInfo, later: ClaimInfo) -> Option<ClashInfo>
    ensures { result ≡ kept.clash_info_between earlier later }
{
    match clash_kind(earlier.kind, later.kind) {
        Some(kind) => Some(clash_info_of(earlier, later, kind)),
        None => None,
    }
}

/// A clash of two claims on the same path.
#[derive(Drop)]
pub struct Clash {
    pub info: ClashInfo,
    /// The name of the key in both claims.
    pub name: String,
}

impl Clash {
    /// Converts the clash into an error. `line_info` is the line and the column at which the clash's span starts, both
    /// counted from 0, the column in bytes.
    pub fn into_error<'s>(self, line_info: (usize, usize)) -> Error<'s>
        ensures { content_of result ≡ clashes.content_of_clash self.info (string_bytes self.name) line_info }
    {
        let Clash { info, name } = self;
        let kind = match info.kind {
            ClashKind::DuplicateTable => ErrorKind::DuplicateTable {
                name,
                first: info.first,
            },
            ClashKind::DuplicateKey => ErrorKind::DuplicateKey {
                key: name,
                first: info.first,
            },
            ClashKind::RedefineAsArray => ErrorKind::RedefineAsArray,
        };
        Error {
            kind,
            span: info.span,
            line_info: Some(line_info),
        }
    }
}

/// Why a section, an assignment or a value could not be placed: an allocation failed, or two claims clash. The clash is
/// boxed to keep results small.
pub type PlaceError = Stop<Box<Clash>>;

/// The first claim of each kind on a branch, in the order of the text. The others are not needed, since whether two
/// claims clash depends only on their kinds.
pub type ClaimInfos = SmallVec<ClaimInfo, 1>;

/// Returns whether the two kinds are equal.
fn same_kind(a: ClaimKind, b: ClaimKind) -> bool
    ensures { result ≡ kept.same_kind a b }
{
    a as u8 == b as u8
}

/// Returns the clash of the claim `later` with the first claim in `infos` that excludes it, or `None` if there is no
/// clash.
fn earliest_clash_info(infos: &[ClaimInfo], later: ClaimInfo) -> Option<ClashInfo>
    ensures { result ≡ kept.earliest_clash_info infos.now later }
{
    for earlier in infos {
        if let Some(clash_info) = clash_info_between(*earlier, later) {
            return Some(clash_info);
        }
    }
    None
}

/// Returns whether one of the claims has this kind.
fn has_kind(infos: &[ClaimInfo], kind: ClaimKind) -> bool
    ensures { result ≡ kept.has_kind infos.now kind }
{
    for info in infos {
        if same_kind(info.kind, kind) {
            return true;
        }
    }
    false
}

/// Returns the clash described by `clash_info`, with a copy of the key's name.
fn clash_of(alloc: Global, clash_info: ClashInfo, key: &Key<'_>) -> Result<Box<Clash>, AllocError>
    ensures { IfOk result (λ clash. kept.IsClashOver clash.value clash_info (cow_str_bytes key.now.name)) }
{
    let name = String::from_str(alloc, key.name.as_ref())?;
    Ok(Box::new(
        alloc,
        Clash {
            info: clash_info,
            name,
        },
    )?)
}

/// Returns the clash described by `clash_info` as a `PlaceError`.
#[cold]
fn place_error(alloc: Global, clash_info: ClashInfo, key: &Key<'_>) -> PlaceError
    ensures { kept.IsErrorOver result clash_info (cow_str_bytes key.now.name) }
{
    match clash_of(alloc, clash_info, key) {
        Ok(clash) => Stop::Fault(clash),
        Err(error) => Stop::Memory(error),
    }
}

/// Checks the claim `info` against `infos`, the earlier claims on the same path, whose last key is `key`. Fails with
/// the clash between `info` and the first claim in `infos` that excludes it, or if an allocation for this error fails.
#[inline(always)]
pub fn check_clash(
    alloc: Global,
    infos: &[ClaimInfo],
    info: ClaimInfo,
    key: &Key<'_>,
) -> Result<(), PlaceError>
    ensures { OkOrClash result (earliest_clash infos.now info (cow_str_bytes key.now.name)) (λ _. ⊤) }
{
    match earliest_clash_info(infos, info) {
        None => Ok(()),
        Some(clash_info) => Err(place_error(alloc, clash_info, key)),
    }
}

/// Adds the claim `info` to `infos`, the claims on a branch, unless a claim of the same kind is there already. Fails
/// with the clash between `info` and the first claim in `infos` that excludes it, or if an allocation fails; `infos` is
/// then unchanged. `key` is the last key of the branch's path.
#[inline(never)]
pub fn record_claim(
    alloc: Global,
    infos: &mut ClaimInfos,
    info: ClaimInfo,
    key: &Key<'_>,
) -> Result<(), PlaceError>
    ensures { OkOrClash result (earliest_clash infos.old.items info (cow_str_bytes key.now.name))
        (λ _. infos.new.items ≡ kept.remember infos.old.items info) }
{
    check_clash(alloc, infos.as_slice(), info, key)?;
    if !has_kind(infos.as_slice(), info.kind) {
        infos.push(info)?;
    }
    Ok(())
}
