//! Places sections, one after another, in the tree under construction, and finishes the tree.
ghost use Rattle.std.specs.Prelude.{◌≡◌, ℕ, List, map, [], ◌∷◌, ◌++◌, IfOk, IfErr, IfSome, IsOk, IsOkAnd, None, OnOk};
ghost use Rattle.toml_span_read.specs.Borrowed.{assignments_written, section_written, AreWrittenRight};
ghost use Rattle.toml_span_read.specs.Data.{ParsedSection, parsed_section, simple_key as part_of};
ghost use Rattle.toml_span_read.specs.code.Sections.{first_sections};
ghost use Rattle.toml_span.specs.code.Borrowed.{IfSectionRight, KeepsBorrows, KeepsName};
ghost use Rattle.toml_span.specs.Borrowed.{first_key, strings_and_keys, AreBorrowedRight};
ghost use Rattle.toml_span.specs.Claims as claims;
ghost use Rattle.toml_span.specs.code.ClaimInfos.{IsPlaceErrorInside};
ghost use Rattle.toml_span.specs.code.Placing.{claims_of, AreSections, Assembles, Opening, Opens, Passes, PassesHeader};
ghost use Rattle.toml_span.specs.code.Placing.{PassesTable, PlacesSection, Reaches};
ghost use Rattle.toml_span.specs.code.Relative.{adding, ending, counts_after_adding, counts_after_end, opening};
ghost use Rattle.toml_span.specs.code.Relative.{part_kind};
ghost use Rattle.toml_span.specs.code.Tree.{counts, IsHeld, IsOpen};
ghost use Rattle.toml_span.specs.code.Assembling.{AssemblyBorrows, IsAssemblyOf, IsBare, IsAssemblyInside};
ghost use Rattle.toml_span.specs.code.Assembling.{PlacesAtRoot};
ghost use Rattle.toml_span.specs.Parsing.{IsRoot};

use crate::branch::{Branch, into_table};
use crate::claims::{ClaimInfo, ClaimKind, Clash, HeaderInfo, PlaceError, record_claim};
use crate::scopes::{fresh_child, place_all};
use std::alloc::{AllocError, Global};
use std::collections::btree_map::Entry;
use toml_span_lex::key::Key;
use toml_span_lex::span::Span;
use toml_span_lex::stop::Stop;
use toml_span_read::{Assignment, Section};
use toml_span_tree::{Value, ValueInner};

/// Returns the claim of this kind that the part `key` of a header makes.
fn part_info(head: HeaderInfo, kind: ClaimKind, key: &Key<'_>) -> ClaimInfo
    ensures { result ≡ claims.part_info head kind key.now.span }
{
    ClaimInfo {
        kind,
        key: key.span,
        line: head.line,
        extent: head.extent,
    }
}

/// Returns the kind of the claim with which a part of a header creates a branch. `rest` are the parts after it.
fn claim_kind(head: HeaderInfo, rest: &[Key<'_>]) -> ClaimKind
    ensures { result ≡ part_kind head (map part_of rest.now) }
{
    if !rest.is_empty() {
        ClaimKind::Passed
    } else if head.array {
        ClaimKind::ArrayOfTables
    } else {
        ClaimKind::StandardTable
    }
}

/// Places a section with the assignments `pairs` where `parts`, the remaining parts of its header, lead from `node`.
/// Fails with the first clash; `node` is then incomplete.
#[cycle(place_section)]
#[inline(always)]
fn place_section<'de>(
    alloc: Global,
    node: &mut Branch<'de>,
    parts: &[Key<'de>],
    head: HeaderInfo,
    pairs: Vec<Assignment<'de>>,
) -> Result<(), PlaceError>
    ensures places { PlacesSection node.old node.new result head parts.now pairs.entry.items }
    ensures borrows { (text : List ℕ) → IfSectionRight text parts.now pairs.entry.items
        (KeepsBorrows text node.old node.new result) }
{
    let [part, rest @ ..] = parts else {
        return place_all(alloc, pairs, node);
    };
    match node.tables.entry(part.clone(alloc)?)? {
        Entry::Occupied(entry) => pass_child(alloc, entry.into_mut(), part, rest, head, pairs),
        Entry::Vacant(entry) => {
            let info = part_info(head, claim_kind(head, rest), part);
            let child = fresh_child(alloc, &node.values, info, part)?;
            pass_child(alloc, entry.insert(child), part, rest, head, pairs)
        }
    }
}

/// Does the same as `pass_header` for the boxed branch `child`.
#[cycle(place_section)]
fn pass_child<'de>(
    alloc: Global,
    child: &mut Box<Branch<'de>>,
    part: &Key<'de>,
    rest: &[Key<'de>],
    head: HeaderInfo,
    pairs: Vec<Assignment<'de>>,
) -> Result<(), PlaceError>
    ensures places { PassesHeader child.old.value child.new.value result head part.now rest.now pairs.entry.items }
    ensures borrows { (text : List ℕ) → IfSectionRight text rest.now pairs.entry.items
        (KeepsName text part.now.span child.old.value child.new.value result) }
{
    pass_header(alloc, child.as_mut(), part, rest, head, pairs)
}

/// Places a section at or below `node`, the branch that `part` of its header names. `rest` are the parts after `part`.
/// In an array of tables, they lead on from the latest element (TOML 1.1, Array of Tables). Fails with the first clash;
/// `node` is then incomplete.
#[cycle(place_section)]
#[inline(always)]
fn pass_header<'de>(
    alloc: Global,
    node: &mut Branch<'de>,
    part: &Key<'de>,
    rest: &[Key<'de>],
    head: HeaderInfo,
    pairs: Vec<Assignment<'de>>,
) -> Result<(), PlaceError>
    ensures places { PassesHeader node.old node.new result head part.now rest.now pairs.entry.items }
    ensures borrows { (text : List ℕ) → IfSectionRight text rest.now pairs.entry.items
        (KeepsName text part.now.span node.old node.new result) }
{
    if rest.is_empty() {
        return end_header(alloc, node, part, head, pairs);
    }
    match node.entries.last_mut() {
        Some(latest) => descend(alloc, latest, part, rest, head, pairs),
        None => descend(alloc, node, part, rest, head, pairs),
    }
}

/// Claims `node`, the branch or array element to which `part` of a header leads, as `Passed`. Then places the section
/// where the parts `rest` lead from `node`. Fails with the first clash; `node` is then incomplete.
#[cycle(place_section)]
fn descend<'de>(
    alloc: Global,
    node: &mut Branch<'de>,
    part: &Key<'de>,
    rest: &[Key<'de>],
    head: HeaderInfo,
    pairs: Vec<Assignment<'de>>,
) -> Result<(), PlaceError>
    ensures places { PassesTable node.old node.new result head part.now rest.now pairs.entry.items }
    ensures borrows { (text : List ℕ) → IfSectionRight text rest.now pairs.entry.items
        (KeepsName text part.now.span node.old node.new result) }
{
    record_claim(
        alloc,
        &mut node.infos,
        part_info(head, ClaimKind::Passed, part),
        part,
    )?;
    place_section(alloc, node, rest, head, pairs)
}

/// Claims `node`, which `part` of the header names, as `kind`, and places the section's assignments in `node`. Fails
/// with the first clash; `node` is then incomplete.
#[inline(always)]
fn open_table<'de>(
    alloc: Global,
    node: &mut Branch<'de>,
    kind: ClaimKind,
    part: &Key<'de>,
    head: HeaderInfo,
    pairs: Vec<Assignment<'de>>,
) -> Result<(), PlaceError>
    ensures places { Opening (Opens kind) (claims.part_info head kind part.now.span) node.old node.new result
        (opening head kind (part_of part.now) (claims_of pairs.entry.items)) (counts node.old) }
    ensures borrows { (text : List ℕ) → AreWrittenRight text (assignments_written pairs.entry.items)
        → KeepsName text part.now.span node.old node.new result }
{
    record_claim(alloc, &mut node.infos, part_info(head, kind, part), part)?;
    place_all(alloc, pairs, node)
}

/// Appends an element with the assignments `pairs` to the array of tables `node`, which `part` of the header names.
/// Fails with the first clash; `node` is then unchanged.
fn add_entry<'de>(
    alloc: Global,
    node: &mut Branch<'de>,
    part: &Key<'de>,
    head: HeaderInfo,
    pairs: Vec<Assignment<'de>>,
) -> Result<(), PlaceError>
    ensures places { Reaches IsOpen IsHeld node.old node.new result (adding head (part_of part.now)
        (claims_of pairs.entry.items) (counts node.old [])) (counts_after_adding (counts node.old)) }
    ensures borrows { (text : List ℕ) → AreWrittenRight text (assignments_written pairs.entry.items)
        → KeepsBorrows text node.old node.new result }
{
    let mut entry = Branch::new(alloc);
    open_table(
        alloc,
        &mut entry,
        ClaimKind::TableElement,
        part,
        head,
        pairs,
    )?;
    node.entries.push(entry)?;
    Ok(())
}

/// Claims `node`, which `part`, the last part of the header, names, as a table. If the header has double brackets,
/// claims it as an array of tables instead, unless it already has elements. Places the section's assignments in the
/// table, or in a new element of the array. Fails with the first clash; `node` is then incomplete.
#[inline(never)]
fn end_header<'de>(
    alloc: Global,
    node: &mut Branch<'de>,
    part: &Key<'de>,
    head: HeaderInfo,
    pairs: Vec<Assignment<'de>>,
) -> Result<(), PlaceError>
    ensures places { Passes node.old node.new result (ending head (part_of part.now) (claims_of pairs.entry.items)
        (counts node.old [])) (counts_after_end (counts node.old) head) }
    ensures borrows { (text : List ℕ) → AreWrittenRight text (assignments_written pairs.entry.items)
        → KeepsName text part.now.span node.old node.new result }
{
    if !head.array {
        return open_table(alloc, node, ClaimKind::StandardTable, part, head, pairs);
    }
    if node.entries.is_empty() {
        let info = part_info(head, ClaimKind::ArrayOfTables, part);
        record_claim(alloc, &mut node.infos, info, part)?;
    }
    add_entry(alloc, node, part, head, pairs)
}

/// Places a section in the tree under `root`. Fails with the first clash; the tree is then incomplete.
fn place<'de>(
    alloc: Global,
    root: &mut Branch<'de>,
    section: Section<'de>,
) -> Result<(), PlaceError>
    ensures places { PlacesAtRoot (parsed_section section.entry) root.old root.new result }
    ensures borrows { (text : List ℕ) → AreWrittenRight text (section_written section.entry)
        → KeepsBorrows text root.old root.new result }
{
    let Section {
        header,
        array,
        header_span: line,
        extent,
        assignments,
    } = section;
    let head = HeaderInfo {
        array,
        line,
        extent,
    };
    place_section(alloc, root, header.as_slice(), head, assignments)
}

/// The tree of the sections read so far, or their first clash.
#[derive(Drop)]
pub(crate) struct Assembly<'de> {
    /// The tree; incomplete if there is a clash.
    root: Branch<'de>,
    /// The first clash, if there is one.
    clash: Option<Box<Clash>>,
}

impl<'de> Assembly<'de> {
    /// Returns an assembly without sections.
    pub(crate) fn new(alloc: Global) -> Self
        ensures assembles { IsAssemblyOf [] result }
        ensures inside { (n : ℕ) → IsAssemblyInside n result }
        ensures borrows { (text : List ℕ) → AssemblyBorrows text result }
        ensures bare { IsBare result }
    {
        Self {
            root: Branch::new(alloc),
            clash: None,
        }
    }
}

/// Places the next section, or drops it if the assembly has a clash already. If the section clashes, the assembly keeps
/// the clash. If an allocation fails, the tree is incomplete.
pub(crate) fn add_section<'de>(
    alloc: Global,
    assembly: &mut Assembly<'de>,
    section: Section<'de>,
) -> Result<(), AllocError>
    ensures assembles { (bs : List ParsedSection) → AreSections (parsed_section section.entry ∷ [])
        → IsAssemblyOf bs assembly.old
        → OnOk result (IsAssemblyOf (bs ++ (parsed_section section.entry ∷ [])) assembly.new) }
    ensures borrows { (text : List ℕ) → AreWrittenRight text (section_written section.entry)
        → AssemblyBorrows text assembly.old → OnOk result (AssemblyBorrows text assembly.new) }
{
    if assembly.clash.is_some() {
        drop(section);
        return Ok(());
    }
    match place(alloc, &mut assembly.root, section) {
        Ok(()) => Ok(()),
        Err(Stop::Fault(clash)) => {
            assembly.clash = Some(clash);
            Ok(())
        }
        Err(Stop::Memory(error)) => Err(error),
    }
}

/// Returns the assembly of `first`, the section before the first header, or an empty assembly if `first` is `None`.
pub(crate) fn begin<'de>(
    alloc: Global,
    first: Option<Section<'de>>,
) -> Result<Assembly<'de>, AllocError>
    ensures assembles { AreSections (first_sections first.entry)
        → IfOk result (IsAssemblyOf (first_sections first.entry)) }
    ensures borrows { (text : List ℕ) → IfSome first.entry (λ section. AreWrittenRight text (section_written section))
        → IfOk result (AssemblyBorrows text) }
    ensures bare { first.entry ≡ None → IsOkAnd result IsBare }
{
    let mut assembly = Assembly::new(alloc);
    match first {
        Some(section) => {
            add_section(alloc, &mut assembly, section)?;
            Ok(assembly)
        }
        None => Ok(assembly),
    }
}

/// Returns the finished root. Its span is 0..`length`, where `length` is the length of the text in bytes. If the
/// assembly has a clash, fails with that clash.
pub(crate) fn finish<'de>(assembly: Assembly<'de>, length: usize) -> Result<Value<'de>, PlaceError>
    ensures assembles { (bs : List ParsedSection) → IsAssemblyOf bs assembly.entry → Assembles bs length result }
    ensures root { IfOk result (IsRoot length) }
    ensures placed { (n : ℕ) → IsAssemblyInside n assembly.entry → IfErr result (IsPlaceErrorInside n) }
    ensures borrows { (text : List ℕ) (bs : List ParsedSection) → IsAssemblyOf bs assembly.entry
        → AssemblyBorrows text assembly.entry
        → IfOk result (λ root. AreBorrowedRight text (strings_and_keys root (first_key (claims.claims bs)))) }
    ensures bare { IsBare assembly.entry → IsOk result }
{
    let Assembly { root, clash } = assembly;
    match clash {
        Some(clash) => {
            drop(root);
            return Err(Stop::Fault(clash));
        }
        None => {}
    }
    let table = into_table(root.tables, root.values)?;
    let span = Span {
        start: 0,
        end: length,
    };
    Ok(Value::with_span(ValueInner::Table(table), span))
}
