//! Compiles a schema, and the schemas that it reaches by references and keywords. In this module, a *place* is a JSON
//! pointer (`pointer`) in the document at the position `source` of `Sources::documents`. A *scope* is the position of a
//! set of dynamic anchors in `Compiler::scopes`.
ghost use Rattle.std.specs.Prelude.{IfOk};
ghost use Rattle.toml_span_schema.specs.Compiled.{IsCompiled};

use crate::canonical::LEVELS;
use crate::compiled::ensure_compiled;
use crate::cycles::longest_chain;
use crate::documents::Document;
use crate::error::SchemaError;
use crate::formats::expanded;
use crate::guide::Guide;
use crate::keyword::{Node, Placed};
use crate::notes::{Notes, read_notes};
use crate::pointers::{push_step, with_step};
use crate::schema::Schema;
use crate::sources::{
    Dialect, MOST_SCHEMAS, Resource, Source, Sources, TOO_MANY, decoded, joined, push_flaw,
    without_fragment,
};
use json::{Scratch, Value as Json, is_valid};
use regex::Regex;
use std::alloc::{AllocError, Global};
use std::collections::BTreeMap;
use std::mem;
use url::Url;

/// The maximum length of a chain of references and combinations, such as `allOf`, that apply to the same value.
const LONGEST: usize = 64;

/// The maximum number of steps for finding resources and anchors.
const MOST_WORK: usize = 20_000_000;

/// A schema to compile. The fields are as in `Site`.
#[derive(Drop)]
struct Task<'v, 'a> {
    value: &'v Json<'a>,
    source: usize,
    pointer: String,
    scope: usize,
    without_unevaluated: bool,
}

/// A schema that is being read.
#[derive(Drop)]
pub(crate) struct Site<'v, 'a> {
    pub(crate) value: &'v Json<'a>,
    pub(crate) source: usize,
    pub(crate) pointer: String,
    /// The position in `Compiler::scopes` of the set of dynamic anchors that are bound in this schema.
    pub(crate) scope: usize,
    pub(crate) dialect: Dialect,
    /// Whether to leave out `unevaluatedItems` and `unevaluatedProperties`.
    pub(crate) without_unevaluated: bool,
    /// The keywords that have been read so far.
    pub(crate) keywords: Vec<Placed>,
}

/// The place that a reference names. If the reference's fragment is the name of an anchor, `anchor` is the index of
/// this anchor in `Sources::anchors`.
#[derive(Drop)]
pub(crate) struct Target {
    source: usize,
    pointer: String,
    anchor: Option<usize>,
}

/// Compiles schemas. A place that is reached with different sets of bound dynamic anchors is compiled once for each
/// set, so that each `$dynamicRef` in a compiled schema refers to one compiled schema.
#[derive(Drop)]
pub(crate) struct Compiler<'v, 'a> {
    pub(crate) alloc: Global,
    pub(crate) sources: Sources<'v, 'a>,
    /// The task at index `i` is for the compiled schema at index `i`.
    tasks: Vec<Task<'v, 'a>>,
    known: BTreeMap<String, usize>,
    /// Sets of dynamic anchors, each as a list of positions in `Sources::anchors`. If a name is bound several times,
    /// the set has the anchor that was bound first.
    scopes: Vec<Vec<usize>>,
    pub(crate) patterns: Vec<Regex>,
    /// The positions in `patterns` of the regular expressions of formats.
    formats: BTreeMap<&'static str, usize>,
    /// The number of steps taken so far for finding resources and anchors.
    work: usize,
    /// Whether messages name the first document.
    names_root: bool,
}

/// Returns the text of a JSON array of the documents. Fails with `Json` if a text is not JSON or nests more than 128
/// levels deep.
fn joined_texts(alloc: Global, documents: &[Document<'_>]) -> Result<String, SchemaError> {
    let mut out = String::from_str(alloc, "[")?;
    for (i, document) in documents.iter().enumerate() {
        let mut scratch = Scratch::new(alloc);
        if !is_valid(document.text, &mut scratch)? {
            let address = String::from_str(alloc, document.address)?;
            return Err(SchemaError::Json { address });
        }
        if i > 0 {
            out.push(',')?;
        }
        out.push_str(document.text)?;
    }
    out.push(']')?;
    Ok(out)
}

/// Compiles the schema in the document `root`, with its notes for people. References in the schema may name `others`.
/// `names_root` says whether messages name the document `root`. Fails as `Schema::from_json` does.
pub(crate) fn compile(
    alloc: Global,
    root: Document<'_>,
    others: &[Document<'_>],
    names_root: bool,
) -> Result<Guide, SchemaError>
    ensures { IfOk result (λ guide. IsCompiled root.entry.text.now guide.schema) }
{
    let mut documents = Vec::new(alloc);
    documents.push(root)?;
    documents.extend_from_slice(others)?;
    // (the schema for what is not checked)
    documents.push(Document {
        address: "true:",
        text: "true",
    })?;
    let text = joined_texts(alloc, documents.as_slice())?;
    let mut scratch = Scratch::new(alloc);
    let values = parsed(alloc, text.as_str(), &mut scratch)?;
    let made = compile_all(alloc, &values, documents.as_slice(), names_root);
    drop(values);
    let guide = made?;
    ensure_compiled(root.text, &guide.schema)?;
    Ok(guide)
}

/// Parses the text of a JSON array of documents. Fails with `TooLarge` if the array nests too deep.
fn parsed<'a>(
    alloc: Global,
    text: &'a str,
    scratch: &'a mut Scratch,
) -> Result<Json<'a>, SchemaError> {
    match Json::parse(alloc, text, scratch) {
        Ok(values) => Ok(values),
        Err(json::Error::OutOfMemory) => Err(SchemaError::OutOfMemory),
        Err(_deeper) => Err(SchemaError::TooLarge {
            limit: "it nests more than 127 levels deep",
        }),
    }
}

/// Compiles the schema in the first document of `values`, the JSON array of `documents`. Fails as `Schema::from_json`
/// does.
fn compile_all<'v, 'a>(
    alloc: Global,
    values: &'v Json<'a>,
    documents: &[Document<'_>],
    names_root: bool,
) -> Result<Guide, SchemaError> {
    let mut sources = Vec::new(alloc);
    for (i, document) in documents.iter().enumerate() {
        if let Some(value) = values.at(i) {
            let address = String::from_str(alloc, document.address)?;
            sources.push(Source { address, value })?;
        }
    }
    compile_sources(alloc, Sources::new(alloc, sources)?, names_root)
}

/// Compiles the schema in the first document of `sources`. Fails as `Schema::from_json` does.
fn compile_sources(
    alloc: Global,
    sources: Sources<'_, '_>,
    names_root: bool,
) -> Result<Guide, SchemaError> {
    let mut compiler = Compiler {
        alloc,
        sources,
        tasks: Vec::new(alloc),
        known: BTreeMap::new(alloc),
        scopes: Vec::new(alloc),
        patterns: Vec::new(alloc),
        formats: BTreeMap::new(alloc),
        work: 0,
        names_root,
    };
    compiler.scopes.push(Vec::new(alloc))?;
    let _root = compiler.node_at(0, "", 0)?;
    let (nodes, notes) = compiler.nodes()?;
    let (length, start) = longest_chain(alloc, nodes.as_slice())?;
    if length > LONGEST {
        compiler.refuse_chain(length, start)?;
    }
    if !compiler.sources.errors.is_empty() {
        let flaws = mem::replace(&mut compiler.sources.errors, Vec::new(alloc));
        let warnings = mem::replace(&mut compiler.sources.warnings, Vec::new(alloc));
        return Err(SchemaError::Wrong { flaws, warnings });
    }
    let Compiler {
        patterns,
        sources,
        ..
    } = compiler;
    let Sources { warnings, .. } = sources;
    let schema = Schema {
        nodes,
        patterns,
        depth: length.saturating_add(2).saturating_mul(LEVELS),
        formats: true,
    };
    Ok(Guide {
        schema,
        notes,
        warnings,
    })
}

impl<'v, 'a> Compiler<'v, 'a> {
    /// Compiles the schemas of all tasks, including tasks that are added meanwhile, and reads their notes. Fails with
    /// `TooLarge` if there are `MOST_SCHEMAS` or more tasks, otherwise like `read_node`.
    fn nodes(&mut self) -> Result<(Vec<Node>, Vec<Notes>), SchemaError> {
        let mut nodes = Vec::new(self.alloc);
        let mut notes = Vec::new(self.alloc);
        for at in 0..MOST_SCHEMAS {
            let Some(site) = self.site(at)? else {
                return Ok((nodes, notes));
            };
            notes.push(read_notes(self.alloc, site.value, site.dialect.draft)?)?;
            nodes.push(self.read_node(site)?)?;
        }
        Err(SchemaError::TooLarge { limit: TOO_MANY })
    }

    /// Returns the schema of the task at the position `at`, or `None` if `at` is out of range.
    fn site(&self, at: usize) -> Result<Option<Site<'v, 'a>>, SchemaError> {
        let Some(task) = self.tasks.get(at) else {
            return Ok(None);
        };
        let pointer = task.pointer.as_str();
        Ok(Some(Site {
            value: task.value,
            source: task.source,
            pointer: String::from_str(self.alloc, pointer)?,
            scope: task.scope,
            dialect: self.dialect(task.source, pointer),
            without_unevaluated: task.without_unevaluated,
            keywords: Vec::new(self.alloc),
        }))
    }

    /// Returns the place of a schema as messages name it (`Node::place`).
    pub(crate) fn place_of(&self, site: &Site<'v, 'a>) -> Result<String, AllocError> {
        let alloc = self.alloc;
        let pointer = site.pointer.as_str();
        match self.sources.documents.get(site.source) {
            Some(document) if self.names_root || site.source > 0 => {
                let address = document.address.as_str();
                let name = match address.rsplit_once("/") {
                    Some((_, name)) => name,
                    None => address,
                };
                format!(in alloc; "{name}#{pointer}")
            }
            _ => String::from_str(alloc, pointer),
        }
    }

    /// Returns the innermost resource that contains a place, or `None` if the list of resources is empty.
    fn resource(&self, source: usize, pointer: &str) -> Option<&Resource> {
        let at = self.sources.resource_at(source, pointer);
        self.sources.resources.get(at)
    }

    /// Returns the dialect of the schema at a place.
    fn dialect(&self, source: usize, pointer: &str) -> Dialect {
        match self.resource(source, pointer) {
            Some(resource) => resource.dialect,
            None => Dialect::LATEST,
        }
    }

    /// Returns the index of the compiled form of the schema `value` at a place. Adds a task for the schema, unless it
    /// already has one. `outer` is the scope in which the place is reached. `without_unevaluated` is as in `Site`.
    /// Fails with `TooLarge` if `work` exceeds `MOST_WORK`.
    pub(crate) fn node(
        &mut self,
        value: &'v Json<'a>,
        source: usize,
        pointer: &str,
        outer: usize,
        without_unevaluated: bool,
    ) -> Result<usize, SchemaError> {
        let alloc = self.alloc;
        let (resources, anchors) = (self.sources.resources.len(), self.sources.dynamic.len());
        self.work = self
            .work
            .saturating_add(resources)
            .saturating_add(anchors)
            .saturating_add(self.scopes.len());
        if self.work > MOST_WORK {
            return Err(SchemaError::TooLarge {
                limit: "finding its addresses takes more than 20,000,000 steps",
            });
        }
        let scope = self.scope_in(source, pointer, outer)?;
        let key = format!(in alloc; "{source} {scope} {without_unevaluated} {pointer}")?;
        if let Some(at) = self.known.get(key.as_str()) {
            return Ok(*at);
        }
        let at = self.tasks.len();
        self.tasks.push(Task {
            value,
            source,
            pointer: String::from_str(alloc, pointer)?,
            scope,
            without_unevaluated,
        })?;
        let _none = self.known.insert(key, at)?;
        Ok(at)
    }

    /// Returns the index of the compiled form of the schema at a place that is reached in the scope `outer`, or `None`
    /// if the place does not exist. Fails like `node`.
    pub(crate) fn node_at(
        &mut self,
        source: usize,
        pointer: &str,
        outer: usize,
    ) -> Result<Option<usize>, SchemaError> {
        let Some(value) = self.sources.value_at(source, pointer)? else {
            return Ok(None);
        };
        let known = self.tasks.len();
        let node = self.node(value, source, pointer, outer, false)?;
        if node == known {
            self.sources.read_hidden(source, pointer, value)?;
        }
        Ok(Some(node))
    }

    /// Adds the error that a chain of schemas that apply to the same value is a cycle or too long. The arguments are as
    /// `longest_chain` returns them.
    fn refuse_chain(&mut self, length: usize, start: usize) -> Result<(), SchemaError> {
        let Some(site) = self.site(start)? else {
            return Ok(());
        };
        let message = if length == usize::MAX {
            "this reference leads back to itself"
        } else {
            "more than 64 references and combinations, such as `allOf`, apply to the same value"
        };
        Ok(self.complain(&site, &[], message, true)?)
    }

    /// Adds the error or warning `message` about the value to which `steps` lead from the schema `site`.
    pub(crate) fn complain(
        &mut self,
        site: &Site<'v, 'a>,
        steps: &[&str],
        message: &str,
        is_error: bool,
    ) -> Result<(), AllocError> {
        let pointer = site.pointer.as_str();
        let flaw = self.sources.flaw(site.source, pointer, steps, message)?;
        if is_error {
            push_flaw(&mut self.sources.errors, flaw)
        } else {
            push_flaw(&mut self.sources.warnings, flaw)
        }
    }

    /// Returns the scope at a place that is reached in the scope `outer`. Adds a new scope to `scopes` if necessary.
    fn scope_in(
        &mut self,
        source: usize,
        pointer: &str,
        outer: usize,
    ) -> Result<usize, SchemaError> {
        let all = self.bound_in(source, pointer, outer)?;
        for (i, other) in self.scopes.as_slice().iter().enumerate() {
            if other.as_slice() == all.as_slice() {
                return Ok(i);
            }
        }
        let made = self.scopes.len();
        self.scopes.push(all)?;
        Ok(made)
    }

    /// Returns the positions of the dynamic anchors that are bound at a place: first the anchors of the scope `outer`,
    /// then the anchors of the place's resource that have other names.
    fn bound_in(
        &self,
        source: usize,
        pointer: &str,
        outer: usize,
    ) -> Result<Vec<usize>, SchemaError> {
        let mut all = Vec::new(self.alloc);
        if let Some(bound) = self.scopes.get(outer) {
            all.extend_from_slice(bound.as_slice())?;
        }
        if let Some(resource) = self.resource(source, pointer) {
            for at in self.sources.dynamic.as_slice() {
                let Some(anchor) = self.sources.anchors.get(*at) else {
                    continue;
                };
                let is_new = self.bound(all.as_slice(), anchor.name.as_str()).is_none();
                if is_new && anchor.is_in(resource) {
                    all.push(*at)?;
                }
            }
        }
        Ok(all)
    }

    /// Returns the first of the positions `anchors` whose anchor has this name, or `None` if no anchor has it.
    fn bound(&self, anchors: &[usize], name: &str) -> Option<usize> {
        for at in anchors {
            if let Some(anchor) = self.sources.anchors.get(*at) {
                if anchor.name.as_str() == name {
                    return Some(*at);
                }
            }
        }
        None
    }

    /// Returns the position in `patterns` of a format's regular expression. Compiles and adds the expression if it is
    /// not there yet.
    pub(crate) fn format(&mut self, pattern: &'static str) -> Result<usize, SchemaError> {
        if let Some(at) = self.formats.get(pattern) {
            return Ok(*at);
        }
        let at = self.patterns.len();
        let text = expanded(self.alloc, pattern)?;
        let Ok(regex) = Regex::new(self.alloc, text.as_str()) else {
            return Err(SchemaError::OutOfMemory);
        };
        self.patterns.push(regex)?;
        let _none = self.formats.insert(pattern, at)?;
        Ok(at)
    }

    /// Returns the index of the compiled form of `value`, the subschema that is the value of `keyword` in the schema
    /// `site`, or that has the name or position `step` in this value. Fails like `node`.
    pub(crate) fn under(
        &mut self,
        site: &Site<'v, 'a>,
        keyword: &str,
        step: Option<&str>,
        value: &'v Json<'a>,
    ) -> Result<usize, SchemaError> {
        let mut pointer = with_step(self.alloc, site.pointer.as_str(), keyword)?;
        if let Some(step) = step {
            push_step(&mut pointer, step)?;
        }
        self.node(value, site.source, pointer.as_str(), site.scope, false)
    }

    /// Resolves a reference in the schema `site`, as `joined` does.
    fn resolved(&self, site: &Site<'v, 'a>, reference: &str) -> Result<Option<Url>, AllocError> {
        let base = match self.resource(site.source, site.pointer.as_str()) {
            Some(resource) => resource.address.as_str(),
            None => "",
        };
        joined(self.alloc, base, reference)
    }

    /// Returns the place that a reference in the schema `site` names. Returns `None` and adds an error if the reference
    /// is not a URL, or if the named document or anchor does not exist.
    fn target(
        &mut self,
        site: &Site<'v, 'a>,
        keyword: &str,
        reference: &str,
    ) -> Result<Option<Target>, SchemaError> {
        let alloc = self.alloc;
        let Some(url) = self.resolved(site, reference)? else {
            self.complain(site, &[keyword], "this is not a URL", true)?;
            return Ok(None);
        };
        let fragment = decoded(alloc, url.fragment().unwrap_or(""))?;
        let address = without_fragment(url.as_str());
        if let Some(target) = self.target_in(address, fragment.as_str())? {
            return Ok(Some(target));
        }
        let message = format!(in alloc; "there is no `{reference}`")?;
        let pointer = site.pointer.as_str();
        let mut flaw = self
            .sources
            .flaw(site.source, pointer, &[keyword], message.as_str())?;
        if self.sources.find(address).is_none() {
            flaw.missing.push_str(url.as_str())?;
        }
        push_flaw(&mut self.sources.errors, flaw)?;
        Ok(None)
    }

    /// Returns the place that `fragment`, a JSON pointer or the name of an anchor, names in the resource at `address`.
    /// Returns `None` if the resource or the anchor does not exist.
    fn target_in(&self, address: &str, fragment: &str) -> Result<Option<Target>, SchemaError> {
        let alloc = self.alloc;
        let Some(resource) = self.sources.find(address) else {
            return Ok(None);
        };
        let is_pointer = fragment.starts_with("/");
        let anchor = if is_pointer {
            None
        } else {
            self.sources.anchor(resource, fragment)
        };
        if !fragment.is_empty() && !is_pointer {
            return self.anchored(anchor);
        }
        let mut pointer = String::from_str(alloc, resource.pointer.as_str())?;
        pointer.push_str(fragment)?;
        Ok(Some(Target {
            source: resource.source,
            pointer,
            anchor,
        }))
    }

    /// Returns the place of the anchor at the position `at`, or `None` if `at` is `None` or too large.
    fn anchored(&self, at: Option<usize>) -> Result<Option<Target>, SchemaError> {
        let Some(position) = at else {
            return Ok(None);
        };
        let Some(anchor) = self.sources.anchors.get(position) else {
            return Ok(None);
        };
        Ok(Some(Target {
            source: anchor.source,
            pointer: String::from_str(self.alloc, anchor.pointer.as_str())?,
            anchor: at,
        }))
    }

    /// Returns the index of the compiled form of the schema that `text`, the value of `keyword` in the schema `site`,
    /// names. If `keyword` is not `$ref`, and `text` names a dynamic anchor, and the scope of `site` has an anchor with
    /// the same name, the result is the schema of the anchor in the scope. Returns `None` and adds an error if the
    /// named schema does not exist. Fails like `node`.
    pub(crate) fn reference(
        &mut self,
        site: &Site<'v, 'a>,
        keyword: &str,
        text: &str,
    ) -> Result<Option<usize>, SchemaError> {
        let Some(mut target) = self.target(site, keyword, text)? else {
            return Ok(None);
        };
        if keyword != "$ref" {
            if let Some(bound) = self.anchored(self.first_bound(site, &target))? {
                target = bound;
            }
        }
        let node = self.node_at(target.source, target.pointer.as_str(), site.scope)?;
        if node.is_none() {
            let (alloc, pointer) = (self.alloc, target.pointer.as_str());
            let message = format!(in alloc; "there is no `{pointer}`")?;
            self.complain(site, &[keyword], message.as_str(), true)?;
        }
        Ok(node)
    }

    /// Returns the position of the anchor in the scope of `site` that has the same name as the dynamic anchor of
    /// `target`. Returns `None` if `target` has no dynamic anchor, or if the scope has no anchor with this name.
    fn first_bound(&self, site: &Site<'v, 'a>, target: &Target) -> Option<usize> {
        let at = target.anchor?;
        let anchor = self.sources.anchors.get(at)?;
        if !self.sources.dynamic.contains(&at) {
            return None;
        }
        let scope = self.scopes.get(site.scope)?;
        self.bound(scope.as_slice(), anchor.name.as_str())
    }
}
