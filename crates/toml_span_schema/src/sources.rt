//! The documents of a schema, with the addresses and anchors inside them.
ghost use Rattle.std.specs.Prelude.{◌≡◌};
ghost use Rattle.json.specs.Find.{get};
ghost use Rattle.json.specs.Value.{value_view};
ghost use Rattle.toml_span_schema.specs.Agrees.{is_true};

use crate::error::{Flaw, SchemaError};
use crate::keywords::{
    ASSERTING, FORMATS, TYPES, Want, chosen, expected_text, fits, found_text, has_word, is_keyword,
    part_of, want_of,
};
use crate::pointers::{pointed, push_step, with_step};
use json::Value as Json;
use percent_encoding::{DecodeError, percent_decode};
use std::alloc::{AllocError, Global};
use std::collections::{BTreeMap, BTreeSet};
use toml_span_report::nearest;
use url::{ParseError, Url};

/// Compiling fails if a document has this many schemas, or if this many schemas must be compiled.
pub(crate) const MOST_SCHEMAS: usize = 1_000_000;

/// The limit that a schema with too many schemas exceeds.
pub(crate) const TOO_MANY: &str = "it has more than 1,000,000 schemas";

/// The maximum number of errors, of warnings, and of different unknown words that are compared with known ones.
const MOST_FLAWS: usize = 100;

/// The keywords that define anchors, and whether these are dynamic.
const ANCHORS: [(&str, bool); 5] = [
    ("id", false),
    ("$id", false),
    ("$anchor", false),
    ("$dynamicAnchor", true),
    ("$recursiveAnchor", true),
];

/// The rules by which the keywords of a schema are read.
#[derive(Clone, Copy)]
pub(crate) struct Dialect {
    /// The number of the draft or, for a draft that is named by its year, the end of the year: 4, 6, 7, 19 or 20.
    pub(crate) draft: u8,
    /// Whether the keywords of the validation vocabulary are used.
    pub(crate) validates: bool,
}

impl Dialect {
    /// The dialect of a schema that names none.
    pub(crate) const LATEST: Dialect = Dialect {
        draft: 20,
        validates: true,
    };
}

/// A parsed JSON document with its address.
#[derive(Drop)]
pub(crate) struct Source<'v, 'a> {
    pub(crate) address: String,
    pub(crate) value: &'v Json<'a>,
}

/// A schema with an address of its own, at the JSON pointer `pointer` in the document at the position `source`.
#[derive(Drop)]
pub(crate) struct Resource {
    pub(crate) source: usize,
    pub(crate) pointer: String,
    pub(crate) address: String,
    pub(crate) dialect: Dialect,
}

/// An anchor: a name for a schema, which is valid within one resource. `source` is the index of its document in
/// `Sources::documents`.
#[derive(Drop)]
pub(crate) struct Anchor {
    pub(crate) source: usize,
    /// The JSON pointer to the resource. The anchor's schema is at `pointer`.
    pub(crate) base: String,
    pub(crate) name: String,
    pub(crate) pointer: String,
}

impl Anchor {
    /// Returns whether the anchor belongs to a resource.
    pub(crate) fn is_in(&self, resource: &Resource) -> bool {
        self.source == resource.source && self.base.as_str() == resource.pointer.as_str()
    }
}

/// The documents with their resources and anchors, and what is wrong with them.
#[derive(Drop)]
pub(crate) struct Sources<'v, 'a> {
    alloc: Global,
    pub(crate) documents: Vec<Source<'v, 'a>>,
    pub(crate) resources: Vec<Resource>,
    pub(crate) anchors: Vec<Anchor>,
    /// The positions in `anchors` of the dynamic ones.
    pub(crate) dynamic: Vec<usize>,
    /// Schemas by the position of their document, a space, and their JSON pointer.
    schemas: BTreeMap<String, &'v Json<'a>>,
    pub(crate) errors: Vec<Flaw>,
    pub(crate) warnings: Vec<Flaw>,
    /// The unknown keywords and formats so far.
    unknown: BTreeSet<String>,
}

/// A value that fits `want`, its place, and the position of the resource around it.
#[derive(Drop)]
struct Visit<'v, 'a> {
    want: Want,
    value: &'v Json<'a>,
    source: usize,
    pointer: String,
    resource: usize,
    /// Whether schemas in the value may have addresses and anchors.
    has_names: bool,
}

/// Returns an address without its scheme `http` or `https` and without an empty fragment.
fn without_scheme(address: &str) -> &str {
    let address = address.strip_suffix("#").unwrap_or(address);
    let rest = address.strip_prefix("https://");
    rest.unwrap_or(address.strip_prefix("http://").unwrap_or(address))
}

/// Returns the draft that `address`, the value of `$schema`, names, or `None` if the draft is unknown.
fn draft_of(address: &str) -> Option<u8> {
    match without_scheme(address) {
        "json-schema.org/draft-04/schema" => Some(4),
        "json-schema.org/draft-06/schema" => Some(6),
        "json-schema.org/draft-07/schema" => Some(7),
        "json-schema.org/draft/2019-09/schema" => Some(19),
        "json-schema.org/draft/2020-12/schema" => Some(20),
        _ => None,
    }
}

/// Resolves a reference against the address `base`. Returns `None` if `base` or the result is not a URL.
pub(crate) fn joined(
    alloc: Global,
    base: &str,
    reference: &str,
) -> Result<Option<Url>, AllocError> {
    let found = match Url::parse(alloc, base) {
        Ok(base) => base.join(reference),
        Err(error) => Err(error),
    };
    match found {
        Ok(url) => Ok(Some(url)),
        Err(ParseError::OutOfMemory) => Err(AllocError),
        Err(_) => Ok(None),
    }
}

/// Returns an address without its fragment.
pub(crate) fn without_fragment(address: &str) -> &str {
    match address.split_once("#") {
        Some((front, _)) => front,
        None => address,
    }
}

/// Returns a fragment with its percent escapes decoded, or unchanged if the result is not UTF-8.
pub(crate) fn decoded(alloc: Global, fragment: &str) -> Result<String, AllocError> {
    match percent_decode(fragment.as_bytes()).decode_utf8(alloc) {
        Ok(text) => String::from_str(alloc, text.as_ref()),
        Err(DecodeError::OutOfMemory) => Err(AllocError),
        Err(_) => String::from_str(alloc, fragment),
    }
}

/// Returns the string in the member `name`, or `None` if the member is missing or not a string.
pub(crate) fn text_of<'v, 'a>(value: &'v Json<'a>, name: &str) -> Option<&'a str> {
    value.get(name)?.as_str()
}

/// Adds a flaw, unless there is one at the same place or there are too many.
pub(crate) fn push_flaw(flaws: &mut Vec<Flaw>, flaw: Flaw) -> Result<(), AllocError> {
    for other in flaws.as_slice() {
        let is_same = other.document.as_str() == flaw.document.as_str();
        if is_same && other.place.as_str() == flaw.place.as_str() {
            return Ok(());
        }
    }
    if flaws.len() < MOST_FLAWS {
        flaws.push(flaw)?;
    }
    Ok(())
}

impl<'v, 'a> Sources<'v, 'a> {
    /// Finds the resources and anchors of the documents, and what is wrong with their keywords. Fails with `TooLarge`
    /// if there are too many schemas.
    pub(crate) fn new(
        alloc: Global,
        documents: Vec<Source<'v, 'a>>,
    ) -> Result<Sources<'v, 'a>, SchemaError> {
        let mut made = Sources {
            alloc,
            documents,
            resources: Vec::new(alloc),
            anchors: Vec::new(alloc),
            dynamic: Vec::new(alloc),
            schemas: BTreeMap::new(alloc),
            errors: Vec::new(alloc),
            warnings: Vec::new(alloc),
            unknown: BTreeSet::new(alloc),
        };
        for source in 0..made.documents.len() {
            made.read_document(source)?;
        }
        Ok(made)
    }

    /// Returns a flaw of the value to which `steps` lead from the JSON pointer `pointer` of the document `source`.
    pub(crate) fn flaw(
        &self,
        source: usize,
        pointer: &str,
        steps: &[&str],
        message: &str,
    ) -> Result<Flaw, AllocError> {
        let alloc = self.alloc;
        let mut place = String::from_str(alloc, pointer)?;
        for step in steps {
            push_step(&mut place, *step)?;
        }
        let document = match self.documents.get(source) {
            Some(document) => document.address.as_str(),
            None => "",
        };
        let base = match self.resources.get(self.resource_at(source, place.as_str())) {
            Some(resource) => resource.address.as_str(),
            None => "",
        };
        Ok(Flaw {
            document: String::from_str(alloc, document)?,
            base: String::from_str(alloc, base)?,
            place,
            message: String::from_str(alloc, message)?,
            help: String::new(alloc),
            missing: String::new(alloc),
        })
    }

    /// Returns the dialect that a schema names by `$schema`, or `other` if the schema names none. If the schema names
    /// neither a known draft nor one of the documents, adds an error, and returns `other`.
    fn dialect(
        &mut self,
        source: usize,
        pointer: &str,
        value: &'v Json<'a>,
        other: Dialect,
    ) -> Result<Dialect, AllocError> {
        let Some(address) = text_of(value, "$schema") else {
            return Ok(other);
        };
        if let Some(draft) = draft_of(address) {
            return Ok(Dialect {
                draft,
                validates: true,
            });
        }
        for document in self.documents.as_slice() {
            if document.address.as_str() == without_fragment(address) {
                return Ok(own_dialect(document.value, other));
            }
        }
        let alloc = self.alloc;
        let is_metaschema = without_scheme(address).starts_with("json-schema.org/");
        let message = if is_metaschema {
            format!(in alloc;
                "`{address}` is not supported, only drafts 4, 6, 7, 2019-09 and 2020-12"
            )?
        } else {
            format!(in alloc; "there is no `{address}`")?
        };
        let mut flaw = self.flaw(source, pointer, &["$schema"], message.as_str())?;
        if !is_metaschema {
            flaw.missing.push_str(address)?;
        }
        push_flaw(&mut self.errors, flaw)?;
        Ok(other)
    }

    /// Adds the resources and anchors of the document at the position `source`, and what is wrong with its keywords.
    /// Fails like `new`.
    fn read_document(&mut self, source: usize) -> Result<(), SchemaError> {
        let Some(document) = self.documents.get(source) else {
            return Ok(());
        };
        let value = document.value;
        let address = String::from_str(self.alloc, document.address.as_str())?;
        let dialect = self.dialect(source, "", value, Dialect::LATEST)?;
        let resource = self.resources.len();
        let pointer = String::new(self.alloc);
        self.resources.push(Resource {
            source,
            pointer,
            address,
            dialect,
        })?;
        self.walk(value, source, "", resource, true)
    }

    /// Checks the keywords of a schema that no keyword contains, and of its subschemas. Does nothing if a keyword
    /// contains the schema, which is at the JSON pointer `pointer` of the document `source`. Fails like `new`.
    pub(crate) fn read_hidden(
        &mut self,
        source: usize,
        pointer: &str,
        value: &'v Json<'a>,
    ) -> Result<(), SchemaError> {
        let resource = self.resource_at(source, pointer);
        let draft = self.draft_in(resource);
        let mut want = Some(Want::Schema);
        for step in pointer.split('/').skip(1) {
            want = match want {
                Some(Want::Schema) => want_of(step, draft),
                Some(Want::Items) => Some(Want::Schema),
                Some(want) => part_of(want),
                None => None,
            };
        }
        if matches!(want, Some(Want::Schema | Want::Items | Want::Dependency)) {
            return Ok(());
        }
        self.walk(value, source, pointer, resource, false)
    }

    /// Returns the draft of a resource.
    fn draft_in(&self, resource: usize) -> u8 {
        match self.resources.get(resource) {
            Some(resource) => resource.dialect.draft,
            None => 20,
        }
    }

    /// Visits a schema and the values inside it, as `visit` does. The parameters are as in `Visit`. Fails like `new`.
    fn walk(
        &mut self,
        value: &'v Json<'a>,
        source: usize,
        pointer: &str,
        resource: usize,
        has_names: bool,
    ) -> Result<(), SchemaError> {
        let mut visits = Vec::new(self.alloc);
        visits.push(Visit {
            want: Want::Schema,
            value,
            source,
            pointer: String::from_str(self.alloc, pointer)?,
            resource,
            has_names,
        })?;
        for _step in 0..MOST_SCHEMAS {
            let Some(visit) = visits.pop() else {
                return Ok(());
            };
            self.visit(visit, &mut visits)?;
        }
        Err(SchemaError::TooLarge { limit: TOO_MANY })
    }

    /// Adds the resource and the anchors that a schema defines, and what is wrong with the elements or members of a
    /// value. Adds those elements and members to `visits` that have parts themselves. Fails like `new`.
    fn visit(
        &mut self,
        mut visit: Visit<'v, 'a>,
        visits: &mut Vec<Visit<'v, 'a>>,
    ) -> Result<(), SchemaError> {
        let (alloc, value) = (self.alloc, visit.value);
        match value {
            Json::Object(members) => {
                let is_schema = matches!(visit.want, Want::Schema);
                if is_schema && visit.has_names {
                    let (source, pointer) = (visit.source, visit.pointer.as_str());
                    let key = format!(in alloc; "{source} {pointer}")?;
                    let _other = self.schemas.insert(key, value)?;
                    visit.resource = self.read_address(&visit)?;
                    self.read_anchors(&visit)?;
                }
                for member in members.as_slice() {
                    let want = if is_schema {
                        self.want_in(&visit, member.0, &member.1)?
                    } else {
                        part_of(visit.want)
                    };
                    self.push_visit(&visit, member.0, want, &member.1, visits)?;
                }
            }
            Json::Array(items) => {
                for (i, item) in items.as_slice().iter().enumerate() {
                    let step = format!(in alloc; "{i}")?;
                    let want = part_of(visit.want);
                    self.push_visit(&visit, step.as_str(), want, item, visits)?;
                }
            }
            _ => {}
        }
        Ok(())
    }

    /// Adds an error if a value is not what `want` says. Otherwise adds the value to `visits` if it has parts. `step`
    /// is its name or position in `outer`. Does nothing if `want` is `None`.
    fn push_visit(
        &mut self,
        outer: &Visit<'v, 'a>,
        step: &str,
        want: Option<Want>,
        value: &'v Json<'a>,
        visits: &mut Vec<Visit<'v, 'a>>,
    ) -> Result<(), SchemaError> {
        let Some(want) = want else {
            return Ok(());
        };
        let want = chosen(want, value);
        let is_right = fits(self.alloc, want, value)?;
        if is_right && !matches!(want, Want::Schema) && part_of(want).is_none() {
            return Ok(());
        }
        let pointer = with_step(self.alloc, outer.pointer.as_str(), step)?;
        if is_right {
            visits.push(Visit {
                want,
                value,
                source: outer.source,
                pointer,
                resource: outer.resource,
                has_names: outer.has_names,
            })?;
            return Ok(());
        }
        self.refuse_value(outer.source, pointer.as_str(), want, value)
    }

    /// Adds the error that a value at a place is not what `want` says.
    pub(crate) fn refuse_value(
        &mut self,
        source: usize,
        pointer: &str,
        want: Want,
        value: &Json<'_>,
    ) -> Result<(), SchemaError> {
        let alloc = self.alloc;
        let (expected, found) = (expected_text(want), found_text(alloc, value)?);
        let message = format!(in alloc; "expected {expected}, found {found}")?;
        let mut flaw = self.flaw(source, pointer, &[], message.as_str())?;
        if let (Want::TypeName, Some(word)) = (want, value.as_str()) {
            flaw.help = meant_help(alloc, word, TYPES)?.unwrap_or(String::new(alloc));
        }
        push_flaw(&mut self.errors, flaw)?;
        Ok(())
    }

    /// Returns what the value of the keyword `name` of a schema must be, or `None` if its draft has no such keyword.
    /// Adds a warning if the keyword, or the format that `value` names, is unknown and near to a known one.
    fn want_in(
        &mut self,
        visit: &Visit<'v, 'a>,
        name: &str,
        value: &Json<'_>,
    ) -> Result<Option<Want>, AllocError> {
        if name == "format" {
            if let Some(format) = value.as_str() {
                self.warn_unknown(visit, name, ("format", format), FORMATS)?;
            }
        } else if !is_keyword(name) {
            self.warn_unknown(visit, name, ("keyword", name), ASSERTING)?;
        }
        let (alloc, draft) = (self.alloc, self.draft_in(visit.resource));
        let want = want_of(name, draft);
        let is_old = name == "dependencies" && draft >= 19;
        let is_unused = (want.is_none() || is_old) && is_keyword(name);
        if is_unused
            && has_word(ASSERTING, name)
            && self.unknown.insert(String::from_str(alloc, name)?)?
        {
            let message = format!(in alloc; "not checked: this draft has no keyword `{name}`")?;
            let pointer = visit.pointer.as_str();
            let flaw = self.flaw(visit.source, pointer, &[name], message.as_str())?;
            push_flaw(&mut self.warnings, flaw)?;
        }
        Ok(want)
    }

    /// Adds a warning if the word `word.1`, which is a `word.0`, is not among the words `known`, but near to one of
    /// them, and has not been seen yet. `name` is the keyword in the schema of `visit`.
    fn warn_unknown(
        &mut self,
        visit: &Visit<'v, 'a>,
        name: &str,
        word: (&str, &str),
        known: &'static str,
    ) -> Result<(), AllocError> {
        let (alloc, (kind, word)) = (self.alloc, word);
        if self.unknown.len() >= MOST_FLAWS || has_word(known, word) {
            return Ok(());
        }
        if !self.unknown.insert(String::from_str(alloc, word)?)? {
            return Ok(());
        }
        if let Some(help) = meant_help(alloc, word, known)? {
            let message = format!(in alloc; "unknown {kind} `{word}`, which is not checked")?;
            let pointer = visit.pointer.as_str();
            let mut flaw = self.flaw(visit.source, pointer, &[name], message.as_str())?;
            flaw.help = help;
            push_flaw(&mut self.warnings, flaw)?;
        }
        Ok(())
    }

    /// Adds a resource if a schema has an address of its own. Returns the position of the innermost resource that
    /// contains the schema. Fails like `new`.
    fn read_address(&mut self, visit: &Visit<'v, 'a>) -> Result<usize, SchemaError> {
        let Some(outer) = self.resources.get(visit.resource) else {
            return Ok(visit.resource);
        };
        let (alloc, source, pointer) = (self.alloc, visit.source, visit.pointer.as_str());
        let (draft, other) = (outer.dialect.draft, outer.dialect);
        let keyword = if draft == 4 { "id" } else { "$id" };
        let Some(id) = text_of(visit.value, keyword) else {
            return Ok(visit.resource);
        };
        if draft <= 7 && (id.starts_with("#") || visit.value.get("$ref").is_some()) {
            return Ok(visit.resource);
        }
        let Some(url) = joined(alloc, outer.address.as_str(), id)? else {
            let flaw = self.flaw(source, pointer, &[keyword], "this is not a URL")?;
            push_flaw(&mut self.errors, flaw)?;
            return Ok(visit.resource);
        };
        let address = String::from_str(alloc, without_fragment(url.as_str()))?;
        let dialect = self.dialect(source, pointer, visit.value, other)?;
        let made = self.resources.len();
        self.resources.push(Resource {
            source,
            pointer: String::from_str(alloc, pointer)?,
            address,
            dialect,
        })?;
        Ok(made)
    }

    /// Adds the anchors that a schema defines.
    fn read_anchors(&mut self, visit: &Visit<'v, 'a>) -> Result<(), AllocError> {
        let Some(resource) = self.resources.get(visit.resource) else {
            return Ok(());
        };
        let (alloc, draft) = (self.alloc, resource.dialect.draft);
        for (keyword, is_dynamic) in ANCHORS {
            let Some(name) = anchor_in(draft, keyword, visit.value) else {
                continue;
            };
            if is_dynamic {
                self.dynamic.push(self.anchors.len())?;
            }
            self.anchors.push(Anchor {
                source: resource.source,
                base: String::from_str(alloc, resource.pointer.as_str())?,
                name: String::from_str(alloc, name)?,
                pointer: String::from_str(alloc, visit.pointer.as_str())?,
            })?;
        }
        Ok(())
    }

    /// Returns the position of the innermost resource that contains the place `pointer` of the document `source`.
    /// Returns 0 if no resource contains the place.
    pub(crate) fn resource_at(&self, source: usize, pointer: &str) -> usize {
        let mut best = 0;
        let mut length = 0;
        for (i, resource) in self.resources.as_slice().iter().enumerate() {
            let size = resource.pointer.len();
            if resource.source == source
                && size >= length
                && is_within(pointer, resource.pointer.as_str())
            {
                best = i;
                length = size;
            }
        }
        best
    }

    /// Returns the value at the place `pointer` of the document `source`, or `None` if it does not exist.
    pub(crate) fn value_at(
        &self,
        source: usize,
        pointer: &str,
    ) -> Result<Option<&'v Json<'a>>, AllocError> {
        let key = format!(in self.alloc; "{source} {pointer}")?;
        if let Some(value) = self.schemas.get(key.as_str()) {
            return Ok(Some(*value));
        }
        match self.documents.get(source) {
            Some(document) => pointed(self.alloc, document.value, pointer),
            None => Ok(None),
        }
    }

    /// Returns the first resource with this address, or `None` if no resource has it.
    pub(crate) fn find(&self, address: &str) -> Option<&Resource> {
        for resource in self.resources.as_slice() {
            if resource.address.as_str() == address {
                return Some(resource);
            }
        }
        None
    }

    /// Returns the position of the first anchor with this name in a resource, or `None` if it does not exist.
    pub(crate) fn anchor(&self, resource: &Resource, name: &str) -> Option<usize> {
        for (i, anchor) in self.anchors.as_slice().iter().enumerate() {
            if anchor.is_in(resource) && anchor.name.as_str() == name {
                return Some(i);
            }
        }
        None
    }
}

/// Returns the help that names the nearest of the words in `known`, which are separated by spaces, if one is near
/// enough.
fn meant_help(alloc: Global, word: &str, known: &str) -> Result<Option<String>, AllocError> {
    let mut words = Vec::new(alloc);
    for other in known.split(' ') {
        words.push(other)?;
    }
    match nearest(alloc, word, words.as_slice())? {
        Some(meant) => Ok(Some(format!(in alloc; "did you mean `{meant}`?")?)),
        None => Ok(None),
    }
}

/// Returns whether the member `name` of a value is `true`.
pub(crate) fn is_true(value: &Json<'_>, name: &str) -> bool
    ensures { result ≡ is_true (get name.now (value_view value.now)) }
{
    matches!(value.get(name), Some(Json::Bool(true)))
}

/// Returns the name of the anchor that `keyword` of a schema defines in this draft, or `None` if it defines no anchor.
/// The name is empty for `$recursiveAnchor`.
fn anchor_in<'v, 'a>(draft: u8, keyword: &str, schema: &'v Json<'a>) -> Option<&'a str> {
    let text = text_of(schema, keyword);
    match keyword {
        "id" if draft == 4 => text?.strip_prefix("#"),
        "$id" if draft > 4 && draft <= 7 => text?.strip_prefix("#"),
        "$anchor" if draft >= 19 => text,
        "$dynamicAnchor" if draft == 20 => text,
        "$recursiveAnchor" if draft == 19 && is_true(schema, keyword) => Some(""),
        _ => None,
    }
}

/// Returns whether the place `pointer` is `outer` or inside `outer`.
fn is_within(pointer: &str, outer: &str) -> bool {
    match pointer.strip_prefix(outer) {
        Some(rest) => rest.is_empty() || rest.starts_with("/"),
        None => false,
    }
}

/// Returns the dialect that a metaschema describes. The draft is that of `other` if the metaschema names no known
/// draft.
fn own_dialect(metaschema: &Json<'_>, other: Dialect) -> Dialect {
    let draft = match text_of(metaschema, "$schema") {
        Some(address) => draft_of(address).unwrap_or(other.draft),
        None => other.draft,
    };
    let validates = match metaschema.get("$vocabulary") {
        Some(vocabulary) => {
            vocabulary
                .get("https://json-schema.org/draft/2020-12/vocab/validation")
                .is_some()
                || vocabulary
                    .get("https://json-schema.org/draft/2019-09/vocab/validation")
                    .is_some()
        }
        None => true,
    };
    Dialect { draft, validates }
}
