//! Finds the subschemas that apply to a value, which may be incomplete, for editors.

use crate::applied::{has_key, schemas_for};
use crate::cycles::{Indices, in_place};
use crate::error::CheckError;
use crate::guide::Guide;
use crate::keyword::{Keyword, Types};
use crate::listed::Part;
use crate::notes::Notes;
use crate::schema::Schema;
use std::alloc::{AllocError, Global};
use std::borrow::CowStr;
use toml_span_lex::key::Key;
use toml_span_lex::span::Span;
use toml_span_tree::nodes::Step;
use toml_span_tree::{Value, ValueInner};

/// The maximum number of subschemas that are found for one value. Further subschemas are left out.
const MOST_SUBSCHEMAS: usize = 1_000;

/// The maximum number of subschemas that are tried to choose among alternatives, or between `then` and `else`. After
/// that, all further alternatives are chosen, and `then` rather than `else`.
const MOST_TRIED: u64 = 100_000;

/// Subschemas that apply to a value.
#[derive(Drop)]
pub struct Subschemas {
    /// The indices of the subschemas in `Schema::nodes`, each once.
    nodes: Vec<usize>,
}

/// Kinds of values that subschemas name. Dates and times count as strings.
#[derive(Clone, Copy, Debug, PartialEq, Eq)]
pub struct Kinds {
    pub string: bool,
    pub integer: bool,
    pub float: bool,
    pub boolean: bool,
    pub table: bool,
    pub array: bool,
}

impl Kinds {
    /// No kind.
    pub(crate) const NONE: Kinds = Kinds {
        string: false,
        integer: false,
        float: false,
        boolean: false,
        table: false,
        array: false,
    };

    /// Returns whether no kind is named.
    pub fn is_empty(&self) -> bool {
        *self == Kinds::NONE
    }

    /// Returns an empty value of one of the kinds as TOML, or an empty string (`""`) if there are none.
    pub fn empty_value(&self) -> &'static str {
        if self.string || self.is_empty() {
            "\"\""
        } else if self.table {
            "{}"
        } else if self.array {
            "[]"
        } else if self.boolean {
            "false"
        } else if self.integer {
            "0"
        } else {
            "0.0"
        }
    }

    /// Adds the kinds that the keyword `type` names. A number may be an integer or a float.
    pub(crate) fn add_types(&mut self, types: &Types) {
        self.string |= types.string;
        self.integer |= types.integer | types.number;
        self.float |= types.number;
        self.boolean |= types.boolean;
        self.table |= types.object;
        self.array |= types.array;
    }

    /// Adds the kind of `value` to these kinds. Dates and times count as strings.
    fn add_value(&mut self, value: &Value<'_>) {
        match value.type_str() {
            "integer" => self.integer = true,
            "float" => self.float = true,
            "boolean" => self.boolean = true,
            "table" => self.table = true,
            "array" => self.array = true,
            _ => self.string = true,
        }
    }
}

/// Appends the indices of compiled schemas, except for those that `nodes` has already, until it has `MOST_SUBSCHEMAS`.
fn push_all(nodes: &mut Indices, more: &[usize]) {
    for node in more {
        if nodes.list.len() < MOST_SUBSCHEMAS && !nodes.list.contains(node) {
            nodes.push(*node);
        }
    }
}

/// Returns the verdict in `found`, or true if the check exceeded the limits. If an allocation failed, `nodes` has it.
fn verdict(nodes: &mut Indices, found: Result<bool, CheckError>) -> bool {
    match found {
        Ok(holds) => holds,
        Err(error) => {
            nodes.is_refused |= error == CheckError::OutOfMemory;
            true
        }
    }
}

impl Guide {
    /// Returns the subschemas that apply to the root of a document. `value` is the root as far as it can be read, or
    /// `None` if it can't be read.
    ///
    /// An alternative of `anyOf` or `oneOf` applies if the value fits it. Only `type`, `enum`, `const` and subschemas
    /// that are `false` are checked, for the value and, at any depth, for the values inside it. If the value fits no
    /// alternative, or if `value` is `None`, all alternatives apply. Fails if an allocation fails.
    pub fn subschemas(
        &self,
        alloc: Global,
        value: Option<&Value<'_>>,
    ) -> Result<Subschemas, AllocError> {
        let mut nodes = Indices::new(alloc);
        nodes.push(0);
        self.schema.with_applied(nodes, value)
    }

    /// Returns the subschemas that apply to an entry or element. `outer` has the subschemas of the table or array
    /// around it, and `step` leads from there to the entry or element. `value` is the value of the entry, or the
    /// element. It is `None` if it has not been written yet. Alternatives apply as for `subschemas`. Fails if an
    /// allocation fails.
    pub fn subschemas_inside(
        &self,
        alloc: Global,
        outer: &Subschemas,
        step: Step<'_>,
        value: Option<&Value<'_>>,
    ) -> Result<Subschemas, AllocError> {
        let any = Value::new(ValueInner::Boolean(true));
        let name = match step {
            Step::Key(name) => name,
            Step::Position(_) => "",
        };
        let key = Key {
            name: CowStr::Borrowed(name),
            span: Span::default(),
        };
        let part = match step {
            Step::Key(_) => Part::Member(&key, &any),
            Step::Position(at) => Part::Element(at, &any),
        };
        let nodes = self.schema.inside(outer, part)?;
        self.schema.with_applied(nodes, value)
    }

    /// Returns the notes of each of the subschemas. Fails if an allocation fails.
    pub fn notes_of<'s>(
        &'s self,
        alloc: Global,
        subschemas: &Subschemas,
    ) -> Result<Vec<&'s Notes>, AllocError> {
        let mut notes = Vec::new(alloc);
        for node in subschemas.nodes.as_slice() {
            if let Some(note) = self.notes.get(*node) {
                notes.push(note)?;
            }
        }
        Ok(notes)
    }

    /// Returns the keys in `properties` of the subschemas, sorted, each once. Fails if an allocation fails.
    pub fn keys_of<'s>(
        &'s self,
        alloc: Global,
        subschemas: &Subschemas,
    ) -> Result<Vec<&'s str>, AllocError> {
        let mut keys = self.schema.keys_in(subschemas.nodes.as_slice())?;
        keys.sort()?;
        keys.dedup();
        Ok(keys)
    }

    /// Returns whether `required` in one of the subschemas lists the key `name`.
    pub fn is_required(&self, subschemas: &Subschemas, name: &str) -> bool {
        for node in subschemas.nodes.as_slice() {
            for placed in self.schema.keywords(*node) {
                if let Keyword::Required(names) = &placed.keyword {
                    for other in names.as_slice() {
                        if other.as_str() == name {
                            return true;
                        }
                    }
                }
            }
        }
        false
    }

    /// Returns the kinds of values that `type` in the subschemas names. If `type` names none, returns the kinds that
    /// other keywords are about: tables for `required`, `properties`, `patternProperties` and `additionalProperties`,
    /// arrays for `items` and `prefixItems`, and the kinds of the values of `enum` and `const`.
    pub fn kinds_of(&self, subschemas: &Subschemas) -> Kinds {
        let mut named = Kinds::NONE;
        let mut implied = Kinds::NONE;
        for node in subschemas.nodes.as_slice() {
            for placed in self.schema.keywords(*node) {
                match &placed.keyword {
                    Keyword::Type(types) => named.add_types(types),
                    Keyword::Properties(_, _, _) | Keyword::Required(_) => implied.table = true,
                    Keyword::Items(_, _) => implied.array = true,
                    _ => {}
                }
            }
            if let Some(note) = self.notes.get(*node) {
                for value in &note.values {
                    implied.add_value(value);
                }
            }
        }
        if named.is_empty() { implied } else { named }
    }
}

impl Schema {
    /// Returns the keys in `properties` of the schemas at the indices `nodes`.
    fn keys_in<'s>(&'s self, nodes: &[usize]) -> Result<Vec<&'s str>, AllocError> {
        let mut keys: Vec<&'s str> = Vec::new(self.alloc());
        for node in nodes {
            for placed in self.keywords(*node) {
                if let Keyword::Properties(named, _, _) = &placed.keyword {
                    for (name, _) in named.iter() {
                        keys.push(name.as_str())?;
                    }
                }
            }
        }
        Ok(keys)
    }

    /// Returns the keys in `properties` of the schemas at the indices `nodes`, and of all schemas that they may apply
    /// to the same value.
    pub(crate) fn known_keys<'s>(&'s self, nodes: &[usize]) -> Result<Vec<&'s str>, AllocError> {
        let alloc = self.alloc();
        let mut all = Indices::new(alloc);
        all.push_all(nodes);
        for at in 0..MOST_SUBSCHEMAS {
            let Some(at) = all.list.get(at).copied() else {
                break;
            };
            if let Some(node) = self.nodes.get(at) {
                let more = in_place(alloc, node)?;
                push_all(&mut all, more.as_slice());
            }
        }
        let all = all.finish()?;
        self.keys_in(all.as_slice())
    }

    /// Returns the schemas at the indices `nodes`, and the schemas that they apply to the same value, such as those in
    /// `allOf`. Returns at most `MOST_SUBSCHEMAS` schemas. `value` is as for `subschemas`.
    fn with_applied(
        &self,
        mut nodes: Indices,
        value: Option<&Value<'_>>,
    ) -> Result<Subschemas, AllocError> {
        let mut left = MOST_TRIED;
        for at in 0..MOST_SUBSCHEMAS {
            let Some(node) = nodes.list.get(at).copied() else {
                break;
            };
            for placed in self.keywords(node) {
                self.push_applied(&mut left, &placed.keyword, value, &mut nodes);
            }
        }
        let nodes = nodes.finish()?;
        Ok(Subschemas { nodes })
    }

    /// Appends to `nodes` the indices of the subschemas that a keyword applies to the value itself. Takes 1 from `left`
    /// for each subschema that is tried. Between `then` and `else`, chooses `then` if the check exceeds the limits, and
    /// both if `value` is `None`.
    fn push_applied(
        &self,
        left: &mut u64,
        keyword: &Keyword,
        value: Option<&Value<'_>>,
        nodes: &mut Indices,
    ) {
        match keyword {
            Keyword::AllOf(list) => push_all(nodes, list.as_slice()),
            Keyword::AnyOf(list) | Keyword::OneOf(list) => {
                self.push_fitting(left, list.as_slice(), value, nodes);
            }
            Keyword::If(condition, yes, no) => {
                let mut holds = true;
                if let Some(value) = value {
                    let found = self.is_valid(left, self.depth, *condition, value);
                    holds = verdict(nodes, found);
                }
                if holds {
                    push_all(nodes, yes.as_slice());
                }
                if !holds || value.is_none() {
                    push_all(nodes, no.as_slice());
                }
            }
            Keyword::DependentSchemas(entries) => {
                if let Some(value) = value {
                    for entry in entries.as_slice() {
                        if has_key(value, entry.0.as_str()) {
                            push_all(nodes, &[entry.1]);
                        }
                    }
                }
            }
            _ => {}
        }
    }

    /// Appends to `nodes` the schemas in `list`, given by their indices, for which `may_fit` accepts the value or
    /// exceeds the limits. Appends the whole `list` if `may_fit` rejects the value for all of them, or if `value` is
    /// `None`.
    fn push_fitting(
        &self,
        left: &mut u64,
        list: &[usize],
        value: Option<&Value<'_>>,
        nodes: &mut Indices,
    ) {
        let mut is_any = false;
        if let Some(value) = value {
            for node in list {
                let found = self.may_fit(left, *node, value);
                if verdict(nodes, found) {
                    push_all(nodes, &[*node]);
                    is_any = true;
                }
            }
        }
        if !is_any {
            push_all(nodes, list);
        }
    }

    /// Returns the subschemas that the keywords of the schemas `outer` apply to `part`, an entry or element (see
    /// `schemas_for`). If there are none, returns those of `unevaluatedProperties` or, for an element, of
    /// `unevaluatedItems`.
    fn inside(&self, outer: &Subschemas, part: Part<'_, '_>) -> Result<Indices, AllocError> {
        let mut nodes = Indices::new(self.alloc());
        let mut unevaluated = Indices::new(self.alloc());
        for node in outer.nodes.as_slice() {
            for placed in self.keywords(*node) {
                let found = schemas_for(self, &placed.keyword, part)?;
                push_all(&mut nodes, found.as_slice());
                match (&placed.keyword, part) {
                    (Keyword::UnevaluatedProperties(_, node), Part::Member(_, _))
                    | (Keyword::UnevaluatedItems(_, node), Part::Element(_, _)) => {
                        push_all(&mut unevaluated, &[*node]);
                    }
                    _ => {}
                }
            }
        }
        let is_none = nodes.list.is_empty() && !nodes.is_refused;
        Ok(if is_none { unevaluated } else { nodes })
    }

    /// Returns whether a value may become valid against the schema at index `node` if more keys are added to it: no
    /// type, constant or key is wrong. Fails like `is_valid`.
    fn may_fit<'s, 'v, 'de>(
        &'s self,
        left: &mut u64,
        node: usize,
        value: &'v Value<'de>,
    ) -> Result<bool, CheckError> {
        let walk = self.walked(left, node, value)?;
        for one in walk.violations.as_slice() {
            if one.is_unlisted() || one.is_never() {
                return Ok(false);
            }
        }
        Ok(true)
    }
}
