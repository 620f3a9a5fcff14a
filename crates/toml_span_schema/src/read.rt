//! Reads the keywords of a schema object. The functions that return nothing append what they find to `Site::keywords`.

use crate::agrees::count_or;
use crate::canonical::canonical;
use crate::compile::{Compiler, Site};
use crate::decimal::count_in;
use crate::error::SchemaError;
use crate::formats::format_of;
use crate::keyword::{Keyword, Node, Placed, Types};
use crate::keywords::{Want, want_of};
use crate::notes::text_in;
use crate::numbers::Decimal;
use crate::patterns::{compile_pattern, unsupported};
use crate::sources::{is_true, text_of};
use json::Value as Json;
use regex::Error;
use std::alloc::{AllocError, Global};
use std::borrow::CowStr;
use std::collections::{BTreeMap, BTreeSet};
use std::slice;
use toml_span_lex::key::Key;
use toml_span_lex::span::Span;
use toml_span_report::visible::push_quoted;
use toml_span_tree::{FloatText, Value, ValueInner};

/// More levels than a value in a schema can have, since schemas nest at most 128 levels deep.
pub(crate) const DEPTH: usize = 130;

/// The keywords without subschemas, except references, in the order in which they are checked.
const ASSERTIONS: &str =
    "type enum const minimum exclusiveMinimum maximum exclusiveMaximum multipleOf minLength maxLength minItems \
    maxItems minProperties maxProperties uniqueItems pattern required dependentRequired format";

impl<'v, 'a> Site<'v, 'a> {
    /// Appends a keyword with its name and, for messages, the value of `source` in the schema.
    fn put(
        &mut self,
        name: &'static str,
        source: &str,
        keyword: Keyword,
    ) -> Result<(), AllocError> {
        let alloc = *self.keywords.allocator();
        let shown = match self.value.get(source) {
            Some(value) => shown(alloc, value, false)?,
            None => String::new(alloc),
        };
        self.keywords.push(Placed {
            keyword,
            name,
            shown,
        })?;
        Ok(())
    }
}

/// Returns a value as messages show it. Of other values than constants, only numbers, strings and booleans are shown,
/// numbers and strings without quotes.
fn shown(alloc: Global, value: &Json<'_>, is_constant: bool) -> Result<String, AllocError> {
    match value {
        Json::Number(text) if !is_constant => String::from_str(alloc, *text),
        Json::Number(text) => format!(in alloc; "`{text}`"),
        Json::Bool(truth) => format!(in alloc; "`{truth}`"),
        Json::String(text) if !is_constant => format!(in alloc; "`{text}`"),
        Json::String(text) => {
            let mut out = String::from_str(alloc, "`")?;
            push_quoted(alloc, &mut out, *text)?;
            out.push('`')?;
            Ok(out)
        }
        Json::Array(_) if is_constant => String::from_str(alloc, "a specific array"),
        Json::Object(_) if is_constant => String::from_str(alloc, "a specific table"),
        Json::Null | Json::Array(_) | Json::Object(_) => Ok(String::new(alloc)),
    }
}

/// Returns the types that `value`, the value of `type`, names. Leaves out what is not the name of a type.
fn types_in(value: &Json<'_>, draft: u8) -> Types {
    let names = match value {
        Json::Array(names) => names.as_slice(),
        _ => slice::from_ref(value),
    };
    let mut types = Types::NONE;
    for name in names {
        match name.as_str().unwrap_or("") {
            "boolean" => types.boolean = true,
            "object" => types.object = true,
            "array" => types.array = true,
            "string" => types.string = true,
            "number" => types.number = true,
            "integer" => {
                types.integer = true;
                types.whole = draft > 4;
            }
            _ => {}
        }
    }
    types
}

/// Returns the keyword for the values of `enum`, or for the value of `const`. Constants that are or contain `null` are
/// left out.
fn constants(alloc: Global, list: &[Json<'_>]) -> Result<Keyword, SchemaError> {
    let mut values = BTreeSet::new(alloc);
    let mut words = Vec::new(alloc);
    for value in list {
        if let Some(constant) = to_toml(alloc, value, DEPTH)? {
            let _new = values.insert(canonical(alloc, &constant)?)?;
            words.push(shown(alloc, value, true)?)?;
        }
    }
    Ok(Keyword::Enum(values, words))
}

/// Converts a JSON value to a TOML value. A number becomes an integer if it is written as a 64-bit signed integer,
/// otherwise a float. Returns `None` if the value is or contains `null`, or nests `depth` or more
/// levels deep.
#[cycle(to_toml)]
pub(crate) fn to_toml(
    alloc: Global,
    value: &Json<'_>,
    depth: usize,
) -> Result<Option<Value<'static>>, AllocError> {
    if depth == 0 {
        return Ok(None);
    }
    let inner = match value {
        Json::Null => return Ok(None),
        Json::Bool(truth) => ValueInner::Boolean(*truth),
        Json::Number(text) => match fast_float::parse_i64(text.as_bytes()) {
            Ok(integer) => ValueInner::Integer(integer),
            Err(_) => ValueInner::Float(FloatText::Finite(String::from_str(alloc, *text)?)),
        },
        Json::String(text) => { ValueInner::String(CowStr::Owned(String::from_str(alloc, *text)?)) }
        Json::Array(items) => match elements(alloc, items.as_slice(), depth - 1)? {
            Some(array) => ValueInner::Array(array),
            None => return Ok(None),
        },
        Json::Object(members) => match entries(alloc, members.as_slice(), depth - 1)? {
            Some(table) => ValueInner::Table(table),
            None => return Ok(None),
        },
    };
    Ok(Some(Value::new(inner)))
}

/// Converts the elements of a JSON array to TOML values. Returns `None` if an element is or contains `null`, or nests
/// `depth` or more levels deep.
#[cycle(to_toml)]
fn elements(
    alloc: Global,
    items: &[Json<'_>],
    depth: usize,
) -> Result<Option<Vec<Value<'static>>>, AllocError> {
    let mut list = Vec::new(alloc);
    for item in items {
        match to_toml(alloc, item, depth)? {
            Some(value) => list.push(value)?,
            None => return Ok(None),
        }
    }
    Ok(Some(list))
}

/// Converts the members of a JSON object to entries of a TOML table. Returns `None` if a value is or contains `null`,
/// or nests `depth` or more levels deep.
#[cycle(to_toml)]
fn entries(
    alloc: Global,
    members: &[(&str, Json<'_>)],
    depth: usize,
) -> Result<Option<BTreeMap<Key<'static>, Value<'static>>>, AllocError> {
    let mut table = BTreeMap::new(alloc);
    for member in members {
        let key = Key {
            name: CowStr::Owned(String::from_str(alloc, member.0)?),
            span: Span::default(),
        };
        match to_toml(alloc, &member.1, depth)? {
            Some(value) => drop(table.insert(key, value)?),
            None => return Ok(None),
        }
    }
    Ok(Some(table))
}

/// Returns the keyword that limits numbers and has this name.
fn bound(name: &str, limit: Decimal) -> Keyword {
    match name {
        "minimum" => Keyword::Minimum(limit),
        "maximum" => Keyword::Maximum(limit),
        "exclusiveMinimum" => Keyword::ExclusiveMinimum(limit),
        _ => Keyword::ExclusiveMaximum(limit),
    }
}

/// Returns the keyword that limits a length or a number of things and has this name.
fn size_limit(name: &str, limit: u64) -> Keyword {
    match name {
        "minLength" => Keyword::MinLength(limit),
        "maxLength" => Keyword::MaxLength(limit),
        "minItems" => Keyword::MinItems(limit),
        "maxItems" => Keyword::MaxItems(limit),
        "minProperties" => Keyword::MinProperties(limit),
        _ => Keyword::MaxProperties(limit),
    }
}

/// Returns the strings in an array. Returns an empty list for other values.
fn texts(alloc: Global, value: &Json<'_>) -> Result<Vec<String>, AllocError> {
    let mut list = Vec::new(alloc);
    if let Json::Array(items) = value {
        for item in items.as_slice() {
            list.push(String::from_str(alloc, item.as_str().unwrap_or(""))?)?;
        }
    }
    Ok(list)
}

/// Returns the names in an object of arrays of strings, each with the strings in its array.
fn names_by_key(
    alloc: Global,
    members: &[(&str, Json<'_>)],
) -> Result<Vec<(String, Vec<String>)>, AllocError> {
    let mut list = Vec::new(alloc);
    for member in members {
        let names = texts(alloc, &member.1)?;
        list.push((String::from_str(alloc, member.0)?, names))?;
    }
    Ok(list)
}

impl<'v, 'a> Compiler<'v, 'a> {
    /// Compiles the schema `site`, and adds an error if the schema is neither an object nor a boolean. Fails like
    /// `read_object`.
    pub(crate) fn read_node(&mut self, mut site: Site<'v, 'a>) -> Result<Node, SchemaError> {
        let alloc = self.alloc;
        match site.value {
            Json::Bool(true) => {}
            Json::Bool(false) => site.put("false", "false", Keyword::Never)?,
            Json::Object(_) => self.read_object(&mut site)?,
            other => {
                let place = site.pointer.as_str();
                self.sources
                    .refuse_value(site.source, place, Want::Schema, other)?;
            }
        }
        let title = match text_in(alloc, site.value, "title")? {
            Some(title) => Some(title),
            None => text_in(alloc, site.value, "description")?,
        };
        Ok(Node {
            place: self.place_of(&site)?,
            title,
            deprecated: !site.without_unevaluated && is_true(site.value, "deprecated"),
            keywords: site.keywords,
        })
    }

    /// Reads the keywords of the schema object `site`, and ignores wrong values. Up to draft 7, `$ref` hides the other
    /// keywords. Adds an error if a regular expression is malformed or a reference can't be resolved. Fails with
    /// `TooLarge` if compiling takes too many steps.
    fn read_object(&mut self, site: &mut Site<'v, 'a>) -> Result<(), SchemaError> {
        let draft = site.dialect.draft;
        self.read_reference(site, "$ref")?;
        if text_of(site.value, "$ref").is_some() && draft <= 7 {
            return Ok(());
        }
        let items = site.value.get("unevaluatedItems").is_some();
        let properties = site.value.get("unevaluatedProperties").is_some();
        if draft >= 19 && !site.without_unevaluated && (items || properties) {
            site.keywords.clear();
            return self.read_unevaluated(site);
        }
        match draft {
            20 => self.read_reference(site, "$dynamicRef")?,
            19 => self.read_reference(site, "$recursiveRef")?,
            _ => {}
        }
        if site.dialect.validates {
            self.read_assertions(site)?;
        }
        self.read_combined(site)?;
        self.read_items(site)?;
        self.read_contains(site)?;
        self.read_properties(site)?;
        self.read_dependencies(site)
    }

    /// Reads `unevaluatedItems` and `unevaluatedProperties`. The other keywords of the schema become a compiled schema
    /// of their own, which is added as if it were the only one in `allOf`. Fails like `Compiler::node`.
    fn read_unevaluated(&mut self, site: &mut Site<'v, 'a>) -> Result<(), SchemaError> {
        let pointer = site.pointer.as_str();
        let others = self.node(site.value, site.source, pointer, site.scope, true)?;
        site.put(
            "allOf",
            "allOf",
            Keyword::AllOf(vec![in self.alloc; others]?),
        )?;
        for name in ["unevaluatedItems", "unevaluatedProperties"] {
            if let Some(schema) = self.one(site, name)? {
                let keyword = if name == "unevaluatedItems" {
                    Keyword::UnevaluatedItems(others, schema)
                } else {
                    Keyword::UnevaluatedProperties(others, schema)
                };
                site.put(name, name, keyword)?;
            }
        }
        Ok(())
    }

    /// Reads a keyword that names a schema by its address. Fails like `Compiler::reference`.
    fn read_reference(
        &mut self,
        site: &mut Site<'v, 'a>,
        name: &'static str,
    ) -> Result<(), SchemaError> {
        if let Some(text) = text_of(site.value, name) {
            if let Some(target) = self.reference(site, name, text)? {
                site.put(name, name, Keyword::AllOf(vec![in self.alloc; target]?))?;
            }
        }
        Ok(())
    }

    /// Reads the keywords without subschemas, except references. In draft 4, `exclusiveMinimum` and `exclusiveMaximum`
    /// say whether the limits in `minimum` and `maximum` are excluded.
    fn read_assertions(&mut self, site: &mut Site<'v, 'a>) -> Result<(), SchemaError> {
        let is_old = site.dialect.draft == 4;
        for name in ASSERTIONS.split(' ') {
            let Some(value) = site.value.get(name) else {
                continue;
            };
            let own = match name {
                "minimum" if is_old && is_true(site.value, "exclusiveMinimum") => {
                    "exclusiveMinimum"
                }
                "maximum" if is_old && is_true(site.value, "exclusiveMaximum") => {
                    "exclusiveMaximum"
                }
                _ => name,
            };
            if let Some(keyword) = self.assertion(site, name, own, value)? {
                site.put(own, name, keyword)?;
            }
        }
        Ok(())
    }

    /// Returns the keyword `name` with this value, called `own`. Returns `None` if the draft has no such keyword, or if
    /// the value allows everything. Fails like `add_pattern`.
    fn assertion(
        &mut self,
        site: &Site<'v, 'a>,
        name: &str,
        own: &str,
        value: &Json<'a>,
    ) -> Result<Option<Keyword>, SchemaError> {
        let alloc = self.alloc;
        let draft = site.dialect.draft;
        let Some(want) = want_of(name, draft) else {
            return Ok(None);
        };
        let keyword = match (want, value) {
            (Want::Types, _) => Keyword::Type(types_in(value, draft)),
            (Want::List, Json::Array(values)) => constants(alloc, values.as_slice())?,
            (Want::Any, _) => constants(alloc, slice::from_ref(value))?,
            (Want::Number, Json::Number(text)) => bound(own, Decimal::parse(alloc, *text)?),
            (Want::Divisor, Json::Number(text)) => {
                let divisor = Decimal::parse(alloc, *text)?;
                let Some(size) = divisor.size() else {
                    return Ok(None);
                };
                Keyword::MultipleOf(size, divisor.exponent())
            }
            (Want::Count, Json::Number(text)) => size_limit(name, count_in(*text)),
            (Want::Names, _) => Keyword::Required(texts(alloc, value)?),
            (Want::NamesByKey, Json::Object(members)) => {
                Keyword::DependentRequired(names_by_key(alloc, members.as_slice())?)
            }
            (Want::Flag, Json::Bool(true)) if name == "uniqueItems" => Keyword::UniqueItems,
            (Want::Text, Json::String(text)) => return self.text_assertion(site, name, *text),
            _ => return Ok(None),
        };
        Ok(Some(keyword))
    }

    /// Returns the keyword `pattern` or `format` with this value, or `None` if the format is unknown or the pattern is
    /// not supported. Fails like `add_pattern`.
    fn text_assertion(
        &mut self,
        site: &Site<'v, 'a>,
        name: &str,
        text: &str,
    ) -> Result<Option<Keyword>, SchemaError> {
        if name == "pattern" {
            return match self.add_pattern(site, &["pattern"], text)? {
                Some(at) => Ok(Some(Keyword::Pattern(at))),
                None => Ok(None),
            };
        }
        match format_of(text) {
            Some(format) => {
                let at = self.format(format.pattern)?;
                Ok(Some(Keyword::Format(at, format.most, format.leap)))
            }
            None if text == "regex" => Ok(Some(Keyword::RegexFormat)),
            None => Ok(None),
        }
    }

    /// Compiles a regular expression, to which `steps` lead from the schema `site`, and appends it to `self.patterns`.
    /// Returns its position there. Returns `None` if the expression is not supported, with a warning, or malformed,
    /// with an error.
    fn add_pattern(
        &mut self,
        site: &Site<'v, 'a>,
        steps: &[&str],
        pattern: &str,
    ) -> Result<Option<usize>, SchemaError> {
        let alloc = self.alloc;
        match compile_pattern(alloc, pattern) {
            Ok(regex) => {
                let at = self.patterns.len();
                self.patterns.push(regex)?;
                return Ok(Some(at));
            }
            Err(Error::OutOfMemory) => return Err(SchemaError::OutOfMemory),
            Err(Error::Syntax(_)) => {}
            Err(_) => {
                let message = format!(in alloc; "not checked: `{pattern}` is too large")?;
                self.complain(site, steps, message.as_str(), false)?;
                return Ok(None);
            }
        }
        let (message, is_error) = match unsupported(pattern) {
            Some((name, at)) => {
                let message = format!(in alloc;
                    "not checked: `{pattern}` has {name} at character {at}, which is not supported"
                )?;
                (message, false)
            }
            None => {
                let message = format!(in alloc; "`{pattern}` is not a regular expression")?;
                (message, true)
            }
        };
        self.complain(site, steps, message.as_str(), is_error)?;
        Ok(None)
    }

    /// Returns the indices of the compiled forms of the schemas in the array `name` of the schema `site`. Returns
    /// `None` if the member `name` is missing or not an array. Fails like `Compiler::node`.
    fn list(
        &mut self,
        site: &Site<'v, 'a>,
        name: &'static str,
    ) -> Result<Option<Vec<usize>>, SchemaError> {
        let Some(Json::Array(items)) = site.value.get(name) else {
            return Ok(None);
        };
        let mut nodes = Vec::new(self.alloc);
        for (at, value) in items.as_slice().iter().enumerate() {
            let at_text = format!(in self.alloc; "{at}")?;
            nodes.push(self.under(site, name, Some(at_text.as_str()), value)?)?;
        }
        Ok(Some(nodes))
    }

    /// Returns the index of the compiled form of the schema in the member `name` of the schema `site`. Returns `None`
    /// if the member is missing. Fails like `Compiler::node`.
    fn one(
        &mut self,
        site: &Site<'v, 'a>,
        name: &'static str,
    ) -> Result<Option<usize>, SchemaError> {
        match site.value.get(name) {
            Some(value) => Ok(Some(self.under(site, name, None, value)?)),
            None => Ok(None),
        }
    }

    /// Reads `allOf`, `anyOf`, `oneOf`, `not` and, from draft 7 on, `if` with `then` and `else`. Fails like `list`.
    fn read_combined(&mut self, site: &mut Site<'v, 'a>) -> Result<(), SchemaError> {
        for name in ["allOf", "anyOf", "oneOf"] {
            if let Some(nodes) = self.list(site, name)? {
                let keyword = match name {
                    "allOf" => Keyword::AllOf(nodes),
                    "anyOf" => Keyword::AnyOf(nodes),
                    _ => Keyword::OneOf(nodes),
                };
                site.put(name, name, keyword)?;
            }
        }
        if let Some(node) = self.one(site, "not")? {
            site.put("not", "not", Keyword::Not(node))?;
        }
        if site.dialect.draft < 7 {
            return Ok(());
        }
        if let Some(condition) = self.one(site, "if")? {
            let consequent = self.one(site, "then")?;
            let alternative = self.one(site, "else")?;
            let keyword = Keyword::If(condition, consequent, alternative);
            site.put("if", "if", keyword)?;
        }
        Ok(())
    }

    /// Reads `prefixItems` and `items` of draft 2020-12, or `items` and `additionalItems` of earlier drafts. Fails like
    /// `list`.
    fn read_items(&mut self, site: &mut Site<'v, 'a>) -> Result<(), SchemaError> {
        let is_list = matches!(site.value.get("items"), Some(Json::Array(_)));
        let (prefix, rest) = if site.dialect.draft >= 20 {
            ("prefixItems", "items")
        } else if is_list {
            ("items", "additionalItems")
        } else {
            ("", "items")
        };
        let first = self.list(site, prefix)?;
        let others = self.one(site, rest)?;
        if first.is_some() || others.is_some() {
            let name = if others.is_some() { rest } else { prefix };
            let keyword = Keyword::Items(first.unwrap_or(Vec::new(self.alloc)), others);
            site.put(name, name, keyword)?;
        }
        Ok(())
    }

    /// Reads `contains` from draft 6 on, with `minContains` and `maxContains` from draft 2019-09 on. Fails like
    /// `Compiler::node`.
    fn read_contains(&mut self, site: &mut Site<'v, 'a>) -> Result<(), SchemaError> {
        let draft = site.dialect.draft;
        if draft == 4 {
            return Ok(());
        }
        if let Some(schema) = self.one(site, "contains")? {
            let counts = draft >= 19 && site.dialect.validates;
            let (mut least, mut most) = (1, u64::MAX);
            if counts {
                least = count_or(least, site.value.get("minContains"));
                most = count_or(most, site.value.get("maxContains"));
            }
            let keyword = Keyword::Contains(schema, least, most, draft >= 20);
            site.put("contains", "contains", keyword)?;
        }
        Ok(())
    }

    /// Returns the regular expressions in `patternProperties`, each with the index of its schema. A pattern that is not
    /// supported matches all keys, with the schema `true`, which is the last document. Fails like `Compiler::node` and
    /// `add_pattern`.
    fn patterns(&mut self, site: &Site<'v, 'a>) -> Result<Vec<(usize, usize)>, SchemaError> {
        let mut matching = Vec::new(self.alloc);
        if let Some(Json::Object(members)) = site.value.get("patternProperties") {
            for member in members.as_slice() {
                let steps = &["patternProperties", member.0];
                let mut node = self.under(site, "patternProperties", Some(member.0), &member.1)?;
                let pattern = match self.add_pattern(site, steps, member.0)? {
                    Some(pattern) => pattern,
                    None => {
                        let last = self.sources.documents.len().saturating_sub(1);
                        node = self.node_at(last, "", 0)?.unwrap_or(0);
                        self.format("")?
                    }
                };
                matching.push((pattern, node))?;
            }
        }
        Ok(matching)
    }

    /// Reads `properties`, `patternProperties`, `additionalProperties` and, from draft 6 on, `propertyNames`. If a name
    /// occurs twice in `properties`, its last schema counts. Fails like `patterns`.
    fn read_properties(&mut self, site: &mut Site<'v, 'a>) -> Result<(), SchemaError> {
        let mut named = BTreeMap::new(self.alloc);
        if let Some(Json::Object(members)) = site.value.get("properties") {
            for member in members.as_slice() {
                let node = self.under(site, "properties", Some(member.0), &member.1)?;
                let _earlier = named.insert(String::from_str(self.alloc, member.0)?, node)?;
            }
        }
        let matching = self.patterns(site)?;
        let rest = self.one(site, "additionalProperties")?;
        if !named.is_empty() || !matching.is_empty() || rest.is_some() {
            let name = if rest.is_some() {
                "additionalProperties"
            } else {
                "properties"
            };
            site.put(name, name, Keyword::Properties(named, matching, rest))?;
        }
        if site.dialect.draft > 4 {
            let name = "propertyNames";
            if let Some(node) = self.one(site, name)? {
                site.put(name, name, Keyword::PropertyNames(node))?;
            }
        }
        Ok(())
    }

    /// Reads `dependentSchemas`, or `dependencies` before draft 2019-09. A member of `dependencies` that is an array of
    /// strings names required keys; any other member is a subschema. Ignores a value that is not an object. Fails like
    /// `Compiler::node`.
    fn read_dependencies(&mut self, site: &mut Site<'v, 'a>) -> Result<(), SchemaError> {
        let alloc = self.alloc;
        let is_old = site.dialect.draft < 19;
        let name = if is_old {
            "dependencies"
        } else {
            "dependentSchemas"
        };
        let Some(Json::Object(members)) = site.value.get(name) else {
            return Ok(());
        };
        let mut names = Vec::new(alloc);
        let mut schemas = Vec::new(alloc);
        for member in members.as_slice() {
            let key = String::from_str(alloc, member.0)?;
            if is_old && matches!(&member.1, Json::Array(_)) {
                names.push((key, texts(alloc, &member.1)?))?;
            } else {
                let node = self.under(site, name, Some(member.0), &member.1)?;
                schemas.push((key, node))?;
            }
        }
        if is_old && site.dialect.validates {
            site.put(name, name, Keyword::DependentRequired(names))?;
        }
        if is_old || !schemas.is_empty() {
            site.put(name, name, Keyword::DependentSchemas(schemas))?;
        }
        Ok(())
    }
}
