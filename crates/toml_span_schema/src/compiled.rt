//! Checks that a compiled schema has lost no keyword or value of its JSON. Drafts are numbered 4, 6, 7, 19 and 20. In
//! the methods of a schema, `left` is the number of subschemas that may still be nested.
ghost use Rattle.std.specs.Prelude.{◌≡◌, [], IfOk, IsSomeAnd, OnOk, Some, codes, map, option_map, slice_get, true};
ghost use Rattle.std.specs.Option.{is_some};
ghost use Rattle.json.specs.Find.{get};
ghost use Rattle.json.specs.Json.{document};
ghost use Rattle.json.specs.Strict.{HasUniqueKeys};
ghost use Rattle.json.specs.Value.{items_view, members_view, value_view};
ghost use Rattle.toml_span_schema.specs.Compiled as spec;
ghost use Rattle.toml_span_schema.specs.Compiled.{IsCompiled, below, compiled};

use crate::agrees::{dependencies, has_limit, has_value, have_values};
use crate::error::SchemaError;
use crate::keyword::{Keyword, Placed};
use crate::schema::Schema;
use crate::sources::is_true;
use json::{Error, Scratch, Value as Json};
use std::alloc::{AllocError, Global};

/// More than the number of subschemas that can nest, since JSON nests at most 128 levels deep.
const MOST_LEVELS: usize = 130;

/// Returns the draft that an address in `$schema` names, or `None` for another metaschema.
#[tactic(auto, unfolding(crate::specs::Compiled::draft_named))]
fn draft_named(address: &str) -> Option<u8>
    ensures { result ≡ spec.draft_named address.now }
{
    if address == "http://json-schema.org/draft-04/schema#" {
        Some(4)
    } else if address == "http://json-schema.org/draft-06/schema#" {
        Some(6)
    } else if address == "http://json-schema.org/draft-07/schema#" {
        Some(7)
    } else if address == "https://json-schema.org/draft/2019-09/schema" {
        Some(19)
    } else if address == "https://json-schema.org/draft/2020-12/schema" {
        Some(20)
    } else {
        None
    }
}

/// Returns the draft that a schema names by `$schema`, the latest one if it names none, or `None` if the draft is
/// unknown.
fn draft_in(value: &Json<'_>) -> Option<u8>
    ensures { result ≡ spec.draft_in (get (codes "$schema") (value_view value.now)) }
{
    match value.get("$schema") {
        Some(Json::String(address)) => draft_named(*address),
        _ => Some(20),
    }
}

/// Returns whether a value has the member `name`.
fn is_present(value: &Json<'_>, name: &str) -> bool
    ensures { result ≡ is_some (get name.now (value_view value.now)) }
{
    value.get(name).is_some()
}

/// Returns `node` if `here` is true.
fn only(here: bool, node: Option<usize>) -> Option<usize>
    ensures { result ≡ spec.only here node }
{
    if here { node } else { None }
}

/// Returns the node of the entry at position `at`.
fn second<T>(entries: &[(T, usize)], at: usize) -> Option<usize>
    ensures { result ≡ option_map (λ e. e.1) (slice_get entries.now at) }
{
    match entries.get(at) {
        Some(entry) => Some(entry.1),
        None => None,
    }
}

/// Returns the node that a compiled keyword has for a subschema of the keyword `name`: the one at position `at`, or
/// with the name `key`, if there are several.
#[tactic(auto, unfolding(crate::specs::Compiled::node_for))]
fn node_for(name: &str, at: usize, key: &str, placed: &Placed) -> Option<usize>
    ensures { result ≡ spec.node_for name.now at key.now placed.now.name.now placed.now.keyword }
{
    match &placed.keyword {
        Keyword::AllOf(nodes) => {
            let here = name == "allOf" && placed.name == name;
            only(here, nodes.get(at).copied())
        }
        Keyword::AnyOf(nodes) => only(name == "anyOf", nodes.get(at).copied()),
        Keyword::OneOf(nodes) => only(name == "oneOf", nodes.get(at).copied()),
        Keyword::Not(node) => only(name == "not", Some(*node)),
        Keyword::If(node, _, _) if name == "if" => Some(*node),
        Keyword::If(_, node, _) if name == "then" => *node,
        Keyword::If(_, _, node) => only(name == "else", *node),
        Keyword::DependentSchemas(es) => only(
            name == "dependentSchemas",
            second(es.as_slice(), at),
        ),
        Keyword::Items(nodes, _) if name == "prefixItems" => nodes.get(at).copied(),
        Keyword::Items(_, rest) => only(name == "items", *rest),
        Keyword::Contains(node, _, _, _) => only(name == "contains", Some(*node)),
        Keyword::Properties(named, _, _) if name == "properties" => named.get(key).copied(),
        Keyword::Properties(_, es, _) if name == "patternProperties" => second(es.as_slice(), at),
        Keyword::Properties(_, _, rest) => only(name == "additionalProperties", *rest),
        Keyword::PropertyNames(node) => only(name == "propertyNames", Some(*node)),
        Keyword::UnevaluatedItems(_, node) => only(name == "unevaluatedItems", Some(*node)),
        Keyword::UnevaluatedProperties(_, node) => {
            only(name == "unevaluatedProperties", Some(*node))
        }
        _ => None,
    }
}

/// Returns the node that one of the compiled keywords has for a subschema, as `node_for` does.
fn node_among(name: &str, at: usize, key: &str, keywords: &[Placed]) -> Option<usize>
    ensures { result ≡ spec.node_among name.now at key.now keywords.now }
{
    for placed in keywords {
        if let Some(node) = node_for(name, at, key, placed) {
            return Some(node);
        }
    }
    None
}

/// Returns whether one of the compiled keywords has this name.
fn has(keywords: &[Placed], name: &str) -> bool
    ensures { result ≡ spec.has keywords.now name.now }
{
    for placed in keywords {
        if placed.name == name {
            return true;
        }
    }
    false
}

/// Returns whether the keyword `name` is compiled, if the schema has it.
fn is_kept(value: &Json<'_>, keywords: &[Placed], name: &str) -> bool
    ensures { result ≡ spec.is_kept (value_view value.now) keywords.now name.now }
{
    !is_present(value, name) || has(keywords, name)
}

/// Returns whether the keywords of all drafts without subschemas are compiled with their values.
#[tactic(auto, unfolding(crate::specs::Compiled::keeps_values))]
fn keeps_values(
    alloc: Global,
    draft: u8,
    keywords: &[Placed],
    value: &Json<'_>,
) -> Result<bool, AllocError>
    ensures { IfOk result (λ r. r ≡ spec.keeps_values draft keywords.now (value_view value.now)) }
{
    let names: &[&str] = &[
        "type",
        "enum",
        "multipleOf",
        "minLength",
        "maxLength",
        "minItems",
        "maxItems",
        "minProperties",
        "maxProperties",
        "required",
        dependencies(draft),
    ];
    let minimum = ("minimum", "exclusiveMinimum");
    let maximum = ("maximum", "exclusiveMaximum");
    Ok(
        have_values(alloc, draft, keywords, names, value)?
            && has_limit(alloc, draft, keywords, minimum, value)?
            && has_limit(alloc, draft, keywords, maximum, value)?,
    )
}

/// Returns whether `uniqueItems`, and those of the keywords of later drafts that have no subschemas or are `contains`,
/// are compiled with their values.
#[tactic(auto, unfolding(crate::specs::Compiled::keeps_later))]
fn keeps_later(
    alloc: Global,
    draft: u8,
    keywords: &[Placed],
    value: &Json<'_>,
) -> Result<bool, AllocError>
    ensures { IfOk result (λ r. r ≡ spec.keeps_later draft keywords.now (value_view value.now)) }
{
    let names: &[&str] = &["const", "exclusiveMinimum", "exclusiveMaximum"];
    let contains = draft < 6 || !is_present(value, "contains");
    let repeats = !is_true(value, "uniqueItems");
    Ok(
        (draft < 6 || have_values(alloc, draft, keywords, names, value)?)
            && (contains || has_value(alloc, draft, keywords, "contains", Some(value))?)
            && (repeats || has_value(alloc, draft, keywords, "uniqueItems", Some(value))?),
    )
}

/// Returns whether the references are compiled.
#[tactic(auto, unfolding(crate::specs::Compiled::keeps_references))]
fn keeps_references(draft: u8, keywords: &[Placed], value: &Json<'_>) -> bool
    ensures { result ≡ spec.keeps_references draft keywords.now (value_view value.now) }
{
    is_kept(value, keywords, "$ref")
        && (draft != 19 || is_kept(value, keywords, "$recursiveRef"))
        && (draft != 20 || is_kept(value, keywords, "$dynamicRef"))
}

impl Schema {
    /// Returns whether the keywords of a JSON schema are compiled to the node at index `node`.
    #[cycle(compiled)]
    fn is_compiled(
        &self,
        draft: u8,
        left: usize,
        value: &Json<'_>,
        node: usize,
    ) -> Result<bool, AllocError>
        ensures { IfOk result (λ r. r ≡ compiled self.now draft left (value_view value.now) node) }
    {
        if left == 0 {
            return Ok(false);
        }
        self.keeps(draft, left - 1, value, self.keywords(node))
    }

    /// Returns whether the keywords of a JSON schema are among the compiled ones.
    #[cycle(compiled)]
    #[tactic(auto, unfolding(crate::specs::Compiled::step))]
    fn keeps(
        &self,
        draft: u8,
        left: usize,
        value: &Json<'_>,
        keywords: &[Placed],
    ) -> Result<bool, AllocError>
        ensures { IfOk result (λ r. r ≡ spec.step (below self.now draft left) self.now draft
            (value_view value.now) keywords.now) }
    {
        match value {
            Json::Bool(true) => Ok(keywords.is_empty()),
            Json::Bool(false) => Ok(has(keywords, "false")),
            Json::Object(_) => {
                if draft < 19 && matches!(value.get("$ref"), Some(Json::String(_))) {
                    return Ok(has(keywords, "$ref"));
                }
                let is_last = is_present(value, "unevaluatedItems")
                    || is_present(value, "unevaluatedProperties");
                if draft > 18 && is_last {
                    return self.is_around(draft, left, keywords, value);
                }
                self.keeps_all(draft, left, keywords, value)
            }
            _ => Ok(false),
        }
    }

    /// Returns whether the keywords of a JSON object with `unevaluatedItems` or `unevaluatedProperties` are compiled.
    #[cycle(compiled)]
    fn is_around(
        &self,
        draft: u8,
        left: usize,
        keywords: &[Placed],
        value: &Json<'_>,
    ) -> Result<bool, AllocError>
        ensures { IfOk result (λ r. r ≡ spec.is_around (below self.now draft left) self.now draft keywords.now
            (value_view value.now) (spec.node_among (codes "allOf") 0 [] keywords.now)) }
    {
        let Some(node) = node_among("allOf", 0, "", keywords) else {
            return Ok(false);
        };
        let names = &["unevaluatedItems", "unevaluatedProperties"];
        Ok(
            self.keeps_all(draft, left, self.keywords(node), value)?
                && self.are_led(draft, left, names, keywords, value)?,
        )
    }

    /// Returns whether the keywords of a JSON object, except `unevaluatedItems` and `unevaluatedProperties`, are
    /// compiled.
    #[cycle(compiled)]
    fn keeps_all(
        &self,
        draft: u8,
        left: usize,
        keywords: &[Placed],
        value: &Json<'_>,
    ) -> Result<bool, AllocError>
        ensures { IfOk result (λ r. r ≡ spec.keeps_all (below self.now draft left) draft keywords.now
            (value_view value.now)) }
    {
        let alloc = *self.nodes.allocator();
        Ok(
            keeps_values(alloc, draft, keywords, value)?
                && keeps_later(alloc, draft, keywords, value)?
                && keeps_references(draft, keywords, value)
                && self.keeps_schemas(draft, left, keywords, value)?
                && self.keeps_members(draft, left, keywords, value)?
                && self.items_led(draft, left, keywords, value)?,
        )
    }

    /// Returns whether the subschemas of keywords with a schema or an array of schemas are compiled, except for those
    /// of `items_led`.
    #[cycle(compiled)]
    #[tactic(auto, unfolding(crate::specs::Compiled::keeps_schemas))]
    fn keeps_schemas(
        &self,
        draft: u8,
        left: usize,
        keywords: &[Placed],
        value: &Json<'_>,
    ) -> Result<bool, AllocError>
        ensures { IfOk result (λ r. r ≡ spec.keeps_schemas (below self.now draft left) draft keywords.now
            (value_view value.now)) }
    {
        let ever = &["allOf", "anyOf", "oneOf", "not", "additionalProperties"];
        let branches = draft < 7 || !is_present(value, "if");
        Ok(
            self.are_led(draft, left, ever, keywords, value)?
                && (draft < 6
                    || self.are_led(draft, left, &["contains", "propertyNames"], keywords, value)?)
                && (branches
                    || self.are_led(draft, left, &["if", "then", "else"], keywords, value)?),
        )
    }

    /// Returns whether the subschemas of keywords with an object of schemas are compiled, except for `dependencies`.
    #[cycle(compiled)]
    #[tactic(auto, unfolding(crate::specs::Compiled::keeps_members))]
    fn keeps_members(
        &self,
        draft: u8,
        left: usize,
        keywords: &[Placed],
        value: &Json<'_>,
    ) -> Result<bool, AllocError>
        ensures { IfOk result (λ r. r ≡ spec.keeps_members (below self.now draft left) draft keywords.now
            (value_view value.now)) }
    {
        let (patterns, schemas) = (("patternProperties", true), ("dependentSchemas", true));
        Ok(
            self.is_led(
                draft,
                left,
                ("properties", true),
                keywords,
                value.get("properties"),
            )? && self.is_led(
                draft,
                left,
                patterns,
                keywords,
                value.get("patternProperties"),
            )? && (draft < 19
                || self.is_led(
                    draft,
                    left,
                    schemas,
                    keywords,
                    value.get("dependentSchemas"),
                )?),
        )
    }

    /// Returns whether the subschemas of `items`, `prefixItems` and `additionalItems` are compiled.
    #[cycle(compiled)]
    #[tactic(auto, unfolding(crate::specs::Compiled::items_led))]
    fn items_led(
        &self,
        draft: u8,
        left: usize,
        keywords: &[Placed],
        value: &Json<'_>,
    ) -> Result<bool, AllocError>
        ensures { IfOk result (λ r. r ≡ spec.items_led (below self.now draft left) draft keywords.now
            (value_view value.now)) }
    {
        if draft == 20 {
            return self.are_led(draft, left, &["prefixItems", "items"], keywords, value);
        }
        let items = value.get("items");
        if let Some(Json::Array(_)) = items {
            let rest = value.get("additionalItems");
            return Ok(
                self.is_led(draft, left, ("prefixItems", false), keywords, items)?
                    && self.is_led(draft, left, ("items", false), keywords, rest)?,
            );
        }
        self.is_led(draft, left, ("items", false), keywords, items)
    }

    /// Returns whether the subschemas of the keywords `names` are compiled.
    #[cycle(compiled)]
    fn are_led(
        &self,
        draft: u8,
        left: usize,
        names: &[&str],
        keywords: &[Placed],
        value: &Json<'_>,
    ) -> Result<bool, AllocError>
        ensures { IfOk result (λ r. r ≡ spec.are_led (below self.now draft left) (map (λ n. n.now) names.now)
            keywords.now (value_view value.now)) }
    {
        for name in names {
            if !self.is_led(draft, left, (*name, false), keywords, value.get(*name))? {
                return Ok(false);
            }
        }
        Ok(true)
    }

    /// Returns whether a value of the keyword `part.0` is compiled: a schema, an array of schemas or, if `part.1`, an
    /// object of schemas.
    #[cycle(compiled)]
    fn is_led(
        &self,
        draft: u8,
        left: usize,
        part: (&str, bool),
        keywords: &[Placed],
        value: Option<&Json<'_>>,
    ) -> Result<bool, AllocError>
        ensures { IfOk result (λ r. r ≡ spec.is_led (below self.now draft left) part.entry.0.now part.entry.1
            keywords.now (option_map (λ v. value_view v.now) value.entry)) }
    {
        match value {
            None => Ok(true),
            Some(Json::Array(items)) => self.items_lead(
                draft,
                left,
                part.0,
                keywords,
                items.as_slice(),
            ),
            Some(Json::Object(members)) if part.1 => {
                Ok(self.members_lead(draft, left, part.0, keywords, members.as_slice())?)
            }
            Some(value) => self.leads(
                draft,
                left,
                part.0,
                value,
                node_among(part.0, 0, "", keywords),
            ),
        }
    }

    /// Returns whether each of the schemas `items` of the keyword `name` is compiled.
    #[cycle(compiled)]
    fn items_lead(
        &self,
        draft: u8,
        left: usize,
        name: &str,
        keywords: &[Placed],
        items: &[Json<'_>],
    ) -> Result<bool, AllocError>
        ensures { IfOk result (λ r. r ≡ spec.items_lead (below self.now draft left) name.now keywords.now 0
            (items_view items.now)) }
    {
        for (at, item) in items.iter().enumerate() {
            if !self.leads(draft, left, name, item, node_among(name, at, "", keywords))? {
                return Ok(false);
            }
        }
        Ok(true)
    }

    /// Returns whether each of the schemas `members` of the keyword `name` is compiled.
    #[cycle(compiled)]
    fn members_lead(
        &self,
        draft: u8,
        left: usize,
        name: &str,
        keywords: &[Placed],
        members: &[(&str, Json<'_>)],
    ) -> Result<bool, AllocError>
        ensures { IfOk result (λ r. r ≡ spec.members_lead (below self.now draft left) name.now keywords.now 0
            (members_view members.now)) }
    {
        for (at, member) in members.iter().enumerate() {
            let node = node_among(name, at, member.0, keywords);
            if !self.leads(draft, left, name, &member.1, node)? {
                return Ok(false);
            }
        }
        Ok(true)
    }

    /// Returns whether a schema of the keyword `name` is compiled to `node`. Also true if the schema has a `$schema` of
    /// its own, or the regular expression in `patternProperties` is not supported.
    #[cycle(compiled)]
    fn leads(
        &self,
        draft: u8,
        left: usize,
        name: &str,
        value: &Json<'_>,
        node: Option<usize>,
    ) -> Result<bool, AllocError>
        ensures { IfOk result (λ r. r ≡ spec.leads (below self.now draft left) name.now (value_view value.now)
            node) }
    {
        let Some(node) = node else {
            return Ok(false);
        };
        Ok(
            is_present(value, "$schema")
                || self.is_compiled(draft, left, value, node)?
                || name == "patternProperties" && self.keywords(node).is_empty(),
        )
    }
}

/// Fails with `Internal` if a schema lacks a keyword or a value of its JSON text, which is a bug. Fails with
/// `OutOfMemory` if an allocation fails.
pub(crate) fn ensure_compiled(text: &str, schema: &Schema) -> Result<(), SchemaError>
    ensures { OnOk result (IsCompiled text.now schema.now) }
{
    let alloc = schema.alloc();
    let mut scratch = Scratch::new(alloc);
    let value = match Json::parse(alloc, text, &mut scratch) {
        Ok(value) => value,
        Err(Error::OutOfMemory) => return Err(SchemaError::OutOfMemory),
        Err(_) => return Err(SchemaError::Internal),
    };
    let is_right = match draft_in(&value) {
        Some(draft) => schema.is_compiled(draft, MOST_LEVELS, &value, 0),
        None => Ok(true),
    };
    drop(value);
    if is_right? {
        Ok(())
    } else {
        refuse(alloc, text)
    }
}

/// Fails with `Internal`, unless a name occurs twice in an object of a JSON text. Fails with `OutOfMemory` if an
/// allocation fails.
fn refuse(alloc: Global, text: &str) -> Result<(), SchemaError>
    ensures { OnOk result (IsSomeAnd (document text.now) (λ j. ¬ HasUniqueKeys j)) }
{
    let mut scratch = Scratch::new(alloc);
    match Json::parse_strict(alloc, text, &mut scratch) {
        Ok(value) => {
            drop(value);
            Err(SchemaError::Internal)
        }
        Err(Error::DuplicateKey) => Ok(()),
        Err(Error::OutOfMemory) => Err(SchemaError::OutOfMemory),
        Err(_) => Err(SchemaError::Internal),
    }
}
