//! A compiled schema.

use crate::documents::Document;
use crate::error::SchemaError;
use crate::guide::Guide;
use crate::keyword::{Node, Placed};
use regex::Regex;
use std::alloc::Global;

/// A compiled JSON Schema, with which any number of values can be checked.
#[derive(Drop)]
pub struct Schema {
    /// The compiled root schema, followed by the schemas that it reaches by references and keywords.
    pub(crate) nodes: Vec<Node>,
    pub(crate) patterns: Vec<Regex>,
    /// The maximum depth of nested subschemas in a check: 1,000 levels of a value, times one more than the number of
    /// schemas in the longest chain of references and combinations, such as `allOf`.
    pub(crate) depth: usize,
    /// Whether `format` is checked.
    pub(crate) formats: bool,
}

impl Schema {
    ghost use Rattle.std.specs.Prelude.{◌≡◌, IfOk};
    ghost use Rattle.toml_span_schema.specs.Compiled.{IsCompiled};
    ghost use Rattle.toml_span_schema.specs.Valid.{keywords};

    /// Compiles a schema from its JSON text. `others` are the documents that references in the schema may name; nothing
    /// is fetched. Fails if a text is not JSON, if the schema is wrong or too large, if a reference names a document
    /// that is not in `others`, or if an allocation fails. `SchemaError` has the details.
    pub fn from_json(
        alloc: Global,
        text: &str,
        others: &[Document<'_>],
    ) -> Result<Schema, SchemaError>
        ensures { IfOk result (λ schema. IsCompiled text.now schema) }
    {
        let Guide { schema, .. } = Guide::from_json(alloc, text, others)?;
        Ok(schema)
    }

    /// Sets whether `check` reports strings that violate the keyword `format`. By default, `check` reports them.
    pub fn set_formats(&mut self, on: bool)
        ensures { self.new ≡ record self.old { formats = on } }
    {
        self.formats = on;
    }

    /// Returns the allocator of the schema.
    pub(crate) fn alloc(&self) -> Global {
        *self.nodes.allocator()
    }

    /// Returns the keywords of the schema at index `node`, or an empty slice if `node` is out of range.
    pub(crate) fn keywords(&self, node: usize) -> &[Placed]
        ensures { result.now ≡ keywords self.now node }
    {
        match self.nodes.get(node) {
            Some(node) => node.keywords.as_slice(),
            None => &[],
        }
    }
}
