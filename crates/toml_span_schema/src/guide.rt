//! A compiled schema with its notes for people.
ghost use Rattle.std.specs.Prelude.{IfOk};
ghost use Rattle.toml_span_schema.specs.Compiled.{IsCompiled};

use crate::compile::compile;
use crate::documents::Document;
use crate::error::{Flaw, SchemaError};
use crate::notes::Notes;
use crate::schema::Schema;
use std::alloc::Global;

/// A compiled schema with its notes for people.
#[derive(Drop)]
pub struct Guide {
    /// The compiled schema.
    pub schema: Schema,
    /// The notes of each compiled schema, in the order of `Schema::nodes`.
    pub(crate) notes: Vec<Notes>,
    /// What is not checked: regular expressions and references that are not supported, and words that are near to known
    /// keywords and formats. At most 100.
    pub warnings: Vec<Flaw>,
}

impl Guide {
    /// Compiles a schema from its JSON text, with its notes. `others` and the errors are as for `Schema::from_json`.
    pub fn from_json(
        alloc: Global,
        text: &str,
        others: &[Document<'_>],
    ) -> Result<Guide, SchemaError>
        ensures { IfOk result (λ guide. IsCompiled text.now guide.schema) }
    {
        let root = Document {
            address: "file:///schema.json",
            text,
        };
        compile(alloc, root, others, false)
    }

    /// Compiles the schema in the document `root`, with its notes. References in the schema are relative to the
    /// document's address. `others` and the errors are as for `Schema::from_json`. Reports name the document of each
    /// keyword, also if it is `root`.
    pub fn from_document(
        alloc: Global,
        root: Document<'_>,
        others: &[Document<'_>],
    ) -> Result<Guide, SchemaError>
        ensures { IfOk result (λ guide. IsCompiled root.entry.text.now guide.schema) }
    {
        compile(alloc, root, others, true)
    }
}
