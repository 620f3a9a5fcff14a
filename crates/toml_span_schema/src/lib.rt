//! Checks TOML documents against a JSON Schema, and reports each violation with its span.
//!
//! - `Schema::from_json(alloc, text, others)` compiles a schema of draft 4, 6, 7, 2019-09 or 2020-12. `others` is a
//!   slice of `Document`s (`address`, `text`) that references in the schema may name. Fails with a `SchemaError`, whose
//!   `message(alloc)` says why. `SchemaError::Wrong` lists each `Flaw`, such as a wrong value of a keyword or a missing
//!   document.
//! - `schema.set_formats(false)` turns the keyword `format` off.
//! - `schema.check(alloc, &value)` returns a `Vec<Report>` with a report for each violation, in the order of the text.
//!   The vector is empty if the value is valid. Fails with a `CheckError` (`message()`).
//! - `schema.warnings(alloc, &value)` returns a warning for each value that the schema marks as deprecated.
//! - `Guide::from_json` compiles a schema together with its notes for people, such as descriptions. For editors,
//!   `guide.subschemas(alloc, value)` and `guide.subschemas_inside(alloc, outer, step, value)` return the `Subschemas`
//!   that apply to a value. `keys_of`, `is_required`, `kinds_of` and `notes_of` return the keys in these subschemas,
//!   whether they require a key, the kinds of values that they name, and their notes.
//!
//! A report's code is `schema-` and the keyword in kebab case, such as `schema-min-length`. For a key that is not
//! allowed, the code is `schema-unevaluated-properties` if the keyword is `unevaluatedProperties`, otherwise
//! `schema-additional-properties`. For an element that `items` or `additionalItems` does not allow, it is
//! `schema-max-items`. For all other places where the schema is `false`, it is `schema-false`. Warnings have the code
//! `schema-deprecated`. If there are more than 100 violations, the last report has the code `too-many-errors`.
#![tactic(auto)]

mod agrees;
mod alternatives;
mod applied;
mod asserted;
mod canonical;
mod compile;
mod compiled;
mod cycles;
mod dates;
mod decimal;
mod documents;
mod error;
mod formats;
mod guide;
mod keyword;
mod keywords;
mod listed;
mod messages;
mod notes;
mod numbers;
mod patterns;
mod pointers;
mod read;
mod report;
mod schema;
mod sources;
mod subschemas;
mod valid;
mod walk;

pub use documents::Document;
pub use error::{CheckError, Flaw, SchemaError};
pub use guide::Guide;
pub use notes::Notes;
pub use schema::Schema;
pub use subschemas::{Kinds, Subschemas};
