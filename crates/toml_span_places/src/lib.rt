//! Finds the keys, tables, values and lines of a TOML text, for editors and lints. Reads paths, replaces parts of a
//! text, and writes keys and values as TOML.
#![tactic(auto)]

mod dotted;
mod keys;
mod lines;
mod literals;
mod mentions;
mod newer;
mod opened;
mod order;
mod paths;
mod points;
mod quoted;
mod replace;
mod sections;
mod spelled;
mod spots;
mod tables;

pub use dotted::{PathError, PathFault, path_segments, segment_names, value_at};
pub use keys::{KeyPlace, Role, key_places, with_quotes};
pub use lines::{assignment_lines, section_lines};
pub use literals::{literal_span, val_literal_span};
pub use newer::{NewerForm, NewerKind, newer_forms};
pub use order::nodes_in_text_order;
pub use points::{InsertionPoint, insertion_point};
pub use quoted::{quote_key, quote_string};
pub use replace::{ReplaceError, Replacement, SpanFault, replace_all, replaced};
pub use sections::{SectionForm, SectionPlace, section_places};
pub use spelled::to_toml;
pub use spots::{NodePlace, Part, node_at};
pub use tables::{TableForm, TablePlace, table_forms, table_places};
