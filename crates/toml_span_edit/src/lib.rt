//! Edits TOML documents, and converts between the forms in which TOML writes tables and arrays. Bytes that have nothing
//! to do with an edit stay as they are.
#![tactic(auto)]

mod adding;
mod comments;
mod conversions;
mod convert;
mod document;
mod draft;
mod edits;
mod flat;
mod forms;
mod given;
mod headed;
mod inlined;
mod items;
mod kept;
mod lines;
mod made;
mod mentions;
mod missing;
mod moving;
mod paths;
mod places;
mod plan;
mod reach;
mod reason;
mod refusing;
mod removing;
mod retrying;
mod same;
mod sections;
mod setting;
mod step;
mod tables;
mod text;
mod texts;
mod unchanged;
mod writer;

pub use conversions::Conversion;
pub use convert::converted;
pub use draft::Draft;
pub use edits::{Change, Edit, EditError, Edits};
pub use given::string_text;
pub use paths::path_error_text;
pub use reason::Reason;
pub use same::same_tree;
pub use toml_span_places::{PathError, PathFault, path_segments, segment_names};
pub use unchanged::validated;
