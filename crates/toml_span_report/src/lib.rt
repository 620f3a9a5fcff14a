//! Reports of errors, warnings and notes about a text, with labels at its lines, help and replacements. Formats reports
//! as text, as one line, or as JSON. Explains error codes.
#![tactic(auto)]

mod characters;
mod colours;
mod explanations;
mod json_line;
mod many;
mod names;
mod places;
mod rendering;
mod report;
mod strips;
pub mod tables;
pub mod visible;

pub use colours::Style;
pub use explanations::{CODES, explain};
pub use json_line::{push_clipped, render_json};
pub use many::render_all;
pub use names::nearest;
pub use places::{bom_end, clipped_span, line_column};
pub use rendering::{clipped_text, render, render_line};
pub use report::{Replacement, Report, Severity};
