//! Makes reports of the errors of `toml_span`. For a typical mistake, the report names the mistake and says what to write.
#![tactic(auto)]

mod bytes;
mod errors;
mod finding;
mod help;
mod mistakes;
mod reads;
mod repairs;
mod reported;
mod scan;
mod tokens;
mod unknown_keys;
mod words;

pub use errors::{error_report, render_error, render_errors, render_stop, warning_report};
pub use reads::reports_of;
pub use reported::Reported;
pub use toml_span_report::Style;
