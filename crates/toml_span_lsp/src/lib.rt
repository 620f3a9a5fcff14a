//! The language server: messages of the Language Server Protocol 3.17 over standard input and output. The answers about
//! a text come from `toml_span_editor`.
#![tactic(auto)]

mod actions;
mod answers;
mod capabilities;
mod configuration;
mod edits;
mod folders;
mod frames;
mod incoming;
mod links;
mod lists;
mod methods;
mod outgoing;
mod projects;
mod publish;
mod reading;
mod refusal;
mod requests;
mod schemas;
mod server;
mod settings;
mod state;
mod steps;
mod suggested;
mod surrogates;
mod sync;
mod tokens;
mod uris;
mod waiting;

pub use frames::{FrameFault, Framed, LIMIT, frame, push_frame};
pub use server::{Ended, serve};
pub use state::Server;
pub use steps::step;
