//! Settings whose types derive `Deserialize`, and a function that reads them.
use serde::Deserialize;
use std::alloc::{AllocError, Global};
use toml_span_serde::{Spanned, Style, from_str, render_stop};

#[derive(Debug, Drop, Deserialize)]
#[serde(deny_unknown_fields)]
pub struct Server<'a> {
    pub host: &'a str,
    pub port: Spanned<u16>,
}

#[derive(Debug, Drop, Deserialize)]
#[serde(rename_all = "lowercase")]
pub enum Level {
    Low,
    High(bool),
}

#[derive(Debug, Drop, Deserialize)]
pub struct Settings<'a> {
    pub name: &'a str,
    pub weight: Option<f64>,
    pub level: Option<Level>,
    pub since: Option<String>,
    #[serde(default)]
    pub servers: Vec<Server<'a>>,
}

/// Reads a text as settings. Returns the settings, or the error with its source lines.
pub fn shown(alloc: Global, text: &str) -> Result<String, AllocError> {
    match from_str::<Settings<'_>>(alloc, text) {
        Ok(settings) => format!(in alloc; "{settings:?}"),
        Err(stop) => render_stop(alloc, Style::Plain, stop, "settings.toml", text),
    }
}
