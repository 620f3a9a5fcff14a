//! The tables of a configuration file, as they are read.
use crate::layers::{Crlf, ExpandArrays};
use std::alloc::Global;
use std::collections::BTreeMap;
use toml_span::{
    DeserError, Deserialize, Error, ErrorKind, Spanned, Stop, Value, read_name, read_table,
};
use toml_span_check::newer::Version;
use toml_span_check::patterns::{Pattern, pattern_of};

/// A pattern of paths.
#[derive(Drop)]
pub(crate) struct Glob {
    pub(crate) pattern: Pattern,
}

/// The name of a version of TOML.
#[derive(Clone, Copy)]
pub(crate) struct VersionName {
    pub(crate) version: Version,
}

/// The table `check`.
#[derive(Drop)]
pub(crate) struct CheckTable {
    pub(crate) toml: Option<Spanned<VersionName>>,
    pub(crate) deny_warnings: Option<Spanned<bool>>,
}

/// The table `fmt`.
#[derive(Drop)]
pub(crate) struct FmtTable {
    pub(crate) width: Option<Spanned<u16>>,
    pub(crate) indent: Option<Spanned<u8>>,
    pub(crate) sort_keys: Option<Spanned<bool>>,
    pub(crate) trailing_comma: Option<Spanned<bool>>,
    pub(crate) expand_arrays: Option<Spanned<ExpandArrays>>,
    pub(crate) align_comments: Option<Spanned<bool>>,
    pub(crate) blank_lines: Option<Spanned<u8>>,
    pub(crate) crlf: Option<Spanned<Crlf>>,
}

/// An entry of the array `files`.
#[derive(Drop)]
pub(crate) struct FilesTable {
    pub(crate) globs: Vec<Glob>,
    pub(crate) schema: Option<Spanned<String>>,
    pub(crate) check: Option<CheckTable>,
    pub(crate) fmt: Option<FmtTable>,
}

/// The whole file.
#[derive(Drop)]
pub(crate) struct Document {
    pub(crate) exclude: Option<Vec<Glob>>,
    pub(crate) check: Option<CheckTable>,
    pub(crate) fmt: Option<FmtTable>,
    pub(crate) files: Option<Vec<FilesTable>>,
    pub(crate) schema_map: Option<BTreeMap<String, String>>,
}

impl<'de> Deserialize<'de> for Glob {
    fn deserialize(alloc: Global, value: &mut Value<'de>) -> Result<Self, Stop<DeserError<'de>>> {
        let span = value.span;
        let text = String::deserialize(alloc, value)?;
        match pattern_of(alloc, text.as_str())? {
            Some(pattern) => Ok(Glob { pattern }),
            None => {
                let message = "this pattern of paths is empty or not supported";
                Err(Error::from((ErrorKind::Custom(message.into()), span)).into())
            }
        }
    }
}

impl<'de> Deserialize<'de> for VersionName {
    fn deserialize(alloc: Global, value: &mut Value<'de>) -> Result<Self, Stop<DeserError<'de>>> {
        read_name!(alloc, value, {
            "auto" => VersionName { version: Version::Auto },
            "1.0" => VersionName { version: Version::Toml10 },
            "1.1" => VersionName { version: Version::Toml11 },
        })
    }
}

impl<'de> Deserialize<'de> for ExpandArrays {
    fn deserialize(alloc: Global, value: &mut Value<'de>) -> Result<Self, Stop<DeserError<'de>>> {
        read_name!(alloc, value, { "auto" => ExpandArrays::Auto, "keep" => ExpandArrays::Keep })
    }
}

impl<'de> Deserialize<'de> for Crlf {
    fn deserialize(alloc: Global, value: &mut Value<'de>) -> Result<Self, Stop<DeserError<'de>>> {
        read_name!(alloc, value, {
            "auto" => Crlf::Auto,
            "always" => Crlf::Always,
            "never" => Crlf::Never,
        })
    }
}

impl<'de> Deserialize<'de> for CheckTable {
    fn deserialize(alloc: Global, value: &mut Value<'de>) -> Result<Self, Stop<DeserError<'de>>> {
        read_table!(alloc, value, CheckTable {
            toml: Option<Spanned<VersionName>>;
            deny_warnings: Option<Spanned<bool>> = "deny-warnings";
        })
    }
}

impl<'de> Deserialize<'de> for FmtTable {
    fn deserialize(alloc: Global, value: &mut Value<'de>) -> Result<Self, Stop<DeserError<'de>>> {
        read_table!(alloc, value, FmtTable {
            width: Option<Spanned<u16>>;
            indent: Option<Spanned<u8>>, range(0..=64);
            sort_keys: Option<Spanned<bool>> = "sort-keys";
            trailing_comma: Option<Spanned<bool>> = "trailing-comma";
            expand_arrays: Option<Spanned<ExpandArrays>> = "expand-arrays";
            align_comments: Option<Spanned<bool>> = "align-comments";
            blank_lines: Option<Spanned<u8>> = "blank-lines", range(1..=9);
            crlf: Option<Spanned<Crlf>>;
        })
    }
}

impl<'de> Deserialize<'de> for FilesTable {
    fn deserialize(alloc: Global, value: &mut Value<'de>) -> Result<Self, Stop<DeserError<'de>>> {
        read_table!(alloc, value, FilesTable {
            globs: Vec<Glob> = "match";
            schema: Option<Spanned<String>>;
            check: Option<CheckTable>;
            fmt: Option<FmtTable>;
        })
    }
}

impl<'de> Deserialize<'de> for Document {
    fn deserialize(alloc: Global, value: &mut Value<'de>) -> Result<Self, Stop<DeserError<'de>>> {
        read_table!(alloc, value, Document {
            exclude: Option<Vec<Glob>>;
            check: Option<CheckTable>;
            fmt: Option<FmtTable>;
            files: Option<Vec<FilesTable>>;
            schema_map: Option<BTreeMap<String, String>> = "schema-map";
        })
    }
}
