//! Settings, where they come from, and which of several hold.
ghost use Rattle.std.specs.Prelude.{◌≡◌};
ghost use Rattle.toml_span_config.specs.Layers as spec;

use toml_span::{Span, Spanned};
use toml_span_check::newer::Version;
use toml_span_format::Options;

/// Which arrays have several lines.
#[derive(Clone, Copy)]
pub enum ExpandArrays {
    /// Those that are too wide for one line, or end in a comma.
    Auto,
    /// Those that have several lines already.
    Keep,
}

/// Whether lines end with CRLF.
#[derive(Clone, Copy)]
pub enum Crlf {
    /// If the first one does.
    Auto,
    Always,
    Never,
}

/// Where a setting comes from.
#[derive(Clone, Copy)]
pub enum Origin {
    /// Nothing sets it.
    Default,
    /// The configuration file, which has the value at this span.
    File(Span),
    /// The command line.
    Arguments,
}

/// The value of a setting, and where it comes from.
#[derive(Clone, Copy)]
pub struct Chosen<T> {
    pub value: T,
    pub origin: Origin,
}

/// Settings of one place, such as the tables `check` and `fmt`, an entry of `files`, or the command line. A setting
/// that is not set there is `None`.
#[derive(Clone, Copy)]
pub struct Layer {
    /// The version of TOML.
    pub toml: Option<Chosen<Version>>,
    /// Whether warnings are errors.
    pub deny_warnings: Option<Chosen<bool>>,
    /// The width of a formatted line, in characters.
    pub width: Option<Chosen<u16>>,
    /// The number of spaces by which the formatter indents.
    pub indent: Option<Chosen<u8>>,
    /// Whether the formatter sorts keys.
    pub sort_keys: Option<Chosen<bool>>,
    /// Whether the formatter writes a comma after the last element if each element has a line of its own.
    pub trailing_comma: Option<Chosen<bool>>,
    /// Which arrays the formatter writes on several lines.
    pub expand_arrays: Option<Chosen<ExpandArrays>>,
    /// Whether the formatter keeps comments at the ends of lines aligned.
    pub align_comments: Option<Chosen<bool>>,
    /// The maximum number of blank lines in a row that the formatter keeps.
    pub blank_lines: Option<Chosen<u8>>,
    /// Whether the formatter ends lines with CRLF.
    pub crlf: Option<Chosen<Crlf>>,
    /// The position in `Config::files` of the entry that names the schema.
    pub schema: Option<Chosen<usize>>,
}

/// The settings that hold for a file.
#[derive(Clone, Copy)]
pub struct Settings {
    /// The version of TOML.
    pub toml: Chosen<Version>,
    /// Whether warnings are errors.
    pub deny_warnings: Chosen<bool>,
    /// The width of a formatted line, in characters.
    pub width: Chosen<u16>,
    /// The number of spaces by which the formatter indents.
    pub indent: Chosen<u8>,
    /// Whether the formatter sorts keys.
    pub sort_keys: Chosen<bool>,
    /// Whether the formatter writes a comma after the last element if each element has a line of its own.
    pub trailing_comma: Chosen<bool>,
    /// Which arrays the formatter writes on several lines.
    pub expand_arrays: Chosen<ExpandArrays>,
    /// Whether the formatter keeps comments at the ends of lines aligned.
    pub align_comments: Chosen<bool>,
    /// The maximum number of blank lines in a row that the formatter keeps.
    pub blank_lines: Chosen<u8>,
    /// Whether the formatter ends lines with CRLF.
    pub crlf: Chosen<Crlf>,
    /// The position in `Config::files` of the entry that names the schema, if there is one.
    pub schema: Option<Chosen<usize>>,
}

/// Returns a setting that the command line sets.
pub fn given<T>(value: T) -> Option<Chosen<T>>
    ensures { result ≡ spec.given value }
{
    Some(Chosen {
        value,
        origin: Origin::Arguments,
    })
}

/// Returns the setting that a field of the configuration file sets, if the field is there.
pub(crate) fn of_field<T: Copy>(field: &Option<Spanned<T>>) -> Option<Chosen<T>>
    ensures { result ≡ spec.of_field field.now }
{
    match field {
        Some(field) => Some(Chosen {
            value: field.value,
            origin: Origin::File(field.span),
        }),
        None => None,
    }
}

/// Returns the upper of two settings if it is set, otherwise the lower.
fn over<T: Copy + Drop>(lower: Option<T>, upper: Option<T>) -> Option<T>
    ensures { result ≡ spec.over lower upper }
{
    match upper {
        Some(_) => upper,
        None => lower,
    }
}

/// Returns a setting, or its default if it is not set.
fn or_default<T: Copy + Drop>(setting: Option<Chosen<T>>, default: T) -> Chosen<T>
    ensures { result ≡ spec.or_default setting default }
{
    match setting {
        Some(setting) => setting,
        None => Chosen {
            value: default,
            origin: Origin::Default,
        },
    }
}

impl Layer {
    /// Returns a layer that sets nothing.
    pub fn empty() -> Layer
        ensures { result ≡ spec.empty }
    {
        Layer {
            toml: None,
            deny_warnings: None,
            width: None,
            indent: None,
            sort_keys: None,
            trailing_comma: None,
            expand_arrays: None,
            align_comments: None,
            blank_lines: None,
            crlf: None,
            schema: None,
        }
    }

    /// Returns the settings of both layers. Where both set one, that of `upper` holds.
    pub fn under(self, upper: Layer) -> Layer
        ensures { result ≡ spec.under self upper }
    {
        Layer {
            toml: over(self.toml, upper.toml),
            deny_warnings: over(self.deny_warnings, upper.deny_warnings),
            width: over(self.width, upper.width),
            indent: over(self.indent, upper.indent),
            sort_keys: over(self.sort_keys, upper.sort_keys),
            trailing_comma: over(self.trailing_comma, upper.trailing_comma),
            expand_arrays: over(self.expand_arrays, upper.expand_arrays),
            align_comments: over(self.align_comments, upper.align_comments),
            blank_lines: over(self.blank_lines, upper.blank_lines),
            crlf: over(self.crlf, upper.crlf),
            schema: over(self.schema, upper.schema),
        }
    }

    /// Returns the settings of this layer, with defaults for those that are not set.
    pub fn settled(self) -> Settings
        ensures { result ≡ spec.settled self }
    {
        Settings {
            toml: or_default(self.toml, Version::Auto),
            deny_warnings: or_default(self.deny_warnings, false),
            width: or_default(self.width, 80),
            indent: or_default(self.indent, 4),
            sort_keys: or_default(self.sort_keys, false),
            trailing_comma: or_default(self.trailing_comma, true),
            expand_arrays: or_default(self.expand_arrays, ExpandArrays::Auto),
            align_comments: or_default(self.align_comments, false),
            blank_lines: or_default(self.blank_lines, 1),
            crlf: or_default(self.crlf, Crlf::Auto),
            schema: self.schema,
        }
    }
}

/// Returns whether lines end with CRLF, or `None` if they end as the first one does.
fn has_crlf(crlf: Crlf) -> Option<bool>
    ensures { result ≡ spec.has_crlf crlf }
{
    match crlf {
        Crlf::Auto => None,
        Crlf::Always => Some(true),
        Crlf::Never => Some(false),
    }
}

/// Returns whether arrays that have several lines keep them.
fn keeps_lines(arrays: ExpandArrays) -> bool
    ensures { result ≡ spec.keeps_lines arrays }
{
    match arrays {
        ExpandArrays::Auto => false,
        ExpandArrays::Keep => true,
    }
}

impl Settings {
    /// Returns the options of the formatter.
    pub fn format_options(&self) -> Options
        ensures { result ≡ spec.format_options self.now }
    {
        Options {
            width: usize::from(self.width.value),
            indent: usize::from(self.indent.value),
            has_trailing_comma: self.trailing_comma.value,
            keeps_lines: keeps_lines(self.expand_arrays.value),
            aligns_comments: self.align_comments.value,
            blank_lines: usize::from(self.blank_lines.value),
            has_crlf: has_crlf(self.crlf.value),
        }
    }
}
