//! The codes, messages and help of reports.

use crate::applied::has_key;
use crate::error::CheckError;
use crate::keyword::{Keyword, Placed, Types};
use crate::listed::Part;
use crate::schema::Schema;
use crate::subschemas::Kinds;
use crate::walk::{Cause, Violation, is_plain};
use json::{Scratch, is_valid};
use std::alloc::{AllocError, Global};
use std::borrow::CowStr;
use std::fmt::Write;
use toml_span_report::visible::push_quoted;
use toml_span_tree::{FloatText, Value, ValueInner};

/// The number of schemas that may be nested to say which types and constants they name, and to check a key.
pub(crate) const MOST_NESTED: usize = 65;

/// The maximum number of subschemas that are applied to say why a key is not allowed.
const MOST_APPLIED: u64 = 10_000;

/// The maximum number of constants in a message.
const MOST_SHOWN: usize = 5;

/// A text that is written piece by piece. It remembers whether an allocation failed, so that only `finish` fails.
#[derive(Drop)]
pub(crate) struct Text {
    text: String,
    is_refused: bool,
}

impl Text {
    pub(crate) fn new(alloc: Global) -> Text {
        Text {
            text: String::new(alloc),
            is_refused: false,
        }
    }

    pub(crate) fn push(&mut self, piece: &str) {
        self.is_refused |= self.text.push_str(piece).is_err();
    }

    /// Appends three pieces.
    pub(crate) fn push_all(&mut self, front: &str, middle: &str, back: &str) {
        self.push(front);
        self.push(middle);
        self.push(back);
    }

    pub(crate) fn push_char(&mut self, c: char) {
        self.is_refused |= self.text.push(c).is_err();
    }

    /// Appends a key in quotes.
    pub(crate) fn push_quoted(&mut self, alloc: Global, name: &str) {
        self.is_refused |= push_quoted(alloc, &mut self.text, name).is_err();
    }

    pub(crate) fn push_number(&mut self, number: usize) {
        self.is_refused |= write!(&mut self.text, "{number}").is_err();
    }

    /// Returns the text. Fails if an allocation failed.
    pub(crate) fn finish(self) -> Result<String, AllocError> {
        let Text { text, is_refused } = self;
        if is_refused {
            Err(AllocError)
        } else {
            Ok(text)
        }
    }
}

/// Types, and constants as messages show them.
#[derive(Drop)]
pub(crate) struct Listed<'s> {
    pub(crate) types: Types,
    pub(crate) constants: Vec<&'s str>,
    /// Whether constants are missing since an allocation failed.
    is_refused: bool,
}

impl<'s> Listed<'s> {
    pub(crate) fn push(&mut self, constant: &'s str) {
        self.is_refused |= self.constants.push(constant).is_err();
    }

    pub(crate) fn push_all(&mut self, constants: &'s [String]) {
        for constant in constants {
            self.push(constant.as_str());
        }
    }
}

/// Appends the code of the report on a violation, such as `schema-min-length`.
pub(crate) fn push_code(out: &mut Text, violation: &Violation<'_, '_, '_>) {
    let name = match &violation.at.placed.keyword {
        Keyword::Items(_, _) => "maxItems",
        Keyword::Properties(_, _, _) | Keyword::PropertyNames(_) => "additionalProperties",
        _ => violation.at.placed.name,
    };
    out.push("schema-");
    for c in name.chars() {
        if c.is_ascii_uppercase() {
            out.push("-");
        }
        out.push_char(c.to_ascii_lowercase());
    }
}

/// Appends the article of a word.
fn push_article(out: &mut Text, word: &str) {
    out.push(if word.starts_with("i") || word.starts_with("a") {
        "an "
    } else {
        "a "
    });
}

/// Appends that a value of this kind was found.
fn push_kind(out: &mut Text, value: &Value<'_>) {
    let kind = match value.type_str() {
        "datetime" => "date-time",
        "" => "string",
        kind => kind,
    };
    out.push(", found ");
    push_article(out, kind);
    out.push(kind);
}

/// Appends what is between the word at position `at`, of `count` words, and the word before it: `last` for the last
/// word, otherwise a comma.
fn push_separator(out: &mut Text, at: usize, count: usize, last: &str) {
    if at > 0 {
        out.push(if at.saturating_add(1) == count {
            last
        } else {
            ", "
        });
    }
}

/// Returns whether `table`, if it is given, lacks a key.
fn is_missing(table: Option<&Value<'_>>, name: &str) -> bool {
    match table {
        Some(table) => !has_key(table, name),
        None => true,
    }
}

/// Appends the names of keys, each in backticks, separated by commas and `and`. Leaves out the keys in `table`, if it
/// is given.
fn push_keys(out: &mut Text, names: &[String], table: Option<&Value<'_>>) {
    let mut count = 0usize;
    for name in names {
        if is_missing(table, name.as_str()) {
            count = count.saturating_add(1);
        }
    }
    let mut at = 0usize;
    for name in names {
        if is_missing(table, name.as_str()) {
            push_separator(out, at, count, " and ");
            out.push_all("`", name.as_str(), "`");
            at = at.saturating_add(1);
        }
    }
}

/// Appends the types as messages name them, such as `a string, boolean or array`, or nothing for no types.
fn push_types(out: &mut Text, types: &Types) {
    let all = [
        (types.string, "string"),
        (types.integer && !types.number, "integer"),
        (types.number, "number"),
        (types.boolean, "boolean"),
        (types.array, "array"),
        (types.object, "table"),
    ];
    let mut count = 0usize;
    for named in all.iter() {
        count = count.saturating_add(usize::from(named.0));
    }
    let mut at = 0usize;
    for (is_named, word) in all {
        if is_named {
            if at == 0 {
                push_article(out, word);
            }
            push_separator(out, at, count, " or ");
            out.push(word);
            at = at.saturating_add(1);
        }
    }
}

/// Appends constants as messages show them, at most `MOST_SHOWN + 1`, and the number of all others.
fn push_constants(out: &mut Text, constants: &[&str]) {
    let count = constants.len();
    let most = if count > MOST_SHOWN + 1 {
        MOST_SHOWN
    } else {
        count
    };
    if count > 1 {
        out.push("one of ");
    }
    for (at, constant) in constants.iter().enumerate() {
        if at < most {
            push_separator(out, at, 0, "");
            out.push(*constant);
        }
    }
    if count > most {
        out.push(" or ");
        out.push_number(count.saturating_sub(most));
        out.push(" others");
    }
}

/// Appends the end of the message that a string, array or table has `found` things, but another number is expected.
/// `is_one` says whether that number is 1.
fn push_found(out: &mut Text, thing: &str, is_one: bool, found: usize) {
    out.push_all(" ", thing, if is_one { ", found " } else { "s, found " });
    out.push_number(found);
}

/// Returns the number of characters, elements or keys of a value.
fn size_of(value: &Value<'_>) -> usize {
    match (value.as_str(), value.as_array(), value.as_table()) {
        (Some(text), _, _) => text.chars().count(),
        (_, Some(array), _) => array.len(),
        (_, _, Some(table)) => table.len(),
        _ => 0,
    }
}

/// Appends the message that a value has a wrong type or is not among the listed constants.
fn push_unlisted(out: &mut Text, listed: &Listed<'_>, value: &Value<'_>) {
    let shown = listed.constants.as_slice();
    let has_types = !listed.types.is_empty();
    if shown.is_empty() && !has_types {
        out.push("no value is allowed here");
        return;
    }
    out.push("expected ");
    push_constants(out, shown);
    if has_types && !shown.is_empty() {
        out.push(if shown.len() > 1 { ", or " } else { " or " });
    }
    push_types(out, &listed.types);
    let mut strings = 0usize;
    for one in shown {
        strings = strings.saturating_add(usize::from(one.starts_with("`\"")));
    }
    let most = if value.as_str().is_some() {
        0
    } else {
        shown.len()
    };
    if strings == most {
        push_kind(out, value);
    }
}

/// Appends the message that the entry or element of a violation is not allowed.
fn push_never(out: &mut Text, violation: &Violation<'_, '_, '_>) {
    let placed = violation.at.placed;
    match (violation.part, &placed.keyword) {
        (Part::Member(key, _), Keyword::Properties(named, matching, _))
            if named.get(key.name.as_ref()).is_some()
                || placed.name != "additionalProperties" && !matching.is_empty() => {
            out.push_all("key `", key.name.as_ref(), "` is not allowed");
        }
        (Part::Member(key, _), _) => out.push_all("unknown key `", key.name.as_ref(), "`"),
        (_, Keyword::Items(prefix, _)) if prefix.is_empty() => out.push("the array must be empty"),
        (_, Keyword::Items(prefix, _)) => {
            let most = prefix.len();
            out.push("at most ");
            out.push_number(most);
            out.push(if most == 1 {
                " element is allowed"
            } else {
                " elements are allowed"
            });
        }
        _ => out.push("this element is not allowed"),
    }
}

/// Returns the message that a keyword with one value in the schema does not allow `value`, and what the keyword counts
/// in a string, array or table, if it counts. The value in the schema, `limit`, follows the message if the message ends
/// with a space.
fn opening(keyword: &Keyword, limit: &str, value: &Value<'_>) -> (&'static str, &'static str) {
    let is_date = value.type_str() == "datetime";
    let text = match keyword {
        Keyword::UniqueItems => "this element is a duplicate",
        Keyword::Never => "no value is allowed here",
        Keyword::Minimum(_) => "the number must be at least ",
        Keyword::ExclusiveMinimum(_) => "the number must be greater than ",
        Keyword::Maximum(_) => "the number must be at most ",
        Keyword::ExclusiveMaximum(_) => "the number must be less than ",
        Keyword::MultipleOf(_, _) => "the number must be a multiple of ",
        Keyword::Pattern(_) => "the string must match the regular expression ",
        Keyword::Format(_, _, _) if is_date && limit == "`time`" => {
            "the format `time` needs an offset, which no local time of TOML has"
        }
        Keyword::Format(_, _, _) if is_date && limit == "`date-time`" => {
            "the format `date-time` needs a date, a time and an offset, such as `Z`"
        }
        Keyword::Format(_, _, _) if is_date => "the date or time must have the format ",
        Keyword::Format(_, _, _) | Keyword::RegexFormat => "the string must have the format ",
        Keyword::MinLength(_) => return ("expected at least ", "character"),
        Keyword::MaxLength(_) => return ("expected at most ", "character"),
        Keyword::MinItems(_) => return ("expected at least ", "element"),
        Keyword::MaxItems(_) => return ("expected at most ", "element"),
        Keyword::MinProperties(_) => return ("expected at least ", "key"),
        Keyword::MaxProperties(_) => return ("expected at most ", "key"),
        _ => "the value does not match the schema",
    };
    (text, "")
}

/// Returns whether one of the constants, as messages show them, is `text` between `front` and `back`.
fn has_shown(constants: &[&str], front: &str, text: &str, back: &str) -> bool {
    for constant in constants {
        if let Some(rest) = constant.strip_prefix(front) {
            if rest.strip_suffix(back) == Some(text) {
                return true;
            }
        }
    }
    false
}

/// Returns an integer, boolean or finite float as TOML, or an empty text for any other value.
fn scalar_text(alloc: Global, value: &Value<'_>) -> Result<String, AllocError> {
    match (value.as_integer(), value.as_bool(), value.as_float()) {
        (Some(number), _, _) => format!(in alloc; "{number}"),
        (_, Some(truth), _) => format!(in alloc; "{truth}"),
        (_, _, Some(FloatText::Finite(text))) => text.clone(),
        _ => Ok(String::new(alloc)),
    }
}

/// Returns whether a string spells a number or boolean of the listed types, or a listed constant.
fn needs_no_quotes(alloc: Global, text: &str, listed: &Listed<'_>) -> Result<bool, AllocError> {
    let types = &listed.types;
    if has_shown(listed.constants.as_slice(), "`", text, "`") {
        return Ok(true);
    }
    if types.string {
        return Ok(false);
    }
    Ok(types.boolean && (text == "true" || text == "false") || is_number(alloc, text, types)?)
}

/// Returns whether a value would be right as a string, which has this text: constants are listed and it is one of them,
/// or none are listed and strings are allowed.
fn needs_quotes(text: &str, listed: &Listed<'_>) -> bool {
    let constants = listed.constants.as_slice();
    if constants.is_empty() {
        listed.types.string
    } else {
        has_shown(constants, "`\"", text, "\"`")
    }
}

/// Returns whether a text spells a number of these types.
fn is_number(alloc: Global, text: &str, types: &Types) -> Result<bool, AllocError> {
    if fast_float::parse_i64(text.as_bytes()).is_ok() {
        return Ok(types.integer || types.number);
    }
    for c in text.chars() {
        if !c.is_ascii_digit() && !matches!(c, '.' | 'e' | 'E' | '+' | '-') {
            return Ok(false);
        }
    }
    let mut scratch = Scratch::new(alloc);
    Ok(types.number && is_valid(text, &mut scratch)?)
}

impl Schema {
    /// Returns the types that a violation's keyword or alternatives name, and the constants.
    pub(crate) fn listed<'s>(
        &'s self,
        violation: &Violation<'s, '_, '_>,
    ) -> Result<Listed<'s>, AllocError> {
        let mut listed: Listed<'s> = Listed {
            types: Types::NONE,
            constants: Vec::new(self.alloc()),
            is_refused: false,
        };
        match (&violation.at.placed.keyword, violation.cause) {
            (Keyword::Type(named), _) => listed.types = *named,
            (Keyword::Enum(_, shown), _) => {
                listed.push_all(shown.as_slice());
                for other in violation.others.as_slice() {
                    if !listed.constants.contains(other) {
                        listed.push(*other);
                    }
                }
            }
            (_, Cause::Unlisted(nodes)) => self.push_listed(MOST_NESTED, nodes, &mut listed),
            _ => {}
        }
        if listed.is_refused {
            Err(AllocError)
        } else {
            Ok(listed)
        }
    }

    /// Appends the message that a keyword, except `type` and `enum`, does not allow a value.
    fn push_keyword(&self, out: &mut Text, placed: &Placed, cause: Cause<'_>, value: &Value<'_>) {
        let limit = placed.shown.as_str();
        match (&placed.keyword, cause) {
            (Keyword::Contains(_, least, most, _), Cause::Count(found)) => {
                let is_less = (found as u64) < *least;
                let limit = if is_less { *least } else { *most };
                out.push(if is_less {
                    "expected at least "
                } else {
                    "expected at most "
                });
                out.push_number(limit as usize);
                push_found(out, "matching element", limit == 1, found);
            }
            (Keyword::Not(node), _) => match self.excluded(*node) {
                [] => out.push("the value must not match the schema `not`"),
                [name] => out.push_all("key `", name.as_str(), "` is not allowed here"),
                names => {
                    out.push("keys ");
                    push_keys(out, names, None);
                    out.push(" are not allowed together");
                }
            },
            (keyword, _) => {
                let (text, thing) = opening(keyword, limit, value);
                out.push(text);
                out.push(if text.ends_with(" ") { limit } else { "" });
                if !thing.is_empty() {
                    push_found(out, thing, limit == "1", size_of(value));
                }
            }
        }
    }

    /// Appends the message on a violation, except for `Cause::Name`.
    fn push_plain(&self, out: &mut Text, violation: &Violation<'_, '_, '_>, listed: &Listed<'_>) {
        let value = violation.part.value();
        match (violation.cause, &violation.at.placed.keyword) {
            (Cause::Never, _) => push_never(out, violation),
            (Cause::Unlisted(_), _) => push_unlisted(out, listed, value),
            (Cause::Missing(name), _) => {
                out.push_all("missing key `", name, "`");
                if !violation.table.is_empty() {
                    out.push_all(" in `", violation.table.as_str(), "`");
                }
            }
            (Cause::Requires(name, wanted), _) => {
                out.push_all("`", name, "` requires ");
                push_keys(out, wanted, Some(value));
            }
            (Cause::Both(first, second), _) => {
                out.push("alternatives ");
                out.push_number(first.saturating_add(1));
                out.push(" and ");
                out.push_number(second.saturating_add(1));
                out.push(" match, but only one may match");
            }
            (_, Keyword::Type(_) | Keyword::Enum(_, _)) => push_unlisted(out, listed, value),
            (cause, _) => self.push_keyword(out, violation.at.placed, cause, value),
        }
    }

    /// Returns the first keyword of the schema at index `node` that does not allow a value, or `None` if all allow it.
    /// Fails like `is_valid`.
    fn refusing(&self, node: usize, value: &Value<'_>) -> Result<Option<&Placed>, CheckError> {
        let mut left = MOST_APPLIED;
        for placed in self.keywords(node) {
            if !self.allows(&mut left, MOST_NESTED, &placed.keyword, value)? {
                return Ok(Some(placed));
            }
        }
        Ok(None)
    }

    /// Appends the message on a violation. Fails like `is_valid`.
    pub(crate) fn push_message(
        &self,
        out: &mut Text,
        violation: &Violation<'_, '_, '_>,
        listed: &Listed<'_>,
    ) -> Result<(), CheckError> {
        let (Keyword::PropertyNames(node), Part::Member(key, _)) = (
            &violation.at.placed.keyword,
            violation.part,
        ) else {
            self.push_plain(out, violation, listed);
            return Ok(());
        };
        let name = key.name.as_ref();
        let value = Value::with_span(ValueInner::String(CowStr::Borrowed(name)), key.span);
        out.push_all("key `", name, "` is not allowed");
        if let Some(placed) = self.refusing(*node, &value)? {
            out.push(": ");
            self.push_keyword(out, placed, Cause::Refused, &value);
        }
        Ok(())
    }

    /// Returns whether `items` of the schema at index `node` does not rule out tables by `type`.
    fn has_tables(&self, node: usize) -> bool {
        for placed in self.keywords(node) {
            if let Keyword::Items(_, Some(next)) = &placed.keyword {
                for inner in self.keywords(*next) {
                    if let Keyword::Type(types) = &inner.keyword {
                        return types.object;
                    }
                }
            }
        }
        true
    }

    /// Returns a value that the schema at index `node` may allow, as TOML: the first one that it lists, or an empty
    /// value of its type. Returns an empty text if the schema has neither.
    fn value_for(&self, node: usize) -> &str {
        let mut kinds = Kinds::NONE;
        for placed in self.keywords(node) {
            match &placed.keyword {
                Keyword::Type(types) => kinds.add_types(types),
                Keyword::Enum(_, shown) => {
                    let Some(first) = shown.first() else {
                        return "";
                    };
                    // (JSON and TOML write such values alike)
                    if !first.contains('\\') && !first.contains('{') {
                        return first.trim_matches('`');
                    }
                }
                _ => {}
            }
        }
        if kinds.is_empty() {
            ""
        } else {
            kinds.empty_value()
        }
    }

    /// Appends what to do about a table without the key `name`, which the schema at index `node` requires: add the key,
    /// with a value that its schema may allow. Appends nothing if no such value is known.
    fn push_addition(&self, out: &mut Text, node: usize, name: &str) {
        for placed in self.keywords(node) {
            if let Keyword::Properties(named, _, _) = &placed.keyword {
                let value = match named.get(name) {
                    Some(inner) => self.value_for(*inner),
                    None => "",
                };
                if is_plain(name) && !value.is_empty() {
                    out.push_all("add `", name, " = ");
                    out.push_all(value, "`", "");
                    return;
                }
            }
        }
    }

    /// Appends what to do about an array instead of a table, or a table instead of an array of tables: another header.
    fn push_header(&self, out: &mut Text, violation: &Violation<'_, '_, '_>, types: &Types) {
        let header = violation.table.as_str();
        if !violation.part.is_header() || header.contains('[') || types.array == types.object {
            return;
        }
        if types.object && violation.part.value().as_array().is_some() {
            out.push_all("write `[", header, "]` for a table");
        } else if types.array && self.has_tables(violation.at.node) {
            out.push_all("write `[[", header, "]]` for an array of tables");
        }
    }

    /// Appends what to do about a missing key or a value of a wrong type, if anything: the key with a value, quotes
    /// around a number or boolean, or a table instead of an array of tables.
    pub(crate) fn push_help(
        &self,
        out: &mut Text,
        violation: &Violation<'_, '_, '_>,
        listed: &Listed<'_>,
    ) -> Result<(), AllocError> {
        let alloc = self.alloc();
        if let Cause::Missing(name) = violation.cause {
            self.push_addition(out, violation.at.node, name);
        }
        if !violation.is_unlisted() {
            return Ok(());
        }
        let value = violation.part.value();
        let found = scalar_text(alloc, value)?;
        let text = value.as_str().unwrap_or("");
        if value.as_str().is_some() && needs_no_quotes(alloc, text, listed)? {
            out.push_all("remove the quotes: `", text, "`");
        } else if !found.is_empty() && needs_quotes(found.as_str(), listed) {
            out.push_all("put it in quotes: `\"", found.as_str(), "\"`");
        } else {
            self.push_header(out, violation, &listed.types);
        }
        Ok(())
    }
}
