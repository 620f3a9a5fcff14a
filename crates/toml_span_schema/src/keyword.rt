//! Compiled keywords. A `Schema` has a list of compiled schemas (`Node`), which refer to one another by their indices
//! in the list.

use crate::numbers::Decimal;
use std::collections::{BTreeMap, BTreeSet};

/// The types that the keyword `type` allows.
#[derive(Clone, Copy, Drop)]
pub(crate) struct Types {
    pub(crate) boolean: bool,
    pub(crate) object: bool,
    pub(crate) array: bool,
    pub(crate) string: bool,
    /// Any number.
    pub(crate) number: bool,
    /// A TOML integer.
    pub(crate) integer: bool,
    /// A float without a fraction, such as `1.0`, which is an integer from draft 6 on.
    pub(crate) whole: bool,
}

impl Types {
    /// No type.
    pub(crate) const NONE: Types = Types {
        boolean: false,
        object: false,
        array: false,
        string: false,
        number: false,
        integer: false,
        whole: false,
    };

    /// Returns whether no value of TOML has one of the types.
    pub(crate) fn is_empty(&self) -> bool {
        let inside = self.object || self.array;
        !(inside || self.boolean || self.string || self.number || self.integer)
    }

    /// Adds types to these.
    pub(crate) fn add(&mut self, more: Types) {
        self.boolean |= more.boolean;
        self.object |= more.object;
        self.array |= more.array;
        self.string |= more.string;
        self.number |= more.number;
        self.integer |= more.integer;
    }
}

/// A compiled keyword. Subschemas are indices in `Schema::nodes`, and regular expressions are indices in
/// `Schema::patterns`.
#[derive(Drop)]
pub(crate) enum Keyword {
    /// The schema `false`.
    Never,
    Type(Types),
    /// The values of `enum` or `const` as canonical texts (see `canonical`), without values that are or contain `null`.
    /// The second field has these values as messages show them, such as `"a"` in backticks.
    Enum(BTreeSet<String>, Vec<String>),
    Minimum(Decimal),
    ExclusiveMinimum(Decimal),
    Maximum(Decimal),
    ExclusiveMaximum(Decimal),
    /// The divisor is the first field times a power of ten. The second field is the exponent of this power, plus 2^66.
    MultipleOf(u64, u128),
    MinLength(u64),
    MaxLength(u64),
    /// The index of a regular expression.
    Pattern(usize),
    /// `format`: the index of its regular expression, the maximum number of characters, and whether the second 60 is
    /// allowed only at 23:59:60 UTC.
    Format(usize, u64, bool),
    /// The format `regex`.
    RegexFormat,
    MinItems(u64),
    MaxItems(u64),
    UniqueItems,
    MinProperties(u64),
    MaxProperties(u64),
    Required(Vec<String>),
    /// Pairs of a key and a list of keys. A table with the key must have all keys in the list.
    DependentRequired(Vec<(String, Vec<String>)>),
    /// `allOf`, or a list of one subschema: that of a reference, or the other keywords in a schema with
    /// `unevaluatedItems` or `unevaluatedProperties`.
    AllOf(Vec<usize>),
    AnyOf(Vec<usize>),
    OneOf(Vec<usize>),
    Not(usize),
    /// `if`, `then` and `else`.
    If(usize, Option<usize>, Option<usize>),
    DependentSchemas(Vec<(String, usize)>),
    /// `prefixItems` and `items` of draft 2020-12, or `items` and `additionalItems` of earlier drafts.
    Items(Vec<usize>, Option<usize>),
    /// `contains`, `minContains`, `maxContains`, and whether an element that matches counts as evaluated, as in draft
    /// 2020-12.
    Contains(usize, u64, u64, bool),
    /// `properties` by name, `patternProperties` as pairs of a regular expression and a subschema, and
    /// `additionalProperties`.
    Properties(BTreeMap<String, usize>, Vec<(usize, usize)>, Option<usize>),
    PropertyNames(usize),
    /// The compiled form of the other keywords in the same schema, and the subschema of this keyword.
    /// `UnevaluatedProperties` has the same two fields.
    UnevaluatedItems(usize, usize),
    UnevaluatedProperties(usize, usize),
}

/// A keyword with its name in reports, such as `maximum`.
#[derive(Drop)]
pub(crate) struct Placed {
    pub(crate) keyword: Keyword,
    pub(crate) name: &'static str,
    /// The keyword's value in the schema, as messages show it, if it is a number, string or boolean.
    pub(crate) shown: String,
}

/// A compiled schema, from an object or a boolean.
#[derive(Drop)]
pub(crate) struct Node {
    pub(crate) keywords: Vec<Placed>,
    /// Where the schema is: a JSON pointer, after the name of the document and `#` unless it is the text of
    /// `from_json`.
    pub(crate) place: String,
    /// The schema's `title` or, if it has none, its `description`.
    pub(crate) title: Option<String>,
    /// Whether the schema says `deprecated: true`. Always false for the compiled form of a schema without
    /// `unevaluatedItems` and `unevaluatedProperties`, since the full form of the schema has the flag.
    pub(crate) deprecated: bool,
}
