//! Types that are read from tables, and a type that is read from a number.
use std::alloc::Global;
use std::borrow::CowStr;
use toml_span::de_helpers::TableHelper;
use toml_span::{
    DeserError, Deserialize, Error, ErrorKind, Span, Spanned, Stop, Value, read_table, read_tagged,
};

/// A server. Its table must not have other keys.
#[derive(Debug, Drop)]
pub struct Server<'de> {
    pub host: CowStr<'de>,
    pub port: Spanned<u16>,
    pub tags: Option<Vec<String>>,
}

impl<'de> Deserialize<'de> for Server<'de> {
    fn deserialize(
        alloc: Global,
        value: &mut Value<'de>,
    ) -> Result<Server<'de>, Stop<DeserError<'de>>> {
        read_table!(alloc, value, Server {
            host: CowStr<'de>;
            port: Spanned<u16>;
            tags: Vec<String>, optional;
        })
    }
}

/// Fields with aliases, a number that is parsed from a string, and a struct whose keys are in the same table.
#[derive(Debug, Drop)]
pub struct Upload {
    pub max_body: u64,
    pub limit: Option<u8>,
    pub mode: Spanned<u8>,
    pub range: Range,
}

impl<'de> Deserialize<'de> for Upload {
    fn deserialize(alloc: Global, value: &mut Value<'de>) -> Result<Upload, Stop<DeserError<'de>>> {
        read_table!(alloc, value, Upload {
            max_body: u64 = "max-body", alias("max_body");
            limit: Option<u8> = "limit", alias("max");
            mode: Spanned<u8>, parsed;
            range: Range, flatten;
        })
    }
}

/// Fields with an `Option`, fields that `FromStr` parses from strings, and a pair. Other keys stay in the table.
#[derive(Debug, Drop)]
pub struct Holders {
    some: Option<u8>,
    each: Vec<Option<u8>>,
    parsed: char,
    maybe: Option<char>,
    pair: (u8, String),
}

impl<'de> Deserialize<'de> for Holders {
    fn deserialize(alloc: Global, value: &mut Value<'de>) -> Result<Self, Stop<DeserError<'de>>> {
        read_table!(alloc, value, Holders {
            some: Option<u8>;
            each: Vec<Option<u8>> = "all", or(Vec::new(alloc));
            parsed: char, parsed;
            maybe: Option<char>, parsed;
            pair: (u8, String);
            ..
        })
    }
}

/// Two bounds, the lower first.
#[derive(Debug, Drop)]
pub struct Range {
    pub low: u8,
    pub high: u8,
}

impl<'de> Deserialize<'de> for Range {
    fn deserialize(alloc: Global, value: &mut Value<'de>) -> Result<Range, Stop<DeserError<'de>>> {
        let span = value.span;
        let mut helper = TableHelper::new(alloc, value)?;
        let low = helper.read_optional::<u8>("low")?;
        let high = helper.read_optional::<u8>("high")?;
        let range = helper.kept(range_of(low, high, span))?;
        helper.finish()?;
        Ok(range.unwrap())
    }
}

/// Returns the range from `low` to `high`. If `low` is missing, it is 0; if `high` is missing, it is 255. Fails with an
/// error at `span` if `low` is above `high`.
fn range_of<'s>(
    low: Option<u8>,
    high: Option<u8>,
    span: Span,
) -> Result<Range, Stop<DeserError<'s>>> {
    let (low, high) = (low.unwrap_or(0), high.unwrap_or(255));
    if low > high {
        let kind = ErrorKind::Custom(CowStr::Borrowed("low above high"));
        return Err(Error::from((kind, span)).into());
    }
    Ok(Range { low, high })
}

/// A peer, whose name is unique in its list.
#[derive(Debug, Drop)]
pub struct Peer {
    name: Spanned<String>,
    weight: u8,
}

impl<'de> Deserialize<'de> for Peer {
    fn deserialize(alloc: Global, value: &mut Value<'de>) -> Result<Self, Stop<DeserError<'de>>> {
        read_table!(alloc, value, Peer { name: Spanned<String> = "id"; weight: u8; })
    }
}

/// A name with a default, and a list of peers, which also has an old name.
#[derive(Debug, Drop)]
pub struct Relay {
    name: String,
    peers: Vec<Peer>,
}

impl<'de> Deserialize<'de> for Relay {
    fn deserialize(alloc: Global, value: &mut Value<'de>) -> Result<Self, Stop<DeserError<'de>>> {
        read_table!(alloc, value, Relay {
            name: String, alias("title"), or("relay");
            peers: Vec<Peer>, alias("nodes"), unique(name = "id");
        })
    }
}

/// Floats that must be in a range, and optional lists of peers with different names.
#[derive(Debug, Drop)]
pub struct Panel {
    gain: f64,
    pan: Option<f32>,
    fade: Spanned<f64>,
    peers: Vec<Peer>,
    spare: Option<Vec<Peer>>,
}

impl<'de> Deserialize<'de> for Panel {
    fn deserialize(alloc: Global, value: &mut Value<'de>) -> Result<Self, Stop<DeserError<'de>>> {
        read_table!(alloc, value, Panel {
            gain: f64, alias("volume"), range(0.0..=1.0), or(0.5);
            pan: Option<f32>, range(-1.0..=1.0);
            fade: Spanned<f64>, range(0.0..=1e3);
            peers: Vec<Peer>, unique(name = "id"), or(Vec::new(alloc));
            spare: Option<Vec<Peer>>, unique(name = "id");
        })
    }
}

/// The target of output.
#[derive(Debug, Drop)]
pub enum Target {
    File { path: String, append: bool },
    Range(Range),
    Nothing,
}

impl<'de> Deserialize<'de> for Target {
    fn deserialize(alloc: Global, value: &mut Value<'de>) -> Result<Target, Stop<DeserError<'de>>> {
        read_tagged!(alloc, value, "kind", {
            "file" => Target::File { path: String; append: bool, or(false); },
            "range" => Target::Range(Range),
            "nothing" => Target::Nothing,
        })
    }
}

/// A number from 0 to 1.
#[derive(Debug, Drop)]
pub struct Ratio(f64);

impl<'de> Deserialize<'de> for Ratio {
    fn deserialize(alloc: Global, value: &mut Value<'de>) -> Result<Ratio, Stop<DeserError<'de>>> {
        let ratio = f64::deserialize(alloc, value)?;
        if 0.0 <= ratio && ratio <= 1.0 {
            return Ok(Ratio(ratio));
        }
        let kind = ErrorKind::Custom(CowStr::Borrowed("a ratio is from 0 to 1"));
        Err(Error::from((kind, value.span)).into())
    }
}
