//! Types that together use many attributes of `Deserialize`, and have fields of many types.
use serde::{Deserialize, Deserializer, Format};
use std::alloc::Global;

/// The way to reach a device. The tag is among the other fields.
#[derive(Debug, Drop, Deserialize)]
#[serde(tag = "kind", rename_all = "lowercase")]
pub enum Transport<'a> {
    Tcp { port: u16 },
    Unix { path: &'a str },
}

/// A measurement of a device. The tag is next to the content.
#[derive(Debug, Drop, Deserialize)]
#[serde(tag = "t", content = "c")]
pub enum Reading<'a> {
    Level(i8),
    Note(&'a str),
}

/// A name and a transport in the same table.
#[derive(Debug, Drop, Deserialize)]
pub struct Link<'a> {
    pub name: &'a str,
    #[serde(flatten)]
    pub transport: Transport<'a>,
}

/// A number, a text or numbers, without a tag.
#[derive(Debug, Drop, Deserialize)]
#[serde(untagged)]
pub enum Either<'a> {
    Number(i8),
    Text(&'a str),
    List(Vec<i8>),
}

/// Fields whose types are enums, and a field with a struct that contains an enum.
#[derive(Debug, Drop, Deserialize)]
pub struct Tagged<'a> {
    pub transport: Option<Transport<'a>>,
    pub reading: Option<Reading<'a>>,
    pub link: Option<Link<'a>>,
    pub either: Option<Either<'a>>,
}

/// Fields with a boolean, a character, a pair and a number. The number has an alias.
#[derive(Debug, Drop, Deserialize)]
pub struct Device {
    pub flag: Option<bool>,
    pub letter: Option<char>,
    pub pair: Option<(i8, i8)>,
    #[serde(alias = "max-body")]
    pub max_body: Option<u64>,
}

/// Reads a number that is written as a string.
mod spelled {
    use serde::{Deserializer, Format};
    use std::alloc::Global;

    pub fn deserialize<F: Format>(
        alloc: Global,
        from: &mut Deserializer<'_, '_, F>,
    ) -> Result<u16, F::Error> {
        match from.string(alloc)?.as_str().parse::<u16>() {
            Ok(number) => Ok(number),
            Err(_) => Err(from.custom("the string spells no number")),
        }
    }
}

/// Reads a percentage. Fails if the value is not an integer from 0 to 100.
fn percent<F: Format>(_alloc: Global, from: &mut Deserializer<'_, '_, F>) -> Result<u64, F::Error> {
    let share = from.u64()?;
    if share > 100 {
        return Err(from.custom("a share is at most 100"));
    }
    Ok(share)
}

/// Returns the default port.
fn eighty() -> u16 {
    80
}

/// The kind of a message.
#[derive(Debug, Drop, Deserialize)]
#[serde(rename_all = "lowercase", rename_all_fields = "kebab-case")]
pub enum Kind<'a> {
    Plain,
    #[serde(alias = "tls")]
    Secure { signed_by: &'a str },
    #[serde(other)]
    Unknown,
}

/// Fields with the attributes `rename`, `default`, `skip`, `with` and `deserialize_with`. Missing fields get default
/// values.
#[derive(Debug, Drop, Default, Deserialize)]
#[serde(default, rename_all = "kebab-case")]
pub struct Attributes<'a> {
    pub retry_count: u8,
    #[serde(rename = "type")]
    pub kind: Option<Kind<'a>>,
    #[serde(default = "eighty")]
    pub port: u16,
    #[serde(skip)]
    pub uses: u8,
    #[serde(with = "spelled")]
    pub level: u16,
    #[serde(deserialize_with = "percent")]
    pub share: u64,
}
