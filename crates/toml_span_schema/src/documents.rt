//! JSON documents that the references in a schema may name.

/// A JSON document with the address by which references name it.
#[derive(Clone, Copy)]
pub struct Document<'a> {
    /// An absolute URL without a fragment.
    pub address: &'a str,
    /// The JSON text.
    pub text: &'a str,
}
