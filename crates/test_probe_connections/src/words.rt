//! Words of requests that stand for bytes, numbers and attributes.

use crate::prelude::*;
use std::str::FromStr;

/// The bytes of a word: `none` stands for none, `()` for no byte.
pub fn bytes<'a>(word: &'a str) -> Option<&'a [u8]> {
    match word {
        "none" => None,
        "()" => Some(b""),
        _ => Some(word.as_bytes()),
    }
}

/// The same, borrowed.
pub fn borrowed<'a>(word: &'a str) -> Option<CowSlice<'a, u8>> {
    lent(bytes(word))
}

/// The same, with no byte in place of none.
pub fn name<'a>(word: &'a str) -> CowSlice<'a, u8> {
    CowSlice::Borrowed(bytes(word).unwrap_or(b""))
}

/// The bytes, borrowed, where there are some.
pub fn lent<'b>(bytes: Option<&'b [u8]>) -> Option<CowSlice<'b, u8>> {
    bytes.map(|bytes| CowSlice::Borrowed(bytes))
}

/// The bytes, on memory of their own.
pub fn owned(out: &mut Out, bytes: &[u8]) -> CowSlice<'static, u8> {
    CowSlice::Owned(or_empty(out, Vec::from_slice(out.alloc(), bytes)))
}

/// The number that a word spells, or 0.
pub fn number<T: FromStr + Default + Drop>(word: &str) -> T
where
    T::Err: Drop,
{
    word.parse::<T>().unwrap_or_default()
}

/// The count in front of the bytes of a request.
pub fn count(request: &Request<'_>) -> usize {
    number(request.word(2))
}

/// Attributes, where there is a list of them.
pub type Attributes = Option<IndexMap<String, String>>;

/// The attributes of a word, as `k=v,l=w`: `none` stands for no list of them, `()` for an empty one.
pub fn attributes(alloc: Global, word: &str) -> Result<Attributes> {
    if word == "none" {
        return Ok(None);
    }
    let mut texts = IndexMap::new(alloc);
    if word != "()" {
        for pair in word.split(',') {
            let (key, value) = pair.split_once('=').unwrap_or((pair, ""));
            let key = String::from_str(alloc, key)?;
            texts.insert(key, String::from_str(alloc, value)?)?;
        }
    }
    Ok(Some(texts))
}
