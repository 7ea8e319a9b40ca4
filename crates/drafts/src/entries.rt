use std::alloc::Global;
use tree::source::TOKEN_LENGTH;

/// The mark of a token that is present, said here again: the reading of it is what is tried.
const PRESENT: u8 = 1;

/// A mark of a token that is torn.
const TORN: u8 = 2;

/// Entries of a list source, in which all bytes of a token are its number. One of the tokens may be torn.
pub(crate) fn entries(heap: Global, count: u8, torn: Option<u8>) -> anyhow::Result<Vec<u8>> {
    let mut bytes = Vec::new(heap);
    for number in 0..count {
        bytes.push(if torn == Some(number) { TORN } else { PRESENT })?;
        bytes.extend_from_slice(&[number; TOKEN_LENGTH])?;
    }
    Ok(bytes)
}
