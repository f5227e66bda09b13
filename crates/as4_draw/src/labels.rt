//! Labels, made of words, names and numbers.

use as4_values::NoMemory;
use std::alloc::Global;

/// A word with the number after it.
pub(crate) fn counted(alloc: Global, word: &str, number: u64) -> Result<Vec<u8>, NoMemory> {
    Ok(format!(in alloc; "{word} {number}")?.into_bytes())
}

/// A word, a number, and the name after it.
pub(crate) fn counted_and_named(
    alloc: Global,
    word: &str,
    number: u64,
    name: &[u8],
) -> Result<Vec<u8>, NoMemory> {
    let mut label = format!(in alloc; "{word} {number} ")?.into_bytes();
    label.extend_from_slice(name)?;
    Ok(label)
}

/// A word with the name after it.
pub(crate) fn named(alloc: Global, word: &[u8], name: &[u8]) -> Result<Vec<u8>, NoMemory> {
    let mut label = Vec::from_slice(alloc, word)?;
    label.extend_from_slice(name)?;
    Ok(label)
}
