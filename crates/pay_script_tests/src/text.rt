//! Texts that tests read and compare.

use pay_fixed::{Fixed, NoMemory};
use pay_tree::Name;
use std::alloc::{AllocError, Global};

/// A text by its front, a piece, how often that stands, what stands then, and a piece that stands as often at the end.
pub type Text = (
    &'static [u8],
    &'static [u8],
    usize,
    &'static [u8],
    &'static [u8],
);

/// Appends a piece so many times.
fn put_times(text: &mut Vec<u8>, piece: &[u8], times: usize) -> Result<(), AllocError> {
    for _ in 0..times {
        text.extend_from_slice(piece)?;
    }
    Ok(())
}

/// The whole of a text.
pub fn text_of(
    alloc: Global,
    (front, piece, times, between, end): Text,
) -> Result<Vec<u8>, AllocError> {
    let mut text = Vec::from_slice(alloc, front)?;
    put_times(&mut text, piece, times)?;
    text.extend_from_slice(between)?;
    put_times(&mut text, end, times)?;
    Ok(text)
}

/// Appends a word, and a number right after it.
pub fn put(text: &mut Vec<u8>, word: &[u8], number: u32) -> Result<(), NoMemory> {
    text.extend_from_slice(word)?;
    let number = Fixed::from_raw(i64::from(number) * 10_000).ok_or(NoMemory)?;
    number.write_decimal(text)
}

/// Appends names, each after a blank.
pub fn put_names(text: &mut Vec<u8>, names: &[Name]) -> Result<(), NoMemory> {
    for name in names {
        text.extend_from_slice(b" ")?;
        text.extend_from_slice(name.bytes())?;
    }
    Ok(())
}
