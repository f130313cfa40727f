// What is printed: words and numbers in decimal.
use sharing::Refusal;
use std::io;

// An answer, with a word for what it is when the call is accepted.
pub(crate) fn answer(
    rt: &impl Print,
    text: &str,
    answer: Result<usize, Refusal>,
) -> io::Result<()> {
    match answer {
        Ok(value) => number(rt, text, value),
        Err(refusal) => number(rt, "refused ", usize::from(refusal.number())),
    }
}

// Bytes, to the end of the line.
pub(crate) fn bytes(rt: &impl Print, bytes: &[u8]) -> io::Result<()> {
    for &byte in bytes {
        number(rt, " ", usize::from(byte))?;
    }
    println!(rt)
}

pub(crate) fn number(rt: &impl Print, text: &str, number: usize) -> io::Result<()> {
    print!(rt; "{text}{number}")
}

pub(crate) fn word(rt: &impl Print, text: &str) -> io::Result<()> {
    print!(rt; "{text}")
}
