// What is printed: words, each followed by numbers in decimal.
use sharing::Refusal;
use std::io;

pub(crate) fn word(rt: &impl Print, text: &str) -> io::Result<()> {
    print!(rt; "{text}")
}

pub(crate) fn end_line(rt: &impl Print) -> io::Result<()> {
    println!(rt)
}

pub(crate) fn number(rt: &impl Print, text: &str, value: usize) -> io::Result<()> {
    print!(rt; "{text} {value}")
}

pub(crate) fn byte(rt: &impl Print, text: &str, value: u8) -> io::Result<()> {
    number(rt, text, usize::from(value))
}

pub(crate) fn bytes(rt: &impl Print, text: &str, values: &[u8]) -> io::Result<()> {
    word(rt, text)?;
    for &value in values {
        byte(rt, "", value)?;
    }
    Ok(())
}

pub(crate) fn refused(rt: &impl Print, refusal: Refusal) -> io::Result<()> {
    byte(rt, " refused", refusal.number())
}

// A call's answer, with a word for what it answers when it is accepted.
pub(crate) fn answer(
    rt: &impl Print,
    text: &str,
    answer: Result<usize, Refusal>,
) -> io::Result<()> {
    match answer {
        Ok(value) => number(rt, text, value),
        Err(refusal) => refused(rt, refusal),
    }
}
