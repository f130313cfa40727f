// What a message of so many bytes asks for: its blocks, and the bytes of its keys, of a share, of all shares and of what is
// opened; in both forms, with a scheme and by default.
use crate::lent::{A, given};
use crate::printing;
use sharing::{Form, MessageLengths, Parameters, Refusal};
use std::io;

// In document 01's plan A: two bytes, which fill a block, none, and the longest message and one that is longer.
pub(crate) fn of_scheme_a(rt: &impl Print) -> io::Result<()> {
    with_scheme(rt, A, 2)?;
    with_scheme(rt, A, 0)?;
    with_scheme(rt, A, 16384)?;
    with_scheme(rt, A, 16385)
}

// Where m, b, r and z all differ: 6 bytes fill a block of 3 rows, with 2 key bytes each.
pub(crate) fn of_other_numbers(rt: &impl Print) -> io::Result<()> {
    with_scheme(rt, given(5, 1, 2, &[5, 4]), 6)
}

// The scheme is refused first, also of a message that is too long.
pub(crate) fn refused_twice(rt: &impl Print) -> io::Result<()> {
    with_scheme(rt, given(10, 4, 1, &[10, 9, 8, 6]), 16385)
}

pub(crate) fn by_default(rt: &impl Print) -> io::Result<()> {
    with_scheme(rt, Parameters::default(), 33)?;
    with_scheme(rt, Parameters::default(), 16385)
}

fn with_scheme(rt: &impl Print, given: Parameters, length: usize) -> io::Result<()> {
    show(rt, length, sharing::lengths(Form::Earlier, given, length))?;
    show(rt, length, sharing::lengths(Form::Padded, given, length))
}

fn show(rt: &impl Print, length: usize, answer: Result<MessageLengths, Refusal>) -> io::Result<()> {
    printing::number(rt, "length ", length)?;
    match answer {
        Ok(l) => {
            printing::number(rt, " blocks ", l.blocks)?;
            printing::number(rt, " keys ", l.keys)?;
            printing::number(rt, " share ", l.share)?;
            printing::number(rt, " output ", l.output)?;
            printing::number(rt, " opened ", l.opened)?;
        }
        Err(refusal) => printing::number(rt, " refused ", usize::from(refusal.number()))?,
    }
    printing::word(rt, "\n")
}
