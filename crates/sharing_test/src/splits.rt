// Splits.
use crate::former::FORMER;
use crate::lent::{A, cut, given, pattern};
use crate::printing;
use sharing::{Form, Parameters};
use std::io;

// Two blocks, of all parties: the share of party 1 alone would be the same if the blocks stood one after another.
pub(crate) fn two_blocks(rt: &impl Print) -> io::Result<()> {
    let mut out = [0u8; 12];
    show(rt, A, &[5, 7, 1], &[9, 4, 2, 6], &mut out)
}

// The scheme of Figure 2b, the former default, one count alone, an empty message, and the default.
pub(crate) fn small_schemes(rt: &impl Print) -> io::Result<()> {
    show_pattern(rt, given(7, 4, 1, &[7, 4, 3]), 6, 3, 21)?;
    show_pattern(rt, FORMER, 12, 6, 30)?;
    show_pattern(rt, FORMER, 13, 12, 60)?;
    show_pattern(rt, given(2, 0, 1, &[2]), 3, 3, 6)?;
    show_pattern(rt, FORMER, 0, 0, 0)?;
    show_pattern(rt, Parameters::default(), 6, 12, 30)?;
    show_pattern(rt, Parameters::default(), 13, 36, 90)
}

// Schemes that show the order of the copies (gaps of 2 and more between the counts) and of the keys
// (z of 2 and 3), of two blocks and more.
pub(crate) fn orders(rt: &impl Print) -> io::Result<()> {
    show_pattern(rt, given(10, 4, 1, &[10, 6]), 45, 9, 90)?;
    show_pattern(rt, given(10, 4, 1, &[10, 6]), 50, 18, 180)?;
    show_pattern(rt, given(6, 2, 2, &[6, 4]), 8, 8, 24)?;
    show_pattern(rt, given(8, 2, 3, &[8, 6]), 31, 45, 120)?;
    show_pattern(rt, given(9, 4, 2, &[9, 7, 5]), 105, 70, 315)
}

// Each refusal. The output has room for the shares of one block of document 01's plan A.
pub(crate) fn refused(rt: &impl Print) -> io::Result<()> {
    show_refused(rt, given(1, 1, 1, &[3, 2]), 2, 2)?;
    show_refused(rt, given(3, 1, 0, &[3, 2]), 2, 2)?;
    show_refused(rt, given(3, 1, 1, &[3, 3]), 2, 2)?;
    show_refused(rt, given(10, 4, 1, &[10, 9, 8, 6]), 2, 2)?;
    show_refused(rt, A, 2, 1)?;
    show_refused(rt, A, 3, 4)
}

// Two that are neighbours in the table of refusals at once, of which the first is answered: 4 and 5, 5 and 8, 8 and 10.
pub(crate) fn refused_twice(rt: &impl Print) -> io::Result<()> {
    show_refused(rt, given(10, 4, 1, &[10, 9, 8, 6]), 16385, 2)?;
    show_refused(rt, A, 16385, 1)?;
    show_refused(rt, A, 3, 1)
}

// Splits zeros, so many of them.
fn show_refused(rt: &impl Print, given: Parameters, message: usize, keys: usize) -> io::Result<()> {
    let zeros = [0u8; 16385];
    let mut out = [7u8; 6];
    show(rt, given, cut(&zeros, message), cut(&zeros, keys), &mut out)
}

// Splits a message of so many bytes of a pattern.
fn show_pattern(
    rt: &impl Print,
    given: Parameters,
    message: usize,
    keys: usize,
    many: usize,
) -> io::Result<()> {
    let message_bytes = pattern(5);
    let key_bytes = pattern(170);
    let mut out = [0u8; 512];
    let Some(part) = out.get_mut(..many) else {
        return Ok(());
    };
    show(
        rt,
        given,
        cut(&message_bytes, message),
        cut(&key_bytes, keys),
        part,
    )
}

// Splits, and prints the answer and what the output then holds.
fn show(
    rt: &impl Print,
    given: Parameters,
    message: &[u8],
    keys: &[u8],
    out: &mut [u8],
) -> io::Result<()> {
    let written = sharing::split(Form::Earlier, given, message, keys, out);
    printing::answer(rt, "written ", written)?;
    printing::bytes(rt, out)
}
