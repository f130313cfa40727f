// Prefixes of a share.
use crate::former::FORMER;
use crate::lent::{cut, given};
use crate::printing;
use sharing::{Parameters, Refusal};
use std::io;

// The longest message, and 12 bytes: of shares stored under the former default, where these are one block, and in the
// default scheme, where they are two.
pub(crate) fn handed_out(rt: &impl Print) -> io::Result<()> {
    show(rt, FORMER, 16384, 3, 8196)?;
    show(rt, FORMER, 12, 4, 6)?;
    show(rt, Parameters::default(), 16384, 3, 16386)?;
    show(rt, Parameters::default(), 12, 4, 12)
}

// Each refusal of the message's length, the count and the share; the last one is a share of the former default.
pub(crate) fn refused(rt: &impl Print) -> io::Result<()> {
    show(rt, FORMER, 16385, 3, 8196)?;
    show(rt, FORMER, 12, 2, 6)?;
    show(rt, FORMER, 12, 4, 7)?;
    show(rt, Parameters::default(), 16385, 3, 16386)?;
    show(rt, Parameters::default(), 12, 2, 12)?;
    show(rt, Parameters::default(), 12, 4, 6)
}

// Two neighbours at once: 4 and 5, 5 and 6, 6 and 9.
pub(crate) fn refused_twice(rt: &impl Print) -> io::Result<()> {
    show(rt, given(10, 4, 1, &[10, 9, 8, 6]), 16385, 6, 1)?;
    show(rt, FORMER, 16385, 2, 8196)?;
    show(rt, FORMER, 12, 2, 7)?;
    show(rt, Parameters::default(), 16385, 2, 16386)?;
    show(rt, Parameters::default(), 12, 2, 6)
}

// The share has so many bytes.
fn show(
    rt: &impl Print,
    given: Parameters,
    message: usize,
    d: usize,
    bytes: usize,
) -> io::Result<()> {
    let zeros = [0u8; 16386];
    let share = cut(&zeros, bytes);
    let length = sharing::prefix_length(given, message, d, share);
    let part = sharing::prefix(given, message, d, share);
    print(rt, "prefix ", length, share.len(), part.len())
}

// The answer, and the lengths of the share and of the part that is handed back.
pub(crate) fn print(
    rt: &impl Print,
    text: &str,
    length: Result<usize, Refusal>,
    share: usize,
    part: usize,
) -> io::Result<()> {
    printing::answer(rt, text, length)?;
    printing::number(rt, " of ", share)?;
    printing::number(rt, ", handed ", part)?;
    printing::bytes(rt, &[])
}
