// Openings.
use crate::former::FORMER;
use crate::lent::{A, cut, given, pattern};
use crate::printing;
use sharing::{Parameters, Refusal};
use std::io;

// The examples of document 01 in its plan A, and prefixes that no splitter wrote.
pub(crate) fn of_scheme_a(rt: &impl Print) -> io::Result<()> {
    show_a(rt, &[1, 2, 3], &[11, 31, 29])?;
    show_a(rt, &[1, 3], &[11, 3, 29, 13])?;
    show_a(rt, &[2, 3], &[1, 2, 3, 4])
}

// More of them, with several groups of rows: the former default and others, and the default.
pub(crate) fn of_groups(rt: &impl Print) -> io::Result<()> {
    show_pattern(rt, FORMER, &[1, 2, 4, 5], 32)?;
    show_pattern(rt, FORMER, &[1, 3, 5], 36)?;
    show_pattern(rt, given(7, 4, 1, &[7, 4, 3]), &[2, 5, 7], 27)?;
    show_pattern(rt, given(6, 2, 2, &[6, 4]), &[1, 2, 3, 6], 32)?;
    show_pattern(rt, Parameters::default(), &[1, 2, 3, 4, 5], 30)?;
    show_pattern(rt, Parameters::default(), &[1, 2, 4, 5], 36)?;
    show_pattern(rt, Parameters::default(), &[1, 3, 5], 54)
}

// Each refusal. The output has 2 bytes, a block of plan A.
pub(crate) fn refused(rt: &impl Print) -> io::Result<()> {
    show_refused(rt, given(3, 1, 1, &[3, 3]), 2, &[1, 3], 4)?;
    show_refused(rt, A, 16385, &[1, 3], 4)?;
    show_refused(rt, A, 2, &[1], 2)?;
    show_refused(rt, A, 2, &[3, 1], 4)?;
    show_refused(rt, A, 2, &[1, 4], 4)?;
    show_refused(rt, A, 2, &[1, 3], 3)?;
    show_refused(rt, A, 1, &[1, 3], 4)
}

// Two neighbours at once: 4 and 5, 5 and 6, 6 and 7, 7 and 9, 9 and 10.
pub(crate) fn refused_twice(rt: &impl Print) -> io::Result<()> {
    show_refused(rt, given(10, 4, 1, &[10, 9, 8, 6]), 16385, &[1, 3], 4)?;
    show_refused(rt, A, 16385, &[1], 4)?;
    show_refused(rt, A, 2, &[0], 2)?;
    show_refused(rt, A, 2, &[3, 1], 3)?;
    show_refused(rt, A, 1, &[1, 3], 3)
}

// Opens so many zeros.
fn show_refused(
    rt: &impl Print,
    given: Parameters,
    length: usize,
    parties: &[u8],
    prefixes: usize,
) -> io::Result<()> {
    let zeros = [0u8; 4];
    let mut out = [5u8; 2];
    show(rt, given, length, parties, cut(&zeros, prefixes), &mut out)
}

// A message of 2 bytes in plan A.
fn show_a(rt: &impl Print, parties: &[u8], prefixes: &[u8]) -> io::Result<()> {
    let mut out = [0u8; 2];
    show(rt, A, 2, parties, prefixes, &mut out)
}

// A message of 13 bytes, from so many bytes of a pattern.
fn show_pattern(
    rt: &impl Print,
    given: Parameters,
    parties: &[u8],
    prefixes: usize,
) -> io::Result<()> {
    let bytes = pattern(5);
    let mut out = [0u8; 13];
    show(rt, given, 13, parties, cut(&bytes, prefixes), &mut out)
}

// Opens a message, and prints the answer and what the output then holds.
fn show(
    rt: &impl Print,
    given: Parameters,
    length: usize,
    parties: &[u8],
    prefixes: &[u8],
    out: &mut [u8],
) -> io::Result<()> {
    let used = sharing::reconstruct(given, length, parties, prefixes, out);
    print(rt, used, out)
}

pub(crate) fn print(rt: &impl Print, used: Result<usize, Refusal>, out: &[u8]) -> io::Result<()> {
    printing::answer(rt, "used ", used)?;
    printing::bytes(rt, out)
}
