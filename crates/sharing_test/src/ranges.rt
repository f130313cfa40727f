// Openings of ranges of a message. The output has 2 bytes.
use crate::lent::{cut, given, pattern};
use crate::openings::print;
use sharing::Parameters;
use std::io;

// Ranges of the messages of 13 bytes whose openings from several groups of rows are shown too.
pub(crate) fn of_groups(rt: &impl Print) -> io::Result<()> {
    show(rt, given(7, 4, 1, &[7, 4, 3]), 8, 2, &[2, 5, 7], 27)?;
    show(rt, given(6, 2, 2, &[6, 4]), 6, 2, &[1, 2, 3, 6], 32)?;
    show(rt, Parameters::default(), 0, 2, &[1, 2, 3, 4, 5], 30)?;
    show(rt, Parameters::default(), 11, 2, &[1, 2, 4, 5], 36)?;
    show(rt, Parameters::default(), 4, 2, &[1, 3, 5], 54)
}

// 15, and with its neighbours: 7 and 15, 15 and 9; then 9 and 10, and 10.
pub(crate) fn refused(rt: &impl Print) -> io::Result<()> {
    show(rt, Parameters::default(), 12, 2, &[1, 3, 5], 54)?;
    show(rt, Parameters::default(), 14, 0, &[1, 3, 5], 54)?;
    show(
        rt,
        Parameters::default(),
        18446744073709551615,
        2,
        &[1, 3, 5],
        54,
    )?;
    show(rt, Parameters::default(), 12, 2, &[3, 1, 5], 54)?;
    show(rt, Parameters::default(), 12, 2, &[1, 3, 5], 53)?;
    show(rt, Parameters::default(), 0, 5, &[1, 3, 5], 53)?;
    show(rt, Parameters::default(), 0, 5, &[1, 3, 5], 54)
}

// Opens a range of a message of 13 bytes, from so many bytes of a pattern.
fn show(
    rt: &impl Print,
    given: Parameters,
    start: usize,
    range_length: usize,
    parties: &[u8],
    prefixes: usize,
) -> io::Result<()> {
    let bytes = pattern(5);
    let sent = cut(&bytes, prefixes);
    let mut out = [7u8; 2];
    let used = sharing::reconstruct_range(given, 13, start, range_length, parties, sent, &mut out);
    print(rt, used, &out)
}
