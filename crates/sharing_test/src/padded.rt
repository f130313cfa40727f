// Padded messages (document 02, a): their shares, prefixes and openings.
use crate::former::FORMER;
use crate::lent::{A, cut};
use crate::{prefixes, printing};
use sharing::{Form, PaddedOpening, Parameters, Refusal};
use std::io;

// In document 01's plan A: a message that ends within a block, the empty one, and one that fills a block, which makes two:
// refused with the keys of one, and then written.
pub(crate) fn splits(rt: &impl Print) -> io::Result<()> {
    show_block(rt, &[5], &[9, 4])?;
    show_block(rt, &[], &[9, 4])?;
    show_block(rt, &[5, 7], &[9, 4])?;
    let mut out = [7u8; 12];
    show_split(rt, &[5, 7], &[9, 4, 2, 6], &mut out)
}

// One block, the most that an accepted message makes and one more, no block and a part of one: of shares stored under the
// former default, and in the default scheme.
pub(crate) fn prefixes(rt: &impl Print) -> io::Result<()> {
    show_prefix(rt, FORMER, 4, 6)?;
    show_prefix(rt, FORMER, 3, 8196)?;
    show_prefix(rt, FORMER, 3, 8202)?;
    show_prefix(rt, FORMER, 3, 0)?;
    show_prefix(rt, FORMER, 5, 7)?;
    show_prefix(rt, FORMER, 2, 7)?;
    show_prefix(rt, Parameters::default(), 4, 6)?;
    show_prefix(rt, Parameters::default(), 3, 16386)?;
    show_prefix(rt, Parameters::default(), 3, 16392)?;
    show_prefix(rt, Parameters::default(), 3, 0)?;
    show_prefix(rt, Parameters::default(), 5, 7)?;
    show_prefix(rt, Parameters::default(), 2, 7)
}

// In plan A: from three parties and from two, an end at the block's beginning, none, none in two bytes of zeros, and two
// blocks where there is room for one.
pub(crate) fn openings(rt: &impl Print) -> io::Result<()> {
    show_opening(rt, &[1, 2, 3], &[140, 53, 176])?;
    show_opening(rt, &[1, 3], &[140, 132, 176, 159])?;
    show_opening(rt, &[1, 2, 3], &[137, 18, 146])?;
    show_opening(rt, &[1, 2, 3], &[11, 31, 29])?;
    show_opening(rt, &[1, 2, 3], &[0, 0, 0])?;
    show_opening(rt, &[1, 2, 3], &[11, 130, 31, 25, 29, 153])
}

fn show_block(rt: &impl Print, message: &[u8], keys: &[u8]) -> io::Result<()> {
    let mut out = [7u8; 6];
    show_split(rt, message, keys, &mut out)
}

fn show_split(rt: &impl Print, message: &[u8], keys: &[u8], out: &mut [u8]) -> io::Result<()> {
    let answer = sharing::split(Form::Padded, A, message, keys, out);
    printing::answer(rt, "padded ", answer)?;
    printing::bytes(rt, out)
}

// The share has so many bytes.
fn show_prefix(rt: &impl Print, given: Parameters, d: usize, bytes: usize) -> io::Result<()> {
    let zeros = [0u8; 16392];
    let share = cut(&zeros, bytes);
    let length = sharing::prefix_padded_length(given, d, share);
    let part = sharing::prefix_padded(given, d, share);
    prefixes::print(rt, "padded prefix ", length, share.len(), part.len())
}

fn show_opening(rt: &impl Print, parties: &[u8], prefixes: &[u8]) -> io::Result<()> {
    let mut out = [7u8; 2];
    show_answer(
        rt,
        sharing::reconstruct_padded(A, parties, prefixes, &mut out),
    )?;
    printing::bytes(rt, &out)
}

pub(crate) fn show_answer(
    rt: &impl Print,
    answer: Result<PaddedOpening, Refusal>,
) -> io::Result<()> {
    match answer {
        Ok(PaddedOpening { used, length }) => {
            printing::number(rt, "padded used ", used)?;
            printing::number(rt, ", length ", length)?;
            printing::word(rt, ",")
        }
        Err(refusal) => printing::number(rt, "refused ", usize::from(refusal.number())),
    }
}
