// Schemes: what the check answers.
use crate::printing;
use scheme::{Parameters, Refusal, Scheme, TriedAnswer};
use std::io;

// Document 01's plan A, with P of each count.
pub(crate) fn scheme_a(rt: &impl Print) -> io::Result<()> {
    show(rt, given(3, 1, 1, &[3, 2]))?;
    printing::number(rt, "prefix rows", scheme::rows_of_count(2, 1, 3))?;
    printing::number(rt, "", scheme::rows_of_count(2, 1, 2))?;
    printing::end_line(rt)
}

// The longest block, and one that is too long.
pub(crate) fn limits(rt: &impl Print) -> io::Result<()> {
    show(rt, given(9, 3, 1, &[9, 8, 7, 6]))?;
    show(rt, given(10, 4, 1, &[10, 9, 8, 6]))
}

// The fewest parties, all of them needed; then one that may be absent, and too few and too many parties.
pub(crate) fn two_parties(rt: &impl Print) -> io::Result<()> {
    show(rt, given(2, 0, 1, &[2]))?;
    show(rt, given(2, 1, 1, &[2]))?;
    show(rt, given(1, 0, 1, &[2]))?;
    show(rt, given(17, 0, 1, &[2]))
}

// How many multiples of the first d - z the check tried (document 02, d): up to the block length, in the default scheme
// too; up to the limit, which 12 divides and 9 does not; and none, where another refusal comes before the search.
pub(crate) fn tried(rt: &impl Print) -> io::Result<()> {
    show_tried(rt, given(9, 3, 1, &[9, 8, 7, 6]))?;
    printing::word(rt, "default")?;
    show_tried_answer(rt, scheme::check_tried(Parameters::default()))?;
    show_tried(rt, given(10, 4, 1, &[10, 9, 8, 6]))?;
    show_tried(rt, given(13, 5, 1, &[13, 12, 8]))?;
    show_tried(rt, given(10, 5, 1, &[10, 9, 8, 6]))
}

fn given(n: u8, r: u8, z: u8, counts: &[u8]) -> Parameters<'_> {
    Parameters { n, r, z, counts }
}

// A scheme and what the check answers.
fn show(rt: &impl Print, given: Parameters) -> io::Result<()> {
    show_scheme(rt, given)?;
    show_answer(rt, scheme::check(given))?;
    printing::end_line(rt)
}

fn show_tried(rt: &impl Print, given: Parameters) -> io::Result<()> {
    show_scheme(rt, given)?;
    show_tried_answer(rt, scheme::check_tried(given))
}

fn show_scheme(rt: &impl Print, given: Parameters) -> io::Result<()> {
    printing::byte(rt, "n", given.n)?;
    printing::byte(rt, " r", given.r)?;
    printing::byte(rt, " z", given.z)?;
    printing::bytes(rt, " counts", given.counts)
}

fn show_answer(rt: &impl Print, answer: Result<Scheme, Refusal>) -> io::Result<()> {
    match answer {
        Ok(s) => {
            printing::number(rt, " block", s.block)?;
            printing::number(rt, " rows", s.rows)
        }
        Err(refusal) => printing::refused(rt, refusal),
    }
}

fn show_tried_answer(rt: &impl Print, answer: TriedAnswer) -> io::Result<()> {
    show_answer(rt, answer.answer)?;
    printing::number(rt, " tried", answer.tried)?;
    printing::end_line(rt)
}
