// Shares in document 01's plan A: what the splitter writes.
use crate::printing;
use sharing::{Form, Parameters};
use std::io;

pub(crate) const A: Parameters<'static> = Parameters {
    n: 3,
    r: 1,
    z: 1,
    counts: &[3, 2],
};

// The rows k0 + m0 x + m1 x^2 and k1 + m1 x, told by their values where one of the four bytes is 1 and
// the others are 0: k0, m0, m1 and k1 in turn. They are those of 1, x or x^2 at the points 1, 2 and 3.
pub(crate) fn rows(rt: &impl Print) -> io::Result<()> {
    show(rt, [0, 0], [1, 0])?;
    show(rt, [1, 0], [0, 0])?;
    show(rt, [0, 1], [0, 0])?;
    show(rt, [0, 0], [0, 1])
}

pub(crate) fn of_scheme_a(rt: &impl Print) -> io::Result<()> {
    show(rt, [5, 7], [9, 4])
}

// Another message that gives party 2 the same share.
pub(crate) fn the_same_share(rt: &impl Print) -> io::Result<()> {
    let mut out = [0u8; 6];
    split(rt, &[0, 0], &[31, 10], &mut out)?;
    printing::bytes(rt, " party 2 has", part(&out, 2, 4))?;
    printing::end_line(rt)
}

pub(crate) fn two_blocks(rt: &impl Print) -> io::Result<()> {
    let mut out = [0u8; 12];
    split(rt, &[5, 7, 1], &[9, 4, 2, 6], &mut out)?;
    printing::bytes(rt, " party 1 has", part(&out, 0, 4))?;
    printing::end_line(rt)
}

fn show(rt: &impl Print, message: [u8; 2], keys: [u8; 2]) -> io::Result<()> {
    let mut out = [0u8; 6];
    split(rt, &message, &keys, &mut out)?;
    printing::bytes(rt, " shares", &out)?;
    printing::end_line(rt)
}

// Splits, and prints what was split and the answer.
fn split(rt: &impl Print, message: &[u8], keys: &[u8], out: &mut [u8]) -> io::Result<()> {
    printing::bytes(rt, "message", message)?;
    printing::bytes(rt, " keys", keys)?;
    let written = sharing::split(Form::Earlier, A, message, keys, out);
    printing::answer(rt, " written", written)
}

// The bytes from one place up to another, or all of them where there are no such places.
pub(crate) fn part(bytes: &[u8], from: usize, to: usize) -> &[u8] {
    bytes.get(from..to).unwrap_or(bytes)
}
