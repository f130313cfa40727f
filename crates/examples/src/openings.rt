// Openings in document 01's plan A: what parties send, and what the opener makes of it.
use crate::printing;
use crate::shares::A;
use std::io;

// All three parties send.
pub(crate) fn of_three(rt: &impl Print) -> io::Result<()> {
    send(rt, 1, 3, [11, 3])?;
    send(rt, 2, 3, [31, 10])?;
    send(rt, 3, 3, [29, 13])?;
    open(rt, &[1, 2, 3], &[11, 31, 29])
}

// Two of them send.
pub(crate) fn of_two(rt: &impl Print) -> io::Result<()> {
    send(rt, 1, 2, [11, 3])?;
    send(rt, 3, 2, [29, 13])?;
    open(rt, &[1, 3], &[11, 3, 29, 13])
}

// What a party sends of its share of a message of 2 bytes where d parties are read.
fn send(rt: &impl Print, party: usize, d: usize, share: [u8; 2]) -> io::Result<()> {
    printing::number(rt, "count", d)?;
    printing::number(rt, " party", party)?;
    printing::bytes(rt, " sends", sharing::prefix(A, 2, d, &share))?;
    printing::end_line(rt)
}

// Opens a message of 2 bytes.
fn open(rt: &impl Print, parties: &[u8], prefixes: &[u8]) -> io::Result<()> {
    let mut out = [0u8; 2];
    printing::bytes(rt, "parties", parties)?;
    let used = sharing::reconstruct(A, 2, parties, prefixes, &mut out);
    printing::answer(rt, " used", used)?;
    printing::bytes(rt, " message", &out)?;
    printing::end_line(rt)
}
