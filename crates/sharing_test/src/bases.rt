// Bases.
use crate::lent::{A, given};
use crate::printing;
use sharing::Parameters;
use std::io;

// Parties 2 and 3 of document 01's plan A: x + 3 and x + 2, since 2 + 3 is 1.
pub(crate) fn of_scheme_a(rt: &impl Print) -> io::Result<()> {
    show(rt, A, &[2, 3])
}

// Each refusal of the parties.
pub(crate) fn refused(rt: &impl Print) -> io::Result<()> {
    show(rt, A, &[2])?;
    show(rt, A, &[3, 2])?;
    show(rt, A, &[2, 4])
}

// Two neighbours at once: 4 and 6, 6 and 7.
pub(crate) fn refused_twice(rt: &impl Print) -> io::Result<()> {
    show(rt, given(10, 4, 1, &[10, 9, 8, 6]), &[2])?;
    show(rt, A, &[0])
}

// Prints the size of a basis, whether its table is all zero, and the first two weights of the first two parties.
fn show(rt: &impl Print, given: Parameters, parties: &[u8]) -> io::Result<()> {
    let size = sharing::basis_size(given, parties);
    printing::answer(rt, "basis of ", size)?;
    show_table(rt, sharing::basis(given, parties))
}

fn show_table(rt: &impl Print, table: [[u8; 16]; 16]) -> io::Result<()> {
    if table == [[0; 16]; 16] {
        printing::word(rt, ", all zero")?;
    }
    printing::bytes(rt, &[table[0][0], table[0][1], table[1][0], table[1][1]])
}
