// Prints the sheets of inputs whose texts are known: the document's example, the default scheme, each
// refusal, inputs of 0 to 13 bytes, and the limits.
#![tactic(auto)]

use std::io;

fn main(rt: HostRuntime) -> io::Result<()> {
    accepted(&rt)?;
    refused(&rt)?;
    refused_for_counts(&rt)?;
    refused_twice(&rt)
}

// Schemes that are accepted.
fn accepted(rt: &impl Print) -> io::Result<()> {
    // The document's example, the default scheme, the default written out, and the former default.
    show(rt, &[7, 4, 1, 7, 4, 3])?;
    show(rt, &[])?;
    show(rt, &[5, 2, 2, 5, 4, 3])?;
    show(rt, &[5, 2, 1, 5, 4, 3])?;
    // The longest block, and the longest text: eight counts.
    show(rt, &[9, 3, 1, 9, 8, 7, 6])?;
    show(rt, &[16, 11, 1, 15, 13, 11, 9, 8, 7, 6, 5])?;
    // The fewest parties, and all of sixteen.
    show(rt, &[2, 0, 1, 2])?;
    show(rt, &[16, 0, 1, 16])?;
    show(rt, &[16, 1, 14, 16, 15])
}

// Refusals 1, 2 and 4.
fn refused(rt: &impl Print) -> io::Result<()> {
    // Refusal 1; one byte, so that r and z are 0.
    show(rt, &[0])?;
    show(rt, &[1])?;
    show(rt, &[17])?;
    show(rt, &[255, 2, 1, 5, 4, 3])?;
    // Refusal 2; two bytes, so that z is 0; then r + z at n and far above it.
    show(rt, &[5])?;
    show(rt, &[5, 2])?;
    show(rt, &[5, 2, 0, 5, 4, 3])?;
    show(rt, &[5, 3, 2, 5, 4, 2])?;
    show(rt, &[5, 255, 255, 5])?;
    // Refusal 4.
    show(rt, &[10, 4, 1, 10, 9, 8, 6])
}

// Refusal 3.
fn refused_for_counts(rt: &impl Print) -> io::Result<()> {
    // Refusal 3: no counts, a count above n, counts that rise or stay, that do not end at n - r.
    show(rt, &[5, 2, 1])?;
    show(rt, &[5, 2, 1, 6, 4, 3])?;
    show(rt, &[5, 2, 1, 4, 5, 3])?;
    show(rt, &[5, 2, 1, 5, 3, 3])?;
    show(rt, &[5, 2, 1, 5, 4])?;
    show(rt, &[5, 2, 1, 5, 4, 3, 2])?;
    // Nine counts, and more bytes than count.
    show(rt, &[16, 7, 1, 16, 15, 14, 13, 12, 11, 10, 9, 8])?;
    show(rt, &[16, 13, 1, 16, 13, 12, 11, 10, 9, 8, 7, 6, 3])
}

// Two refusals at once, of which the first is answered: 1 and 2, 2 and 3, 3 and 4.
fn refused_twice(rt: &impl Print) -> io::Result<()> {
    show(rt, &[17, 2, 0, 5, 4, 3])?;
    show(rt, &[5, 2, 0, 5, 5, 3])?;
    // The block would have 2,520 bytes, and the list does not end at n - r.
    show(rt, &[10, 4, 1, 10, 9, 8, 6, 5])
}

// Prints the sheet of an input.
fn show(rt: &impl Print, input: &[u8]) -> io::Result<()> {
    let sheet = sheet::sheet(input);
    rt.write_all(&sheet.bytes[..sheet.length])
}
