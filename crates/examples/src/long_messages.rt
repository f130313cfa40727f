// The longest message, and one that is longer, through the three calls that are given a message's length.
use crate::printing;
use crate::shares::part;
use sharing::{Form, Parameters};
use std::io;

// In the default scheme it makes 2,731 blocks of 6 bytes, with 6 rows each: 16,386 bytes a share, and twice as many keys.
pub(crate) fn longest(rt: &impl Print) -> io::Result<()> {
    let mut message = [0u8; 16384];
    let mut out = [0u8; 16384];
    fill(&mut message);
    show(rt, &message, &mut out)
}

// A byte more makes as many blocks, so every other length is right for it too.
pub(crate) fn too_long(rt: &impl Print) -> io::Result<()> {
    let mut message = [0u8; 16385];
    let mut out = [0u8; 16385];
    fill(&mut message);
    show(rt, &message, &mut out)
}

// Bytes that differ from place to place. A u8 has no From of a usize.
fn fill(bytes: &mut [u8]) {
    for (i, byte) in bytes.iter_mut().enumerate() {
        *byte = (i % 251) as u8;
    }
}

// Makes room for the keys and the shares.
fn show(rt: &impl Print, message: &[u8], out: &mut [u8]) -> io::Result<()> {
    let keys = [3u8; 32772];
    let mut shares = [0u8; 81930];
    printing::number(rt, "length", message.len())?;
    let written = sharing::split(
        Form::Earlier,
        Parameters::default(),
        message,
        &keys,
        &mut shares,
    );
    printing::answer(rt, " written", written)?;
    show_back(rt, message, &shares, out)
}

// Asks for the prefix of a share, and opens the message from the first three shares, which are their own prefixes where three
// parties are read.
fn show_back(rt: &impl Print, message: &[u8], shares: &[u8], out: &mut [u8]) -> io::Result<()> {
    let length = sharing::prefix_length(
        Parameters::default(),
        message.len(),
        3,
        part(shares, 0, 16386),
    );
    printing::answer(rt, " prefix", length)?;
    let prefixes = part(shares, 0, 49158);
    let used = sharing::reconstruct(
        Parameters::default(),
        message.len(),
        &[1, 2, 3],
        prefixes,
        out,
    );
    printing::answer(rt, " used", used)?;
    if message == out {
        printing::word(rt, " the same message")?;
    }
    printing::end_line(rt)
}
