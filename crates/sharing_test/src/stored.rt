// The five bytes "Noon.", split while the default was the former one (keys 29 72 bb 04 4d 96 hex), as the shares were stored.
// Opened in the former default they come back. The default scheme opens whole shares too, to other bytes, and refuses nothing.
use crate::former::FORMER;
use crate::openings::print;
use crate::padded::show_answer;
use crate::printing;
use sharing::Parameters;
use std::io;

// Of the earlier form, where the default scheme looks at nothing but lengths: what party 1 sends to five readers, and the
// openings from three parties, that is, from whole shares.
pub(crate) fn earlier(rt: &impl Print) -> io::Result<()> {
    let share = b"\x09\x5c\xbb\x6a\x22\x96";
    printing::bytes(rt, sharing::prefix(FORMER, 5, 5, share))?;
    printing::bytes(rt, sharing::prefix(Parameters::default(), 5, 5, share))?;
    open(
        rt,
        b"\x09\x5c\xbb\x6a\x22\x96\xfd\x2e\xbb\xd8\x93\x96\xa4\x00\xbb\xb6\xfc\x96",
    )
}

fn open(rt: &impl Print, shares: &[u8]) -> io::Result<()> {
    let mut message = [0u8; 5];
    let used = sharing::reconstruct(FORMER, 5, &[1, 2, 3], shares, &mut message);
    print(rt, used, &message)?;
    let mut other = [0u8; 5];
    let used_otherwise = sharing::reconstruct(
        Parameters::default(),
        5,
        &[1, 2, 3],
        shares,
        &mut other,
    );
    print(rt, used_otherwise, &other)
}

// Padded: what five parties send, 3 bytes each, and in the default scheme no whole number of blocks. Three whole shares are
// one block there, in which the message's end comes out as an end too, after three bytes.
pub(crate) fn padded(rt: &impl Print) -> io::Result<()> {
    let five = b"\x09\xdc\xbb\xfd\x18\xbb\xa4\xb6\xbb\x6b\x12\xbb\x46\xbc\xbb";
    let mut message = [7u8; 12];
    show_answer(
        rt,
        sharing::reconstruct_padded(FORMER, &[1, 2, 3, 4, 5], five, &mut message),
    )?;
    printing::bytes(rt, &message)?;
    open_by_default(rt, &[1, 2, 3, 4, 5], five)?;
    open_by_default(
        rt,
        &[1, 2, 3],
        b"\x09\xdc\xbb\x6a\x22\x96\xfd\x18\xbb\xd8\x93\x96\xa4\xb6\xbb\xb6\xfc\x96",
    )
}

fn open_by_default(rt: &impl Print, parties: &[u8], prefixes: &[u8]) -> io::Result<()> {
    let mut other = [7u8; 6];
    show_answer(
        rt,
        sharing::reconstruct_padded(Parameters::default(), parties, prefixes, &mut other),
    )?;
    printing::bytes(rt, &other)
}
