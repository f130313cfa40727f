// The opener of padded messages (document 02, a): from the prefixes of a count of parties to the whole blocks, message
// and padding, and to the message's length, which nobody has to keep.
ghost use Rattle.staircase.specs.Parameters.{given_parameters};
ghost use Rattle.reader.specs.ReconstructPadded.{ReconstructPaddedCall};

use crate::ending::Ending;
use crate::opening::open;
use crate::readers::Readers;
use scheme::{Parameters, Refusal, padding};

// What is answered of a padded message that was opened: the prefix bytes used, and the message's length.
#[derive(Clone, Copy, Debug, PartialEq, Eq)]
pub struct PaddedOpening {
    pub used: usize,
    pub length: usize,
}

// Reconstructs a padded message from the prefixes of these parties, one after another in their order: fills the output
// with the message and its padding, and answers the prefix bytes used and the message's length. On a refusal nothing is
// written. Refusals 1 to 4: those of the scheme. 6: the number of the parties is not a count. 7: their numbers do not
// rise strictly, or one is outside 1 to n. 9: no message of an accepted length has prefixes of so many bytes. 10: the
// output has not the bytes of the whole blocks. 11: the blocks do not end as those of a padded message do, or the
// message would be too long.
pub fn reconstruct_padded(
    given: Parameters,
    parties: &[u8],
    prefixes: &[u8],
    out: &mut [u8],
) -> Result<PaddedOpening, Refusal>
    ensures { ReconstructPaddedCall (given_parameters given.entry) parties.now prefixes.now out.old result out.new }
{
    let s = scheme::check(given)?;
    // What the next tests ask, worked out before them, so that they stand in the table's order, side by side.
    let d = parties.len();
    let counted = scheme::is_count(d, s.counts);
    let unordered = scheme::readers_refused(s.n, parties);
    if !counted {
        return Err(Refusal::Readers);
    }
    if unordered {
        return Err(Refusal::PartyNumbers);
    }
    let most = padding::most_blocks(s.block);
    let rows = s.prefix_rows(d);
    let blocks = padding::blocks_held(most, d * rows, prefixes.len());
    let size = blocks * s.block;
    if blocks == 0 {
        return Err(Refusal::ShareLength);
    }
    if out.len() != size {
        return Err(Refusal::OutputLength);
    }
    let readers = Readers { scheme: s, parties };
    let found = open(readers, blocks, rows, prefixes, Ending::Sought, 0, out);
    let length = found.end.ok_or(Refusal::Padding)?;
    Ok(PaddedOpening {
        used: found.used,
        length,
    })
}
