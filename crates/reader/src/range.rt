// The opener for a range of the message (document 02, e): it takes only the rows that reach the range.
ghost use Rattle.std.specs.Prelude.{◌≡◌, ◌+◌, ltb};
ghost use Rattle.staircase.specs.Parameters.{given_parameters};
ghost use Rattle.reader.specs.Range.{RangeCall};
ghost use Rattle.reader.specs.Opening.{OpenedCall};

use crate::ending::Ending;
use crate::opening::open;
use crate::readers::Readers;
use crate::taking::{Take, rows_by};
use scheme::{Form, Parameters, Refusal};

// Reconstructs the bytes from `start` on, `range_length` of them, of a message of so many bytes, from the prefixes of these
// parties, one after another in their order. Of the prefixes it uses only the rows that the range needs, in the reader's
// order: the group of d first, then the group numbered one less, down to the first, rows rising in each. It answers the
// prefix bytes used. What stands in the other rows changes nothing, so they may still be on their way. On a refusal nothing
// is written. Refusals 1 to 4: those of the scheme. 5: the message is too long. 6: the number of the parties is not a
// count. 7: their numbers do not rise strictly, or one is outside 1 to n. 15: the range ends past the message. 9: the
// prefixes have not the bytes of that many parties' prefixes. 10: the output has not the range's length.
pub fn reconstruct_range(
    given: Parameters,
    message_length: usize,
    start: usize,
    range_length: usize,
    parties: &[u8],
    prefixes: &[u8],
    out: &mut [u8],
) -> Result<usize, Refusal>
    ensures { RangeCall (given_parameters given.entry) message_length start range_length parties.now prefixes.now out.old result out.new }
{
    open_range(
        Take::Needed,
        given,
        message_length,
        start,
        range_length,
        parties,
        prefixes,
        out,
    )
}

// Opens a range of the message by the rows that are to be taken: all, where the range is the whole message, or those that
// it needs.
pub(crate) fn open_range(
    take: Take,
    given: Parameters,
    message_length: usize,
    start: usize,
    range_length: usize,
    parties: &[u8],
    prefixes: &[u8],
    out: &mut [u8],
) -> Result<usize, Refusal>
    ensures { OpenedCall take (given_parameters given.entry) message_length start range_length parties.now prefixes.now out.old result out.new }
{
    let s = scheme::check(given)?;
    // What the next tests ask, worked out before them, so that they stand in the table's order, side by side.
    let d = parties.len();
    let counted = scheme::is_count(d, s.counts);
    let unordered = scheme::readers_refused(s.n, parties);
    let past = ends_past(message_length, start, range_length);
    let blocks = s.blocks(Form::Earlier, message_length)?;
    if !counted {
        return Err(Refusal::Readers);
    }
    if unordered {
        return Err(Refusal::PartyNumbers);
    }
    if past {
        return Err(Refusal::Range);
    }
    let sent = d * s.prefix_rows(d) * blocks;
    if prefixes.len() != sent {
        return Err(Refusal::ShareLength);
    }
    if out.len() != range_length {
        return Err(Refusal::OutputLength);
    }
    let readers = Readers { scheme: s, parties };
    let many = rows_by(take, readers, start, range_length);
    let found = open(readers, blocks, many, prefixes, Ending::Told, start, out);
    Ok(found.used)
}

// Does a range of so many bytes from `start` on end past a message of `message` bytes? The sum may be above every usize.
fn ends_past(message: usize, start: usize, range_length: usize) -> bool
    ensures { result ≡ ltb message (start + range_length) }
{
    message < start || message - start < range_length
}
