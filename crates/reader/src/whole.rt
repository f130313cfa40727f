// The opener of a whole message: from the prefixes of a count of parties to the message, as a range of it for which all rows
// are taken.
ghost use Rattle.staircase.specs.Parameters.{given_parameters};
ghost use Rattle.reader.specs.Reconstruct.{ReconstructCall};

use crate::range::open_range;
use crate::taking::Take;
use scheme::{Parameters, Refusal};

// Reconstructs a message of so many bytes from the prefixes of these parties, one after another in their order, and answers
// the prefix bytes used. On a refusal nothing is written. Refusals 1 to 4: those of the scheme. 5: the message is too long.
// 6: the number of the parties is not a count. 7: their numbers do not rise strictly, or one is outside 1 to n. 9: the
// prefixes have not the bytes of that many parties' prefixes. 10: the output has not the message's length.
pub fn reconstruct(
    given: Parameters,
    message_length: usize,
    parties: &[u8],
    prefixes: &[u8],
    out: &mut [u8],
) -> Result<usize, Refusal>
    ensures { ReconstructCall (given_parameters given.entry) message_length parties.now prefixes.now out.old result out.new }
{
    open_range(
        Take::All,
        given,
        message_length,
        0,
        message_length,
        parties,
        prefixes,
        out,
    )
}
