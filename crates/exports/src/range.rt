// The C boundary of the opener for a range (document 02, e).
ghost use Rattle.staircase.specs.Parameters.{parameters, default_parameters};
ghost use Rattle.exports.specs.Fields.{RangeFields};

use crate::SharingAnswer;
use sharing::Parameters;

pub fn sharing_reconstruct_range(
    n: u8,
    r: u8,
    z: u8,
    counts: &[u8],
    message_length: usize,
    start: usize,
    range_length: usize,
    parties: &[u8],
    prefixes: &[u8],
    out: &mut [u8],
) -> SharingAnswer
    ensures { RangeFields (parameters n r z counts.now) message_length start range_length parties.now prefixes.now out.old result out.new }
{
    let given = Parameters { n, r, z, counts };
    sharing::reconstruct_range(
        given,
        message_length,
        start,
        range_length,
        parties,
        prefixes,
        out,
    )
    .into()
}

pub fn sharing_reconstruct_range_default(
    message_length: usize,
    start: usize,
    range_length: usize,
    parties: &[u8],
    prefixes: &[u8],
    out: &mut [u8],
) -> SharingAnswer
    ensures { RangeFields default_parameters message_length start range_length parties.now prefixes.now out.old result out.new }
{
    let given = Parameters::default();
    sharing::reconstruct_range(
        given,
        message_length,
        start,
        range_length,
        parties,
        prefixes,
        out,
    )
    .into()
}
