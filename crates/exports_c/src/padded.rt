// The exports of the calls on padded messages.
ghost use Rattle.std.specs.Prelude.{◌≡◌, length};
ghost use Rattle.staircase.specs.Parameters.{parameters, default_parameters};
ghost use Rattle.party.specs.PrefixPadded.{prefix_padded_answer};
ghost use Rattle.exports.specs.Fields.{answer_fields, value_fields, SplitPaddedFields, ReconstructPaddedFields};

use exports::SharingAnswer;
use exports::padded::SharingPaddedAnswer;

#[unsafe(no_mangle)]
pub extern "C" fn sharing_split_padded(
    n: u8,
    r: u8,
    z: u8,
    counts: &[u8],
    message: &[u8],
    keys: &[u8],
    out: &mut [u8],
) -> SharingAnswer
    ensures { SplitPaddedFields (parameters n r z counts.now) message.now keys.now out.old result out.new }
{
    exports::padded::sharing_split_padded(n, r, z, counts, message, keys, out)
}

#[unsafe(no_mangle)]
pub extern "C" fn sharing_split_padded_default(
    message: &[u8],
    keys: &[u8],
    out: &mut [u8],
) -> SharingAnswer
    ensures { SplitPaddedFields default_parameters message.now keys.now out.old result out.new }
{
    exports::padded::sharing_split_padded_default(message, keys, out)
}

#[unsafe(no_mangle)]
pub extern "C" fn sharing_prefix_padded(
    n: u8,
    r: u8,
    z: u8,
    counts: &[u8],
    d: usize,
    share: &[u8],
) -> SharingAnswer
    ensures { answer_fields result ≡ value_fields (prefix_padded_answer (parameters n r z counts.now) d (length share.now)) }
{
    exports::padded::sharing_prefix_padded(n, r, z, counts, d, share)
}

#[unsafe(no_mangle)]
pub extern "C" fn sharing_prefix_padded_default(d: usize, share: &[u8]) -> SharingAnswer
    ensures { answer_fields result ≡ value_fields (prefix_padded_answer default_parameters d (length share.now)) }
{
    exports::padded::sharing_prefix_padded_default(d, share)
}

#[unsafe(no_mangle)]
pub extern "C" fn sharing_reconstruct_padded(
    n: u8,
    r: u8,
    z: u8,
    counts: &[u8],
    parties: &[u8],
    prefixes: &[u8],
    out: &mut [u8],
) -> SharingPaddedAnswer
    ensures { ReconstructPaddedFields (parameters n r z counts.now) parties.now prefixes.now out.old result out.new }
{
    exports::padded::sharing_reconstruct_padded(n, r, z, counts, parties, prefixes, out)
}

#[unsafe(no_mangle)]
pub extern "C" fn sharing_reconstruct_padded_default(
    parties: &[u8],
    prefixes: &[u8],
    out: &mut [u8],
) -> SharingPaddedAnswer
    ensures { ReconstructPaddedFields default_parameters parties.now prefixes.now out.old result out.new }
{
    exports::padded::sharing_reconstruct_padded_default(parties, prefixes, out)
}
