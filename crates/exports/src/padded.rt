// The C boundary of the calls on padded messages (document 02, a).
ghost use Rattle.std.specs.Prelude.{◌≡◌, length};
ghost use Rattle.staircase.specs.Parameters.{parameters, default_parameters};
ghost use Rattle.party.specs.PrefixPadded.{prefix_padded_answer};
ghost use Rattle.reader.specs.ReconstructPadded.{padded_outcome};
ghost use Rattle.exports.specs.Fields.{answer_fields, value_fields, padded_fields, opened_fields, SplitPaddedFields, ReconstructPaddedFields};

use crate::SharingAnswer;
use sharing::{Form, PaddedOpening, Parameters, Refusal};

// The answer of the opener of padded messages: the prefix bytes used and the message's length.
#[repr(C)]
#[derive(Clone, Copy)]
pub struct SharingPaddedAnswer {
    pub refusal: u64,
    pub used: u64,
    pub length: u64,
}

pub fn sharing_split_padded(
    n: u8,
    r: u8,
    z: u8,
    counts: &[u8],
    message: &[u8],
    keys: &[u8],
    out: &mut [u8],
) -> SharingAnswer
    ensures { SplitPaddedFields (parameters n r z counts.now) message.now keys.now out.old result out.new }
{
    let given = Parameters { n, r, z, counts };
    sharing::split(Form::Padded, given, message, keys, out).into()
}

pub fn sharing_split_padded_default(message: &[u8], keys: &[u8], out: &mut [u8]) -> SharingAnswer
    ensures { SplitPaddedFields default_parameters message.now keys.now out.old result out.new }
{
    sharing::split(Form::Padded, Parameters::default(), message, keys, out).into()
}

pub fn sharing_prefix_padded(
    n: u8,
    r: u8,
    z: u8,
    counts: &[u8],
    d: usize,
    share: &[u8],
) -> SharingAnswer
    ensures { answer_fields result ≡ value_fields (prefix_padded_answer (parameters n r z counts.now) d (length share.now)) }
{
    let given = Parameters { n, r, z, counts };
    sharing::prefix_padded_length(given, d, share).into()
}

pub fn sharing_prefix_padded_default(d: usize, share: &[u8]) -> SharingAnswer
    ensures { answer_fields result ≡ value_fields (prefix_padded_answer default_parameters d (length share.now)) }
{
    sharing::prefix_padded_length(Parameters::default(), d, share).into()
}

impl From<Result<PaddedOpening, Refusal>> for SharingPaddedAnswer {
    ghost from_gives = { λ answer a. padded_fields a ≡ opened_fields (padded_outcome answer) };

    fn from(answer: Result<PaddedOpening, Refusal>) -> SharingPaddedAnswer {
        match answer {
            Ok(PaddedOpening { used, length }) => SharingPaddedAnswer {
                refusal: 0,
                used: used as u64,
                length: length as u64,
            },
            Err(refusal) => SharingPaddedAnswer {
                refusal: u64::from(refusal.number()),
                used: 0,
                length: 0,
            },
        }
    }
}

pub fn sharing_reconstruct_padded(
    n: u8,
    r: u8,
    z: u8,
    counts: &[u8],
    parties: &[u8],
    prefixes: &[u8],
    out: &mut [u8],
) -> SharingPaddedAnswer
    ensures { ReconstructPaddedFields (parameters n r z counts.now) parties.now prefixes.now out.old result out.new }
{
    let given = Parameters { n, r, z, counts };
    sharing::reconstruct_padded(given, parties, prefixes, out).into()
}

pub fn sharing_reconstruct_padded_default(
    parties: &[u8],
    prefixes: &[u8],
    out: &mut [u8],
) -> SharingPaddedAnswer
    ensures { ReconstructPaddedFields default_parameters parties.now prefixes.now out.old result out.new }
{
    sharing::reconstruct_padded(Parameters::default(), parties, prefixes, out).into()
}
