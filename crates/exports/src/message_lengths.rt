// The C boundary of the call for the lengths of a message, in both forms.
ghost use Rattle.std.specs.Prelude.{◌≡◌};
ghost use Rattle.staircase.specs.Parameters.{parameters, default_parameters};
ghost use Rattle.lengths.specs.Lengths.{lengths_outcome, lengths_answer, lengths_padded_answer};
ghost use Rattle.exports.specs.Fields.{lengths_fields, told_fields};

use sharing::{Form, MessageLengths, Parameters, Refusal};

// The blocks, and the bytes of the keys, of a share, of all shares, and of what the opener writes. All 0 on a refusal.
#[repr(C)]
#[derive(Clone, Copy)]
pub struct SharingLengths {
    pub refusal: u64,
    pub blocks: u64,
    pub keys: u64,
    pub share: u64,
    pub output: u64,
    pub opened: u64,
}

pub fn sharing_lengths(n: u8, r: u8, z: u8, counts: &[u8], message_length: usize) -> SharingLengths
    ensures { lengths_fields result ≡ told_fields (lengths_answer (parameters n r z counts.now) message_length) }
{
    let given = Parameters { n, r, z, counts };
    sharing::lengths(Form::Earlier, given, message_length).into()
}

pub fn sharing_lengths_default(message_length: usize) -> SharingLengths
    ensures { lengths_fields result ≡ told_fields (lengths_answer default_parameters message_length) }
{
    sharing::lengths(Form::Earlier, Parameters::default(), message_length).into()
}

pub fn sharing_lengths_padded(
    n: u8,
    r: u8,
    z: u8,
    counts: &[u8],
    message_length: usize,
) -> SharingLengths
    ensures { lengths_fields result ≡ told_fields (lengths_padded_answer (parameters n r z counts.now) message_length) }
{
    let given = Parameters { n, r, z, counts };
    sharing::lengths(Form::Padded, given, message_length).into()
}

pub fn sharing_lengths_padded_default(message_length: usize) -> SharingLengths
    ensures { lengths_fields result ≡ told_fields (lengths_padded_answer default_parameters message_length) }
{
    sharing::lengths(Form::Padded, Parameters::default(), message_length).into()
}

impl From<Result<MessageLengths, Refusal>> for SharingLengths {
    ghost from_gives = { λ answer l. lengths_fields l ≡ told_fields (lengths_outcome answer) };

    fn from(answer: Result<MessageLengths, Refusal>) -> SharingLengths {
        match answer {
            Ok(l) => SharingLengths {
                refusal: 0,
                blocks: l.blocks as u64,
                keys: l.keys as u64,
                share: l.share as u64,
                output: l.output as u64,
                opened: l.opened as u64,
            },
            Err(refusal) => SharingLengths {
                refusal: u64::from(refusal.number()),
                blocks: 0,
                keys: 0,
                share: 0,
                output: 0,
                opened: 0,
            },
        }
    }
}
