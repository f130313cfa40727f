// The exports of the call for the lengths of a message, in both forms.
ghost use Rattle.std.specs.Prelude.{◌≡◌};
ghost use Rattle.staircase.specs.Parameters.{parameters, default_parameters};
ghost use Rattle.lengths.specs.Lengths.{lengths_answer, lengths_padded_answer};
ghost use Rattle.exports.specs.Fields.{lengths_fields, told_fields};

use exports::message_lengths::SharingLengths;

#[unsafe(no_mangle)]
pub extern "C" fn sharing_lengths(
    n: u8,
    r: u8,
    z: u8,
    counts: &[u8],
    message_length: usize,
) -> SharingLengths
    ensures { lengths_fields result ≡ told_fields (lengths_answer (parameters n r z counts.now) message_length) }
{
    exports::message_lengths::sharing_lengths(n, r, z, counts, message_length)
}

#[unsafe(no_mangle)]
pub extern "C" fn sharing_lengths_default(message_length: usize) -> SharingLengths
    ensures { lengths_fields result ≡ told_fields (lengths_answer default_parameters message_length) }
{
    exports::message_lengths::sharing_lengths_default(message_length)
}

#[unsafe(no_mangle)]
pub extern "C" fn sharing_lengths_padded(
    n: u8,
    r: u8,
    z: u8,
    counts: &[u8],
    message_length: usize,
) -> SharingLengths
    ensures { lengths_fields result ≡ told_fields (lengths_padded_answer (parameters n r z counts.now) message_length) }
{
    exports::message_lengths::sharing_lengths_padded(n, r, z, counts, message_length)
}

#[unsafe(no_mangle)]
pub extern "C" fn sharing_lengths_padded_default(message_length: usize) -> SharingLengths
    ensures { lengths_fields result ≡ told_fields (lengths_padded_answer default_parameters message_length) }
{
    exports::message_lengths::sharing_lengths_padded_default(message_length)
}
