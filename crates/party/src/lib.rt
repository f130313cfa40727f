// A party's side (document 01's front): of its share, the prefix that it sends where d parties are
// read.
#![tactic(auto)]

ghost use Rattle.std.specs.Prelude.{◌≡◌, length};
ghost use Rattle.scheme.specs.Outcome.{outcome};
ghost use Rattle.staircase.specs.Parameters.{given_parameters};
ghost use Rattle.party.specs.Prefix.{prefix_answer, prefix_of};

use scheme::{Form, Parameters, Refusal};

mod padded;

pub use padded::{prefix_padded, prefix_padded_length};

// The length of the prefix for the count d of a share of a message of so many bytes. Refusals 1 to
// 4: those of the scheme. 5: the message is too long. 6: d is not a count. 9: the share's length is
// not that of such a message's shares.
// Inlined, so that at the default scheme its check is worked out when the library is compiled.
#[inline(always)]
pub fn prefix_length(
    given: Parameters,
    message_length: usize,
    d: usize,
    share: &[u8],
) -> Result<usize, Refusal>
    ensures { outcome result ≡ prefix_answer (given_parameters given.entry) message_length d (length share.now) }
{
    let s = scheme::check(given)?;
    let blocks = s.blocks(Form::Earlier, message_length)?;
    let share_bytes = blocks * s.rows;
    if !scheme::is_count(d, s.counts) {
        return Err(Refusal::Readers);
    }
    if share.len() != share_bytes {
        return Err(Refusal::ShareLength);
    }
    Ok(s.prefix_rows(d) * blocks)
}

// The prefix itself: the beginning of the lent share, empty on a refusal.
pub fn prefix<'a>(
    given: Parameters<'_>,
    message_length: usize,
    d: usize,
    share: &'a [u8],
) -> &'a [u8]
    ensures { (result.now ≡ prefix_of (given_parameters given.entry) message_length d share.now) × (result.ref_ptr ≡ share.entry.ref_ptr) }
{
    let Ok(bytes) = prefix_length(given, message_length, d, share) else {
        return &share[..0];
    };
    &share[..bytes]
}
