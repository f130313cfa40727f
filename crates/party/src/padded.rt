// The prefix of a share of a padded message (document 02, a): the share's length tells the number of blocks, so nobody has to say
// how long the message is.
ghost use Rattle.std.specs.Prelude.{◌≡◌, length};
ghost use Rattle.scheme.specs.Outcome.{outcome};
ghost use Rattle.staircase.specs.Parameters.{given_parameters};
ghost use Rattle.party.specs.PrefixPadded.{prefix_padded_answer, prefix_padded_of};

use scheme::{Parameters, Refusal, padding};

// The length of the prefix for the count d of a share of a padded message. Refusals 1 to 4: those of the
// scheme. 6: d is not a count. 9: no message of an accepted length has a share of so many bytes.
// Inlined, as that of a message of the earlier form is.
#[inline(always)]
pub fn prefix_padded_length(given: Parameters, d: usize, share: &[u8]) -> Result<usize, Refusal>
    ensures { outcome result ≡ prefix_padded_answer (given_parameters given.entry) d (length share.now) }
{
    let s = scheme::check(given)?;
    let most = padding::most_blocks(s.block);
    let blocks = padding::blocks_held(most, s.rows, share.len());
    if !scheme::is_count(d, s.counts) {
        return Err(Refusal::Readers);
    }
    if blocks == 0 {
        return Err(Refusal::ShareLength);
    }
    Ok(s.prefix_rows(d) * blocks)
}

// The prefix itself: the beginning of the lent share, empty on a refusal.
pub fn prefix_padded<'a>(given: Parameters<'_>, d: usize, share: &'a [u8]) -> &'a [u8]
    ensures { (result.now ≡ prefix_padded_of (given_parameters given.entry) d share.now) × (result.ref_ptr ≡ share.entry.ref_ptr) }
{
    let Ok(bytes) = prefix_padded_length(given, d, share) else {
        return &share[..0];
    };
    &share[..bytes]
}
