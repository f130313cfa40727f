// Padded messages (document 02, a): the byte that marks the end of the message, the most blocks of one, and the number of
// blocks that a length tells. For the contracts they stand in specs/Padding.antt.
ghost use Rattle.std.specs.Prelude.{◌≡◌};
ghost use Rattle.scheme.specs.Padding.{blocks_held, most_padded};

use crate::limits::MAX_MESSAGE;

// The byte right after the message; zeros follow to the end of its block.
pub const END_MARKER: u8 = 128;

// The most blocks, of this length, that a padded message of an accepted length makes. 1 where the block length is 0, as none
// is: what is divided by 0 is 0 in the contract.
pub fn most_blocks(block: usize) -> usize
    ensures { result ≡ most_padded block }
{
    if block == 0 {
        return 1;
    }
    MAX_MESSAGE / block + 1
}

// N of so many bytes, of which each block has `unit`: 0 where these are no whole blocks, none at all, or
// more than `most`.
pub fn blocks_held(most: usize, unit: usize, bytes: usize) -> usize
    ensures { result ≡ blocks_held most unit bytes }
{
    if unit == 0 || bytes % unit != 0 {
        return 0;
    }
    let blocks = bytes / unit;
    if most < blocks {
        return 0;
    }
    blocks
}
