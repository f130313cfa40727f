// Where a message ends: told by the output's length in the earlier form, sought in the last block of a padded message
// (document 02, a). The search reads every byte of the block, and no byte decides a branch or an index: only its
// result does, that there is no end, or the message's length.
ghost use Rattle.std.specs.Prelude.{◌≡◌, cond, ◌≤◌, ◌<◌, eqb, length};
ghost use Rattle.reader.specs.Ending.{LastOf, EndOf, CanSeek, EndBy};

use scheme::limits::MAX_MESSAGE;
use scheme::padding::END_MARKER;

// How the end is known. A closure that finds it would need more in the contracts that it goes through: that it may be called
// on the blocks, and what it answers of them.
#[derive(Clone, Copy)]
pub(crate) enum Ending {
    Told,
    Sought,
}

// The last byte that is not 0, and one more than its place; both are 0 where there is none.
#[derive(Clone, Copy)]
struct Last {
    byte: usize,
    after: usize,
}

// 1 where the byte is not 0, else 0.
pub(crate) fn nonzero(x: u8) -> usize
    ensures { result ≡ cond (eqb x 0) 0 1 }
{
    (usize::from(x) + 255) / 256
}

// The second number where `second` is 1, the first where it is 0.
fn chosen(second: usize, a: usize, b: usize) -> usize
    requires { second ≤ 1 }
    ensures { result ≡ cond (eqb second 0) a b }
{
    a * (1 - second) + b * second
}

fn last_nonzero(bytes: &[u8]) -> Last
    ensures { LastOf bytes.now result }
{
    let mut byte = 0;
    let mut after = 0;
    for (i, next) in bytes.iter().enumerate() {
        let some = nonzero(*next);
        byte = chosen(some, byte, usize::from(*next));
        after = chosen(some, after, i + 1);
    }
    Last { byte, after }
}

// The end in N whole blocks of m bytes, N at least 1: the message's length, or none where the blocks do not end as those
// of a padded message do.
fn sought(blocks: &[u8], m: usize) -> Option<usize>
    requires { (0 < m) × (m ≤ length blocks.now) }
    ensures { EndOf m blocks.now result }
{
    let start = blocks.len() - m;
    let last = last_nonzero(&blocks[start..]);
    if last.byte != usize::from(END_MARKER) {
        return None;
    }
    let length = start + last.after - 1;
    if MAX_MESSAGE < length {
        return None;
    }
    Some(length)
}

// The end by either way. An output of `told` bytes is lent.
pub(crate) fn end_by(how: Ending, blocks: &[u8], m: usize, told: usize) -> Option<usize>
    requires { CanSeek how m blocks.now }
    ensures { EndBy how m blocks.now told result }
{
    match how {
        Ending::Told => Some(told),
        Ending::Sought => sought(blocks, m),
    }
}
