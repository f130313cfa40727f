// The splitter's outer loops: row after row, in each row the blocks in batches of at most 64, and of each batch
// the row's coefficients, gathered once for all parties. Where the coefficients of a row stand is found once
// a row. No branch and no place depends on a byte of the message or of the keys. Both forms of message are split here.
ghost use Rattle.std.specs.Prelude.{◌≡◌, ◌*◌, ◌≤◌, length};
ghost use Rattle.scheme.specs.Limits.{max_blocks};
ghost use Rattle.dealer.specs.Sources.{filled_shares};

use crate::parties::fill_parties;
use crate::source::Source;
use columns::FLAT;
use gf256::lanes::LANES;
use interpolation::SIDE;

// Writes all shares: byte j × blocks + t of each is the value of row j of block t at its party's point. The blocks are the
// message, the byte after it and zeros. The points are worked out once.
#[inline(never)]
pub(crate) fn fill_shares(source: &Source, blocks: usize, out: &mut [u8])
    requires { (blocks ≤ max_blocks) × (length out.old ≡ source.now.scheme.n * (source.now.scheme.rows * blocks)) }
    ensures { out.new ≡ filled_shares source.now blocks }
{
    let scheme = source.scheme;
    let n = usize::from(scheme.n);
    let share = scheme.rows * blocks;
    let points = rows::party_points(n);
    let mut places = [0usize; SIDE];
    let mut columns = [0u8; FLAT];
    'row: for j in 0..scheme.rows {
        let d = rows::row_origins(scheme.block, scheme.z, scheme.counts, j, &mut places);
        'batch: for t in (0..blocks).step_by(LANES) {
            let many = columns::batch_of(blocks - t);
            let q = j * blocks + t;
            source.row_columns(&places, t, j, d, &mut columns);
            fill_parties(&columns, d, &points[..n], share, q, many, out);
        }
    }
}
