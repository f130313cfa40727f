// The splitter's inner loop: one row of 64 blocks side by side, for all parties.
ghost use Rattle.std.specs.Prelude.{◌≡◌, ◌+◌, ◌*◌, ◌≤◌, length, take};
ghost use Rattle.gf256.specs.Lanes.{lanes};
ghost use Rattle.dealer.specs.Columns.{RowFilled};

use columns::FLAT;
use gf256::lanes::LANES;

// Writes the first bytes, as many as there is room for: all 64 but for the last batch. The two copies are one, but the
// compiler makes faster code of that whose length it knows.
fn put(values: [u8; LANES], out: &mut [u8])
    requires { length out.old ≤ lanes }
    ensures { out.new ≡ take (length out.old) values }
{
    if out.len() == LANES {
        out.copy_from_slice(&values);
        return;
    }
    out.copy_from_slice(&values[..out.len()]);
}

// Writes into each party's share, at place q, the first `many` bytes of the row's values at its point.
// The shares stand one after another, in the order of the points.
pub(crate) fn fill_parties(
    columns: &[u8; FLAT],
    d: usize,
    points: &[u8],
    share: usize,
    q: usize,
    many: usize,
    out: &mut [u8],
)
    requires { (many ≤ lanes) × (q + many ≤ share) × (length out.old ≡ length points.now * share) }
    ensures { RowFilled share q many columns.now d points.now out.old out.new }
{
    for (a, point) in points.iter().enumerate() {
        let values = columns::flat_values(columns, d, *point);
        let at = a * share + q;
        let end = at + many;
        put(values, &mut out[at..end]);
    }
}
