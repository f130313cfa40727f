// What the rows of a block are made of: a row's group and the number of its coefficients, where each of
// them comes from, and the points at which the parties have the rows' values. The public functions take any
// numbers, and have an answer for those that no scheme has too; nobody uses it. So they are not lent a `Scheme`,
// which only accepted numbers have; a struct of the same three fields beside it would have to be made at each call.
#![tactic(auto)]

ghost use Rattle.std.specs.Prelude.{◌≡◌, ltb, get_or};
ghost use Rattle.scheme.specs.Check.{rows_of_count};
ghost use Rattle.staircase.specs.Parameters.{Parameters, point};
ghost use Rattle.staircase.specs.Coefficients.{group_of, count_of};
ghost use Rattle.rows.specs.Origins.{found, origins_over};
ghost use Rattle.rows.specs.Points.{points_of, party_points};
ghost use Rattle.rows.specs.Sources.{SourceIs};

use interpolation::SIDE;
use scheme::limits::MAX_BLOCK;

// The point at which a party has the rows' values: its number.
pub fn point_of(party: u8) -> u8
    ensures { (p : Parameters) → result ≡ point p party }
{
    party
}

// The points of these parties in their order, of the first 16 where there are more, and zeros after them.
pub fn points_of(parties: &[u8]) -> [u8; SIDE]
    ensures { (p : Parameters) → result ≡ points_of p parties.now }
{
    let mut points = [0u8; SIDE];
    let end = parties.len().min(SIDE);
    for i in 0..end {
        points[i] = point_of(parties[i]);
    }
    points
}

// The same for parties 1 to n.
pub fn party_points(n: usize) -> [u8; SIDE]
    ensures { (p : Parameters) → result ≡ party_points p n }
{
    let mut points = [0u8; SIDE];
    let end = n.min(SIDE);
    for i in 0..end {
        // At most 16. A u8 has no From of a usize.
        points[i] = point_of((i + 1) as u8);
    }
    points
}

// Whether a row is among those that d parties send: it is below P of d. Written out for speed: a product takes
// less time than the division in P. Where the block is longer than any scheme's, the product might not fit.
fn sends(block: usize, z: u8, d: u8, row: usize) -> bool
    ensures { result ≡ ltb row (rows_of_count block z d) }
{
    // No count is this low: P is 0.
    if d <= z {
        return false;
    }
    if MAX_BLOCK < block {
        return row < scheme::rows_of_count(block, z, usize::from(d));
    }
    // P is at most the block length.
    if block <= row {
        return false;
    }
    (row + 1) * usize::from(d - z) <= block
}

// The group of a row, counted from 0: the place of the first count whose P is above the row, or the number
// of counts where there is none.
fn group_of(block: usize, z: u8, counts: &[u8], row: usize) -> usize
    ensures { result ≡ group_of block z counts.now row }
{
    for (i, d) in counts.iter().enumerate() {
        if sends(block, z, *d, row) {
            return i;
        }
    }
    counts.len()
}

// Writes the origins of a row's coefficients into `places`, each at its degree: from z up, below the row's
// count, as many as there is room for. The other places stay as they are. Answers the count, the number of
// the row's coefficients, 0 where it has no group.
pub fn row_origins(block: usize, z: u8, counts: &[u8], row: usize, places: &mut [usize]) -> usize
    ensures { (result ≡ count_of block z counts.now row) × (places.new ≡ origins_over block z counts.now row places.old) }
{
    let i = group_of(block, z, counts, row);
    let d = count_at(counts, i);
    let end = d.min(places.len());
    for e in usize::from(z)..end {
        places[e] = origin(block, z, counts, i, row, e);
    }
    d
}

// The place of a coefficient in the block's message, for a row of group i. Following a copy home ends there,
// each step in an earlier row, whose group is found once.
fn origin(block: usize, z: u8, counts: &[u8], i: usize, row: usize, degree: usize) -> usize
    requires { i ≡ group_of block z counts.now row }
    ensures { result ≡ found block z counts.now row degree }
{
    match source_of(block, z, counts, i, row, degree) {
        Source::Message(place) => place,
        Source::Copy { earlier, degree } => {
            let its_group = group_of(block, z, counts, earlier);
            origin(block, z, counts, its_group, earlier, degree)
        }
    }
}

// Where a coefficient comes from: a place of the block's message, or the coefficient of an earlier row.
#[derive(Clone, Copy)]
enum Source {
    Message(usize),
    Copy { earlier: usize, degree: usize },
}

// Where the coefficient of a degree comes from, in a row of group i. The first group holds the block's bytes
// in order. A later group, of the count d, is filled in order with what the rows before it hold at the
// degrees from d up, row after row, so `width` coefficients of each. Place 0 for a key, and for what is no
// coefficient of a scheme's row.
fn source_of(block: usize, z: u8, counts: &[u8], i: usize, row: usize, degree: usize) -> Source
    requires { i ≡ group_of block z counts.now row }
    ensures { SourceIs block z counts.now row degree result }
{
    let low = usize::from(z);
    let d = count_at(counts, i);
    // A key.
    if degree < low {
        return Source::Message(0);
    }
    // Past the row's end. A row that has no group ends at once, with d = 0.
    if d <= degree {
        return Source::Message(0);
    }
    if i == 0 {
        return Source::Message(row * (d - low) + (degree - low));
    }
    let above = count_at(counts, i - 1);
    // The counts of a scheme fall.
    if above <= d {
        return Source::Message(0);
    }
    let before = scheme::rows_of_count(block, z, above);
    let q = (row - before) * (d - low) + (degree - low);
    let width = above - d;
    let earlier = q / width;
    // In a scheme a group is filled from the rows before it alone.
    if row <= earlier {
        return Source::Message(0);
    }
    Source::Copy {
        earlier,
        degree: d + q % width,
    }
}

// The count at a place, 0 past the last.
pub fn count_at(counts: &[u8], i: usize) -> usize
    ensures { result ≡ get_or counts.now i 0 }
{
    counts.get(i).map_or(0, |d| usize::from(*d))
}
