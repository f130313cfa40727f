// The points of an interpolation with the product over them, and the basis that is made of these.
ghost use Rattle.std.specs.Prelude.{◌≡◌, true, ℕ, ◌+◌, ◌<◌, ◌≤◌, length, get_or, MatchOption};
ghost use Rattle.lists.specs.Each as each;
ghost use Rattle.lists.specs.Table.{tabulate};
ghost use Rattle.interpolation.specs.Polynomial as polynomial;
ghost use Rattle.interpolation.specs.Interpolation.{side, weight, basis_table};

use crate::SIDE;
use gf256::lanes::LANES;

// At most 16 points, and the product of x + p over all points p: one coefficient more than points, and
// zeros above. That the points are bytes is written down since a method that borrows them is not told so.
#[derive(Clone, Copy)]
pub(crate) struct Points<'a> {
    pub(crate) all: &'a [u8],
    pub(crate) product: [u8; SIDE + 1],
    ghost bytes: { (k : ℕ) → each.Byte (get_or all.now k 0) },
    ghost few: { length all.now ≤ side },
    ghost over_all: { product ≡ polynomial.lowest (side + 1) (polynomial.vanishing all.now) },
}

impl<'a> Points<'a> {
    // None where there are more than 16.
    pub(crate) fn of(points: &'a [u8]) -> Option<Points<'a>>
        ensures { MatchOption result (side < length points.now) (λ found. found.all.now ≡ points.now) }
    {
        if SIDE < points.len() {
            return None;
        }
        Some(Points {
            all: points,
            product: vanishing(points),
        })
    }

    // What `basis` of the library answers of them.
    pub(crate) fn basis(&self) -> [[u8; SIDE]; SIDE]
        ensures { result ≡ basis_table self.now.all.now }
    {
        let mut table = [[0u8; SIDE]; SIDE];
        if !distinct(self.all) {
            return table;
        }
        for i in 0..self.all.len() {
            table[i] = self.row(i);
        }
        table
    }

    // Row i: the product over all points divided by x + point i, which leaves the product over the others,
    // and that divided by its value at point i. The division goes from the highest coefficient down, and the
    // value is found on the way. For speed the quotient stands at the front of 64 bytes, which are scaled
    // side by side.
    fn row(&self, i: usize) -> [u8; SIDE]
        requires { (i < length self.now.all.now) × (each.distinct self.now.all.now ≡ true) }
        ensures { result ≡ tabulate side (weight self.now.all.now i) }
    {
        let point = self.all[i];
        let mut quotient = [0u8; LANES];
        let mut above: u8 = 0;
        let mut value: u8 = 0;
        for e in (0..self.all.len()).rev() {
            above = self.product[e + 1] ^ gf256::mul_by_shifting(above, point);
            quotient[e] = above;
            value = above ^ gf256::mul_by_shifting(value, point);
        }
        // The points are distinct, so the value is not 0 and has an inverse.
        let factor = gf256::inverse(value).unwrap();
        lowest(gf256::lanes::scale_each(quotient, factor))
    }
}

// The product of x + p over all points p.
fn vanishing(points: &[u8]) -> [u8; SIDE + 1]
    requires { length points.now ≤ side }
    ensures { result ≡ polynomial.lowest (side + 1) (polynomial.vanishing points.now) }
{
    let mut product = [0u8; SIDE + 1];
    product[0] = 1;
    for j in (0..points.len()).rev() {
        let longer = times_linear(product, points.len() - j, points[j]);
        product = longer;
    }
    product
}

// A polynomial times x + point, which makes it one of this degree. The coefficients above are zeros and
// stay so: for speed they are passed over. The products of bytes, here and in the rows, are by shifting,
// since those by tables copy the tables at each use, and have the point as the second factor: they go
// through its bits, and points are small.
fn times_linear(poly: [u8; SIDE + 1], degree: usize, point: u8) -> [u8; SIDE + 1]
    requires { (degree ≤ side) × ((e : ℕ) → degree ≤ e → get_or poly e 0 ≡ 0) }
    ensures { result ≡ polynomial.lowest (side + 1) (polynomial.linear point 0 poly) }
{
    let mut longer = [0u8; SIDE + 1];
    let mut lower: u8 = 0;
    for e in 0..degree + 1 {
        longer[e] = lower ^ gf256::mul_by_shifting(poly[e], point);
        lower = poly[e];
    }
    longer
}

// The first 16 of 64 bytes: a row of coefficients.
fn lowest(bytes: [u8; LANES]) -> [u8; SIDE]
    ensures { result ≡ polynomial.lowest side bytes }
{
    let mut row = [0u8; SIDE];
    row.copy_from_slice(&bytes[..SIDE]);
    row
}

// Whether no point stands twice.
fn distinct(points: &[u8]) -> bool
    ensures { result ≡ each.distinct points.now }
{
    for i in 0..points.len() {
        if points[i + 1..].contains(&points[i]) {
            return false;
        }
    }
    true
}
