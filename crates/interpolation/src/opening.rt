// The weights of an opening. Where a row has more coefficients than parties are read, those of the higher
// degrees are known, and each of the others is a sum of the parties' values and of the known coefficients,
// each times its weight.
ghost use Rattle.std.specs.Prelude.{◌≡◌, ℕ, suc};
ghost use Rattle.lists.specs.Table.{tabulate};
ghost use Rattle.interpolation.specs.Polynomial as polynomial;
ghost use Rattle.interpolation.specs.Interpolation.{side};
ghost use Rattle.interpolation.specs.Opening.{remainder, opening_table, value_weight};

use crate::SIDE;
use crate::points::Points;

// These weights for a row of `top` coefficients that is read at d points: in row i below d the basis, and
// from d up the weights of the known coefficient of degree i, which are what a division of x to the power i
// by the product over the points leaves. Column e is the degree that is found. A row beyond both d and `top`
// is zero, and the rows of the points are zero where `basis` is.
pub fn opening_weights(points: &[u8], top: usize) -> [[u8; SIDE]; SIDE]
    ensures { result ≡ opening_table points.now top }
{
    // Every row is a point's, and `basis` has none for so many.
    let Some(read) = Points::of(points) else {
        return [[0u8; SIDE]; SIDE];
    };
    let d = read.all.len();
    let mut table = read.basis();
    let end = top.min(SIDE);
    if end <= d {
        return table;
    }
    table[d] = read.first_remainder();
    for i in d + 1..end {
        let last = table[i - 1];
        table[i] = read.next_remainder(last);
    }
    table
}

impl Points<'_> {
    // What a division of x to the power d by the product leaves: its coefficients below d, since the one of
    // degree d is 1.
    fn first_remainder(&self) -> [u8; SIDE]
        ensures { result ≡ polynomial.lowest side (remainder self.now.all.now 0) }
    {
        let d = self.all.len();
        let mut row = [0u8; SIDE];
        row[..d].copy_from_slice(&self.product[..d]);
        row
    }

    // What a division of the next power leaves: x times the last remainder, with the multiple of the product
    // added that takes its highest coefficient off. By shifting, as in the basis, since the tables would be
    // copied at each use.
    fn next_remainder(&self, last: [u8; SIDE]) -> [u8; SIDE]
        ensures { (k : ℕ) → last ≡ polynomial.lowest side (remainder self.now.all.now k) → result ≡ polynomial.lowest side (remainder self.now.all.now (suc k)) }
    {
        let d = self.all.len();
        let mut row = [0u8; SIDE];
        if d == 0 {
            return row;
        }
        let highest = last[d - 1];
        let mut lower: u8 = 0;
        for e in 0..d {
            row[e] = lower ^ gf256::mul_by_shifting(self.product[e], highest);
            lower = last[e];
        }
        row
    }
}

// The weights of a row's value at x, from those of an opening at d points: what a party's value or a known
// coefficient adds to the coefficients below d it adds, as their value at x, to the value of the row, and a
// known coefficient, of a degree i from d up, adds itself times x to the power i besides.
pub fn value_weights(weights: &[[u8; SIDE]; SIDE], d: usize, x: u8) -> [u8; SIDE]
    ensures { result ≡ tabulate side (value_weight weights.now d x) }
{
    let mut chosen = [0u8; SIDE];
    let mut power: u8 = 1;
    for i in 0..SIDE {
        let mut value = value_below(weights[i], d, x);
        if d <= i {
            value ^= power;
        }
        chosen[i] = value;
        power = gf256::mul_by_shifting(power, x);
    }
    chosen
}

// The value at x of the coefficients below d, from the highest down.
fn value_below(coefficients: [u8; SIDE], d: usize, x: u8) -> u8
    ensures { result ≡ polynomial.eval x (polynomial.lowest d coefficients) }
{
    let mut value: u8 = 0;
    for e in (0..d.min(SIDE)).rev() {
        value = coefficients[e] ^ gf256::mul_by_shifting(value, x);
    }
    value
}
