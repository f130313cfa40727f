// Interpolation over bytes: the running value of a row, the Lagrange basis, and the weights of an opening.
#![tactic(auto)]

ghost use Rattle.std.specs.Prelude.{◌≡◌};
ghost use Rattle.lists.specs.Table.{tabulate};
ghost use Rattle.gf256.specs.Lanes.{lanes};
ghost use Rattle.interpolation.specs.Interpolation.{basis_table};
ghost use Rattle.interpolation.specs.RowValue.{next_each};

use gf256::lanes::LANES;

mod opening;
mod points;

pub use opening::{opening_weights, value_weights};
use points::Points;

// Document 01's running row value, of one row in 64 consecutive blocks: its values at a point, over
// the coefficients taken so far.
#[derive(Clone, Copy)]
pub struct RowValue {
    pub point: u8,
    pub values: [u8; LANES],
}

impl RowValue {
    // No coefficient taken yet.
    pub fn new(point: u8) -> RowValue
        ensures { (result.point ≡ point) × (result.values ≡ tabulate lanes (λ k. 0)) }
    {
        RowValue {
            point,
            values: [0u8; LANES],
        }
    }

    // The row's highest coefficient taken: what `next` makes of `new`.
    pub fn starting(point: u8, coefficient: [u8; LANES]) -> RowValue
        ensures { (result.point ≡ point) × (result.values ≡ next_each point (tabulate lanes (λ k. 0)) coefficient) }
    {
        RowValue {
            point,
            values: coefficient,
        }
    }

    // Takes the row's next coefficient, from the highest down, in each of the blocks.
    pub fn next(mut self, coefficient: [u8; LANES]) -> RowValue
        ensures { (result.point ≡ self.point) × (result.values ≡ next_each self.point self.values coefficient) }
    {
        let values = self.values;
        let scaled = gf256::lanes::scale_each(values, self.point);
        // An array that a call answers has a name first: the check does not cover it laid in a field or a
        // variable that is there already.
        let sums = gf256::lanes::sum_each(coefficient, scaled);
        self.values = sums;
        self
    }
}

// The rows and columns of the table of weights: the most points.
pub const SIDE: usize = 16;

// The Lagrange basis (document 01's weights) for these points: in row i, at column e, the coefficient
// of degree e of the polynomial of degree below their number that is 1 at point i and 0 at the other
// points. Zero beyond their number, and all zero unless they are at most 16 and distinct.
pub fn basis(points: &[u8]) -> [[u8; SIDE]; SIDE]
    ensures { result ≡ basis_table points.now }
{
    let Some(few) = Points::of(points) else {
        return [[0u8; SIDE]; SIDE];
    };
    few.basis()
}
