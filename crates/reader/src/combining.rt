// The sum of weighted columns: the coefficients of one degree in 64 blocks.
ghost use Rattle.std.specs.Prelude.{◌≡◌, [], ℕ, ◌+◌, ◌*◌, ◌/◌, ◌%◌, ◌≤◌, ◌<◌, length, get_or};
ghost use Rattle.lists.specs.Table.{tabulate};
ghost use Rattle.gf256.specs.Byte.{◌⊕◌};
ghost use Rattle.gf256.specs.Lanes.{lanes};
ghost use Rattle.interpolation.specs.Interpolation.{side};
ghost use Rattle.interpolation.specs.Polynomial.{sum_to};
ghost use Rattle.reader.specs.Decoding as decoding;

use gf256::lanes;
use gf256::lanes::LANES;
use interpolation::SIDE;

// The sum of the first n columns, which stand one after another, each times its weight at degree e.
// One chain of doublings serves all of them: from the highest bit down, the sum is doubled and each
// column whose weight has the bit is added. A doubling costs as much as five additions, and so they are
// not made for each weight. The weights are public: only their bits decide a branch.
pub(crate) fn combine(
    columns: &[u8],
    weights: &[[u8; SIDE]; SIDE],
    n: usize,
    e: usize,
) -> [u8; LANES]
    requires { (length columns.now ≡ side * lanes) × (n ≤ side) × (e < side) }
    ensures { result ≡ decoding.combined columns.now weights.now e n }
{
    let mut chosen = [0u8; SIDE];
    choose(weights, n, e, &mut chosen);
    let mut sum = add_marked([0u8; LANES], columns, &chosen, n, 128);
    // The bits as a range of shifts were tried, and as an array: an opening took a tenth longer, or more.
    let mut bit: u8 = 64;
    while 0 < bit {
        let twice = lanes::double_each(sum);
        // Not laid in `sum` at once: the borrow checker does not cover a call whose result overwrites an array.
        let more = add_marked(twice, columns, &chosen, n, bit);
        sum = more;
        bit = bit / 2;
    }
    sum
}

// The first n weights at degree e, which are bytes. They are filled in place: returned by value they are
// slower to read.
fn choose(weights: &[[u8; SIDE]; SIDE], n: usize, e: usize, chosen: &mut [u8; SIDE])
    requires { (length chosen.old ≡ side) × (n ≤ side) × (e < side) }
    ensures chosen { (i : ℕ) → i < n → get_or chosen.new i 0 ≡ get_or (get_or weights.now i []) e 0 }
    ensures bytes { (i : ℕ) → i < n → get_or chosen.new i 0 < 256 }
{
    for i in 0..n {
        chosen[i] = weight(weights, i, e);
    }
}

// One of the weights. It has a function of its own, for the proof: a value that is returned is known to
// be a byte.
fn weight(weights: &[[u8; SIDE]; SIDE], i: usize, e: usize) -> u8
    requires { (i < side) × (e < side) }
    ensures { result ≡ get_or (get_or weights.now i []) e 0 }
{
    weights[i][e]
}

// Adds those of the first n columns whose weight has this bit: w / bit is odd.
fn add_marked(
    sum: [u8; LANES],
    columns: &[u8],
    weights: &[u8; SIDE],
    n: usize,
    bit: u8,
) -> [u8; LANES]
    requires { (length columns.now ≡ side * lanes) × (n ≤ side) × (0 < bit) }
    ensures { result ≡ tabulate lanes (λ k. get_or sum k 0 ⊕ sum_to n (λ i. get_or columns.now (i * lanes + k) 0 * (get_or weights.now i 0 / bit % 2))) }
{
    let mut total = sum;
    for i in 0..n {
        if weights[i] / bit % 2 == 1 {
            let more = lanes::sum_each(total, columns::column(columns, i));
            total = more;
        }
    }
    total
}
