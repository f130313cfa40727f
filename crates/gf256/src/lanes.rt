// Sixty-four bytes side by side. The loops have no branch and no index that depends on a byte, and
// the compiler turns them into vector instructions. `map` and `zip` over the arrays were tried: of those it
// makes none, and they take over a hundred times as long.
ghost use Rattle.std.specs.Prelude.{◌≡◌, ◌%◌};
ghost use Rattle.gf256.specs.Lanes.{sums, scaled};

use crate::double;

pub const LANES: usize = 64;

// The sums, byte by byte.
pub fn sum_each(x: [u8; LANES], y: [u8; LANES]) -> [u8; LANES]
    ensures { result ≡ sums x y }
{
    let mut r = [0u8; LANES];
    for i in 0..LANES {
        r[i] = x[i] ^ y[i];
    }
    r
}

// Each byte times 2.
pub fn double_each(x: [u8; LANES]) -> [u8; LANES]
    ensures { result ≡ scaled 2 x }
{
    let mut r = [0u8; LANES];
    for i in 0..LANES {
        r[i] = double(x[i]);
    }
    r
}

// Each byte times `by`, which is public: its bits alone decide the branches. The bytes are doubled up to
// the lowest bit that is set, so that no sum is made with zeros. The loops here count no index: they end
// with the highest bit, where a `for` over eight bits would go on. An array that a call answers is named
// before it is laid in `p` or `sum`, since the check does not cover the call of a `p = f(p)`.
pub fn scale_each(x: [u8; LANES], by: u8) -> [u8; LANES]
    ensures { result ≡ scaled by x }
{
    if by == 0 {
        return [0u8; LANES];
    }
    let mut p = x;
    let mut left = by;
    while left % 2 == 0 {
        let doubled = double_each(p);
        p = doubled;
        left /= 2;
    }
    scale_odd(p, left)
}

// The same where the lowest bit of `by` is 1: the sum starts at the bytes themselves.
fn scale_odd(x: [u8; LANES], by: u8) -> [u8; LANES]
    requires { by % 2 ≡ 1 }
    ensures { result ≡ scaled by x }
{
    let mut sum = x;
    let mut p = x;
    let mut left = by / 2;
    while left != 0 {
        let doubled = double_each(p);
        p = doubled;
        if left % 2 == 1 {
            let s = sum_each(sum, p);
            sum = s;
        }
        left /= 2;
    }
    sum
}
