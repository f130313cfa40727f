// How often two ways to make the same differ.
ghost use Rattle.std.specs.Prelude.{◌≡◌, ◌≤◌};
ghost use Rattle.gf256.specs.Lanes.{lanes};

use gf256::lanes::LANES;

// The pairs of bytes, of all, on which the product by tables and that by shifting differ: proved to be none, and
// counted.
pub(crate) fn different_products() -> usize
    ensures { result ≡ 0 }
{
    let mut count = 0;
    for a in 0..=255 {
        for b in 0..=255 {
            if gf256::mul(a, b) != gf256::mul_by_shifting(a, b) {
                count += 1;
            }
        }
    }
    count
}

// Has the byte an inverse, and does it give 1 times it?
fn inverted(a: u8) -> bool {
    gf256::inverse(a).is_some_and(|x| gf256::mul(a, x) == 1)
}

// How many of the 256 bytes give 1 times their inverse.
pub(crate) fn inverses() -> usize {
    (0..=255).filter(|&a| inverted(a)).count()
}

// 64 bytes that rise by 1 from the first, and from 255 to 0. Here and below `as` cuts a place to a byte: a u8 has no From of a usize.
fn rising(first: u8) -> [u8; LANES] {
    let mut x = [0; LANES];
    for i in 0..LANES {
        x[i] = first.wrapping_add(i as u8);
    }
    x
}

// The places at which the sums side by side differ from the sums.
fn sums_apart(x: [u8; LANES], y: [u8; LANES]) -> usize
    ensures { result ≤ lanes }
{
    let sums = gf256::lanes::sum_each(x, y);
    (0..LANES)
        .filter(|&i| sums[i] != gf256::add(x[i], y[i]))
        .count()
}

// The places at which the products side by side differ from the products.
fn scaled_apart(x: [u8; LANES], by: u8) -> usize
    ensures { result ≤ lanes }
{
    let scaled = gf256::lanes::scale_each(x, by);
    (0..LANES)
        .filter(|&i| scaled[i] != gf256::mul(by, x[i]))
        .count()
}

// Over four arrays that hold every byte, each with 256 others: every pair of bytes once.
pub(crate) fn different_sums() -> usize {
    let mut count = 0;
    for i in 0..1024usize {
        count += sums_apart(rising((i % 4 * 64) as u8), rising((i / 4) as u8));
    }
    count
}

// Over the same four arrays, each with all 256 factors: every pair of bytes once.
pub(crate) fn different_scaled() -> usize {
    let mut count = 0;
    for i in 0..1024usize {
        count += scaled_apart(rising((i % 4 * 64) as u8), (i / 4) as u8);
    }
    count
}
