// Byte arithmetic, FIPS 197 section 4. Each function is held to a definition of specs/Byte.antt.
#![tactic(auto)]

ghost use Rattle.std.specs.Prelude.{◌≡◌, ◌<◌};
ghost use Rattle.gf256.specs.Byte as byte;
ghost use Rattle.gf256.specs.Byte.{◌⊕◌, ◌⊗◌, power};

pub mod lanes;
mod tables;

// The sum of two bytes, and their difference.
pub fn add(a: u8, b: u8) -> u8
    ensures { result ≡ a ⊕ b }
{
    a ^ b
}

// The product of two bytes, by the tables of the powers and the logarithms of 3.
pub fn mul(a: u8, b: u8) -> u8
    ensures { result ≡ a ⊗ b }
{
    if a == 0 || b == 0 {
        return 0;
    }
    power_of_three(logarithm(a) + logarithm(b))
}

// The product of two bytes, by shifting. The loop counts no index: it ends with the highest bit of `b`.
pub fn mul_by_shifting(a: u8, b: u8) -> u8
    ensures { result ≡ a ⊗ b }
{
    let mut sum: u8 = 0;
    let mut x = a;
    let mut left = b;
    while left != 0 {
        if left % 2 == 1 {
            sum ^= x;
        }
        x = double(x);
        left /= 2;
    }
    sum
}

// The inverse of a byte; 0 has none (document 02, g), and its entry of the table is not read.
pub fn inverse(a: u8) -> Option<u8>
    ensures { result ≡ byte.inverse a }
{
    if a == 0 {
        return None;
    }
    Some(tables::INVERSES[usize::from(a)])
}

// A byte times 2. No branch: a byte of 128 or more loses its highest bit, and what is left of the
// modulus is added. That part stands first, since the compiler makes better code of this order.
pub fn double(x: u8) -> u8
    ensures { result ≡ x ⊗ 2 }
{
    ((x / 128) * 0x1b) ^ ((x % 128) * 2)
}

// The power i of 3.
fn power_of_three(i: usize) -> u8
    requires { i < 510 }
    ensures { result ≡ power 3 i }
{
    tables::POWERS[i]
}

// The power of 3 that a byte is; of 0, which is none, any number below 255.
fn logarithm(a: u8) -> usize
    ensures { (result < 255) × (0 < a → power 3 result ≡ a) }
{
    usize::from(tables::LOGARITHMS[usize::from(a)])
}
