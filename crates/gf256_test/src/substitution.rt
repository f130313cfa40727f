// The byte substitution of FIPS 197 section 5.1.1, made from `inverse`.
use std::io;

// The inverse of a byte, and of 0, which has none, 0.
fn inverse_or_zero(a: u8) -> u8 {
    gf256::inverse(a).unwrap_or(0)
}

// That, and then the affine map: bit i of the result is the sum of bits i, i + 4, i + 5, i + 6 and i + 7,
// counted round, and of bit i of 63 hex.
fn substituted(a: u8) -> u8 {
    let b = inverse_or_zero(a);
    b ^ b.rotate_right(4) ^ b.rotate_right(5) ^ b.rotate_right(6) ^ b.rotate_right(7) ^ 0x63
}

// That of every byte, in 16 lines of 16.
pub(crate) fn print_all(rt: &impl Print) -> io::Result<()> {
    for a in 0..=255 {
        let byte = substituted(a);
        if a % 16 == 15 {
            println!(rt; "{byte:02x}")?;
        } else {
            print!(rt; "{byte:02x} ")?;
        }
    }
    Ok(())
}
