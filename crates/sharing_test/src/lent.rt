// What the calls are given and lent.
use sharing::Parameters;

// Document 01's plan A.
pub(crate) const A: Parameters<'static> = Parameters {
    n: 3,
    r: 1,
    z: 1,
    counts: &[3, 2],
};

pub(crate) fn given(n: u8, r: u8, z: u8, counts: &[u8]) -> Parameters<'_> {
    Parameters { n, r, z, counts }
}

// The first bytes, as many as there are of them at most.
pub(crate) fn cut(bytes: &[u8], many: usize) -> &[u8] {
    bytes.get(..many).unwrap_or(bytes)
}

// Bytes that differ from place to place. A u8 has no From of a usize.
pub(crate) fn pattern(first: usize) -> [u8; 512] {
    let mut bytes = [0u8; 512];
    for i in 0..512 {
        bytes[i] = ((first % 256 + i * 37) % 256) as u8;
    }
    bytes
}
