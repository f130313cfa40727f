// Prints the scheme sheet (document 01's plan sheet) for the scheme on standard input: n, r, z and the
// counts, a byte each, at most 12 bytes in all.
#![tactic(auto)]

use std::io;
use std::io::Read;

fn main(rt: HostRuntime) -> io::Result<()> {
    let mut input = Vec::new(rt.alloc());
    // A u64 has no From of a usize.
    rt.reader()
        .take(sheet::MAX_INPUT as u64)
        .read_to_end(&mut input)?;
    let sheet = sheet::sheet(&input);
    let bytes = sheet.bytes;
    let length = sheet.length;
    rt.write_all(&bytes[..length])
}
