// Writes an archive, reads its entries back out of the middle of the file and prints them, for comparison with a stored
// text. Then it damages the file.
#![tactic(auto)]

use sharing::Refusal;
use std::io;

fn main(rt: HostRuntime) -> io::Result<()> {
    // 2 + 4 × 3 bytes before the entries, and 10 bytes of them.
    let mut file = [0u8; 24];
    written(&rt, &mut file)?;
    shown(&rt, &file)?;
    damaged(&rt, &mut file)?;
    let mut room = [7u8; 12];
    tried(&rt, &mut room)?;
    let mut short = [7u8; 11];
    tried(&rt, &mut short)
}

fn written(rt: &impl Print, file: &mut [u8]) -> io::Result<()> {
    told(rt, archive::write(b"Callafter.", &[4, 5, 1], file))
}

fn shown(rt: &impl Print, file: &[u8]) -> io::Result<()> {
    told(rt, archive::count(file))?;
    for number in 0..4 {
        entry(rt, file, number)?;
    }
    Ok(())
}

// The second offset is one too high, then a number is asked for that no entry has, then the count is too high.
fn damaged(rt: &impl Print, file: &mut [u8; 24]) -> io::Result<()> {
    file[6] = 19;
    told(rt, archive::count(file))?;
    entry(rt, file, 3)?;
    file[1] = 17;
    entry(rt, file, 3)
}

// Lengths that add up to the contents, and that do not: in the one case the length of the output decides.
fn tried(rt: &impl Print, out: &mut [u8]) -> io::Result<()> {
    told(rt, archive::write(b"ab", &[1, 1], out))?;
    told(rt, archive::write(b"ab", &[1, 2], out))?;
    // If their sum wrapped, it would be 2.
    let halves = [9223372036854775809, 9223372036854775809];
    told(rt, archive::write(b"ab", &halves, out))
}

// The length of an entry, and the entry itself.
fn entry(rt: &impl Print, file: &[u8], number: usize) -> io::Result<()> {
    told(rt, archive::entry_length(file, number))?;
    rt.write_all(archive::entry(file, number))?;
    println!(rt)
}

fn told(rt: &impl Print, answer: Result<usize, Refusal>) -> io::Result<()> {
    match answer {
        Ok(value) => println!(rt; "value {value}"),
        Err(refusal) => {
            let number = refusal.number();
            println!(rt; "refused {number}")
        }
    }
}
