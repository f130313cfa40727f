// Writing an archive.
ghost use Rattle.std.specs.Prelude.{◌≡◌, true, ◌+◌, ◌≤◌, length, take};
ghost use lib.Seq.{paste};
ghost use Rattle.archive.specs.Format.{max_entries, head_bytes, head_of};
ghost use Rattle.archive.specs.Writing.{lengths_fit, would_break, WriteCall};

use crate::MAX_ENTRIES;
use crate::numbers::{MAX_NUMBER, put_number};
use crate::pairs::head_bytes;
use sharing::Refusal;

// Writes the archive of the entries, which are lent end to end with their lengths, and answers its length. On a refusal
// nothing is written. Refusal 12: there are more lengths than an archive may have entries. 13: an entry has no byte, an
// offset or a length does not fit two bytes, or the lengths do not add up to the contents. 10: the output has not the
// archive's length.
pub fn write(contents: &[u8], lengths: &[usize], out: &mut [u8]) -> Result<usize, Refusal>
    ensures { WriteCall contents.now lengths.now out.old result out.new }
{
    if MAX_ENTRIES < lengths.len() {
        return Err(Refusal::ArchiveCount);
    }
    // What a test asks is worked out before it, so that two of them stand in the table's order, side by side.
    let broken = would_break(contents.len(), lengths);
    let head = head_bytes(lengths.len());
    let bytes = head + contents.len();
    if broken {
        return Err(Refusal::ArchiveEntries);
    }
    if out.len() != bytes {
        return Err(Refusal::OutputLength);
    }
    put_head(lengths, out);
    put_contents(contents, head, out);
    Ok(bytes)
}

// Is there an entry with no byte, an offset or a length that does not fit two bytes, or do the lengths not add up? Each
// length is compared before it is added, so that no sum wraps.
fn would_break(contents: usize, lengths: &[usize]) -> bool
    requires { length lengths.now ≤ max_entries }
    ensures { result ≡ would_break contents lengths.now }
{
    let head = head_bytes(lengths.len());
    let mut offset = head;
    for &size in lengths {
        if size == 0 || MAX_NUMBER < size || MAX_NUMBER < offset {
            return true;
        }
        offset += size;
    }
    offset - head != contents
}

// Writes the count and the pairs.
fn put_head(lengths: &[usize], out: &mut [u8])
    requires { (length lengths.now ≤ max_entries) × (lengths_fit (head_bytes (length lengths.now)) lengths.now ≡ true) × (head_bytes (length lengths.now) ≤ length out.old) }
    ensures { take (head_bytes (length lengths.now)) out.new ≡ head_of lengths.now }
{
    put_number(out, 0, lengths.len());
    let mut offset = head_bytes(lengths.len());
    for (i, &size) in lengths.iter().enumerate() {
        let at = head_bytes(i);
        put_number(out, at, offset);
        put_number(out, at + 2, size);
        offset += size;
    }
}

// Writes the entries, end to end, from a place on. A loop: of `copy_from_slice` the compiler makes a call of memmove here,
// and the header promises that the library needs memcpy and memset alone.
fn put_contents(contents: &[u8], at: usize, out: &mut [u8])
    requires { at + length contents.now ≤ length out.old }
    ensures { out.new ≡ paste out.old at contents.now (length contents.now) }
{
    for (i, &byte) in contents.iter().enumerate() {
        out[at + i] = byte;
    }
}
