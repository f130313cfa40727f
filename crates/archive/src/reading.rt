// Reading an archive. Every call tests the whole file first: what is handed back is an entry of an archive, or the call
// is refused.
ghost use Rattle.std.specs.Prelude.{◌≡◌};
ghost use Rattle.scheme.specs.Outcome.{outcome};
ghost use Rattle.archive.specs.Reading.{count_answer, entry_outcome, place_answer, entry_length_answer, entry_of, entry_start, moved};

use crate::MAX_ENTRIES;
use crate::numbers::number_at;
use crate::pairs::{Pair, head_bytes, pair_at};
use sharing::Refusal;

// How many entries an archive has. Refusal 12: the count or a pair is cut short, or the count is above its limit. 13: a
// pair or the file's end breaks the rules.
pub fn count(file: &[u8]) -> Result<usize, Refusal>
    ensures { outcome result ≡ count_answer file.now }
{
    if file.len() < 2 {
        return Err(Refusal::ArchiveCount);
    }
    let entries = number_at(file, 0);
    if MAX_ENTRIES < entries {
        return Err(Refusal::ArchiveCount);
    }
    // Where the next entry has to start.
    let mut start = head_bytes(entries);
    if file.len() < start {
        return Err(Refusal::ArchiveCount);
    }
    for i in 0..entries {
        let pair = pair_at(file, i);
        if pair.offset != start || pair.length == 0 {
            return Err(Refusal::ArchiveEntries);
        }
        start = pair.offset + pair.length;
    }
    if start != file.len() {
        return Err(Refusal::ArchiveEntries);
    }
    Ok(entries)
}

// Where the entry of this number stands. Refusals 12 and 13: those of the file. 14: no entry has this number.
pub fn entry_place(file: &[u8], number: usize) -> Result<Pair, Refusal>
    ensures { entry_outcome result ≡ place_answer file.now number }
{
    let entries = count(file)?;
    if entries <= number {
        return Err(Refusal::EntryNumber);
    }
    Ok(pair_at(file, number))
}

// The length of the entry of this number.
pub fn entry_length(file: &[u8], number: usize) -> Result<usize, Refusal>
    ensures { outcome result ≡ entry_length_answer file.now number }
{
    Ok(entry_place(file, number)?.length)
}

// The entry itself: its own part of the lent file, empty on a refusal.
pub fn entry<'a>(file: &'a [u8], number: usize) -> &'a [u8]
    ensures { (result.now ≡ entry_of file.now number) × (result.ref_ptr ≡ moved file.entry.ref_ptr (entry_start file.now number)) }
{
    let Ok(Pair { offset, length }) = entry_place(file, number) else {
        return &file[..0];
    };
    let end = offset + length;
    &file[offset..end]
}
