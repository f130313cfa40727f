// The C boundary of the archive, a static library of its own beside that of `exports`. A slice is a pointer and a length; an
// answer is a struct whose `refusal` is 0 when the call is accepted.
#![tactic(auto)]

ghost use Rattle.std.specs.Prelude.{◌≡◌};
ghost use Rattle.exports.specs.Fields.{answer_fields, value_fields};
ghost use Rattle.archive.specs.Reading.{count_answer, entry_outcome, place_answer};
ghost use Rattle.archive_exports.specs.Fields.{entry_fields, place_fields, WriteFields};

use archive::Pair;
use exports::SharingAnswer;
use sharing::Refusal;

// The answer of a lookup: where in the file the entry starts, and its length.
#[repr(C)]
#[derive(Clone, Copy)]
pub struct ArchiveEntryAnswer {
    pub refusal: u64,
    pub offset: u64,
    pub length: u64,
}

// A usize has no From into u64: `as` keeps the number.
impl From<Result<Pair, Refusal>> for ArchiveEntryAnswer {
    ghost from_gives = { λ answer a. entry_fields a ≡ place_fields (entry_outcome answer) };

    fn from(answer: Result<Pair, Refusal>) -> ArchiveEntryAnswer {
        match answer {
            Ok(Pair { offset, length }) => ArchiveEntryAnswer {
                refusal: 0,
                offset: offset as u64,
                length: length as u64,
            },
            Err(refusal) => ArchiveEntryAnswer {
                refusal: u64::from(refusal.number()),
                offset: 0,
                length: 0,
            },
        }
    }
}

#[unsafe(no_mangle)]
pub extern "C" fn archive_write(contents: &[u8], lengths: &[usize], out: &mut [u8]) -> SharingAnswer
    ensures { WriteFields contents.now lengths.now out.old result out.new }
{
    archive::write(contents, lengths, out).into()
}

#[unsafe(no_mangle)]
pub extern "C" fn archive_count(file: &[u8]) -> SharingAnswer
    ensures { answer_fields result ≡ value_fields (count_answer file.now) }
{
    archive::count(file).into()
}

#[unsafe(no_mangle)]
pub extern "C" fn archive_entry(file: &[u8], number: usize) -> ArchiveEntryAnswer
    ensures { entry_fields result ≡ place_fields (place_answer file.now number) }
{
    archive::entry_place(file, number).into()
}
