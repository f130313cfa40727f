// The two forms of a message, and how many blocks one makes.
ghost use Rattle.std.specs.Prelude.{◌≡◌, ◌-◌};
ghost use Rattle.scheme.specs.Check.{rows_of_count};
ghost use Rattle.scheme.specs.Forms.{blocks_answer};

use crate::accepted::Scheme;
use crate::limits::MAX_MESSAGE;
use crate::refusal::Refusal;

// The earlier form, whose reader has to know the message's length, and padded, so that it shows its own end (document 02, a).
#[derive(Clone, Copy, Debug, PartialEq, Eq)]
pub enum Form {
    Earlier,
    Padded,
}

impl Scheme<'_> {
    // N of a message of so many bytes. Refusal 5: it is too long.
    pub fn blocks(self, form: Form, message_length: usize) -> Result<usize, Refusal>
        ensures { result ≡ blocks_answer form self.entry.block message_length }
    {
        if MAX_MESSAGE < message_length {
            return Err(Refusal::MessageLength);
        }
        match form {
            Form::Earlier => Ok(crate::block_count(self.block, message_length)),
            // There is room for one byte more, the marker of the end.
            Form::Padded => Ok(message_length / self.block + 1),
        }
    }

    // P of the count d: the rows of a block that d parties send. 0 where d is at most z, as no count is.
    pub fn prefix_rows(self, d: usize) -> usize
        ensures { result ≡ rows_of_count self.entry.block self.entry.z d }
    {
        crate::rows_of_count(self.block, self.z, d)
    }

    // The fewest parties that a message is reconstructed from, n - r.
    pub fn fewest_readers(self) -> usize
        ensures { result ≡ self.entry.n - self.entry.r }
    {
        usize::from(self.n - self.r)
    }
}
