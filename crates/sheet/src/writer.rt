// A text that is built from the front, passed and returned by value. What does not fit is dropped.
ghost use Rattle.std.specs.Prelude.{[], ◌∷◌};
ghost use Rattle.sheet.specs.Sheet.{decimal};
ghost use Rattle.sheet.specs.Writing.{Contains, Adds};

// The bytes that a text has room for; for the contracts this stands in specs/Writing.antt.
const MAX_TEXT: usize = 256;

// The first `length` bytes are the text, and the others 0. The room is fixed and the length stands beside it: a sheet
// cannot fail, and std's String would have to allocate.
#[derive(Clone, Copy)]
pub struct Text {
    pub bytes: [u8; MAX_TEXT],
    pub length: usize,
}

impl Text {
    // The empty text.
    pub(crate) fn new() -> Text
        ensures { Contains result [] }
    {
        Text {
            bytes: [0; MAX_TEXT],
            length: 0,
        }
    }

    // The text and a byte after it.
    pub(crate) fn byte(mut self, byte: u8) -> Text
        ensures { Adds self result (byte ∷ []) }
    {
        let at = self.length;
        if at < MAX_TEXT {
            self.bytes[at] = byte;
            self.length = at + 1;
        }
        self
    }

    // The text and the bytes of a word after it.
    pub(crate) fn word(mut self, word: &[u8]) -> Text
        ensures { Adds self result word.now }
    {
        for &byte in word {
            self = self.byte(byte);
        }
        self
    }

    // The text and a number in decimal after it: its digits but the last, and the last.
    pub(crate) fn number(self, x: usize) -> Text
        ensures { Adds self result (decimal x) }
    {
        // One digit. A u8 has no From of a usize.
        let last = 48 + (x % 10) as u8;
        if x < 10 {
            return self.byte(last);
        }
        self.number(x / 10).byte(last)
    }
}
