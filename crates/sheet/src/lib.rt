// The scheme sheet (document 01's plan sheet): a scheme's block length, its rows, and what each count
// reads, as a text of lines.
#![tactic(auto)]

ghost use Rattle.std.specs.Prelude.{◌≡◌, get_or, take, drop};
ghost use Rattle.sheet.specs.Sheet.{count_line, count_lines, scheme_text, sheet_text, max_input};
ghost use Rattle.sheet.specs.Writing.{Whole, Contains, Adds};

use scheme::{Parameters, Scheme};

mod writer;

pub use writer::Text;

// How many bytes of the input count; for the contracts this stands in specs/Sheet.antt.
pub const MAX_INPUT: usize = 12;

// The sheet for the input bytes n, r, z and the counts, of which the first 12 count. Of 1 or 2 bytes
// the absent ones are 0, and no bytes mean the default scheme.
pub fn sheet(input: &[u8]) -> Text
    ensures { Whole result (sheet_text input.now) }
{
    if input.is_empty() {
        return scheme_text(Parameters::default());
    }
    scheme_text(Parameters {
        n: input[0],
        r: byte_or_0(input, 1),
        z: byte_or_0(input, 2),
        counts: counts_of(input),
    })
}

// The byte at a place of the input, 0 where it has none.
fn byte_or_0(input: &[u8], at: usize) -> u8
    ensures { result ≡ get_or input.now at 0 }
{
    input.get(at).copied().unwrap_or(0)
}

// The counts of the input: what follows n, r and z, of the bytes that count.
fn counts_of(input: &[u8]) -> &[u8]
    ensures { result.now ≡ drop 3 (take max_input input.now) }
{
    let counted = &input[..input.len().min(MAX_INPUT)];
    &counted[counted.len().min(3)..]
}

// The text for a scheme.
fn scheme_text(given: Parameters) -> Text
    ensures { Contains result (scheme_text given.entry.n given.entry.r given.entry.z given.entry.counts.now) }
{
    let s = match scheme::check(given) {
        Ok(s) => s,
        Err(refusal) => {
            let number = usize::from(refusal.number());
            return Text::new().word(b"refused ").number(number).byte(10);
        }
    };
    let first = Text::new()
        .word(b"block ")
        .number(s.block)
        .word(b" rows ")
        .number(s.rows)
        .byte(10);
    with_counts(first, s)
}

// A text with one line a count of the scheme after it, in the list's order.
fn with_counts(mut text: Text, scheme: Scheme) -> Text
    ensures { Adds text result (count_lines scheme.entry.block scheme.entry.z scheme.entry.counts.now) }
{
    for &d in scheme.counts {
        text = with_count(text, scheme, d);
    }
    text
}

// A text with a count's line after it: d, its P, and the bytes read for a block, d times P.
fn with_count(text: Text, scheme: Scheme, d: u8) -> Text
    ensures { Adds text result (count_line scheme.entry.block scheme.entry.z d) }
{
    let count = usize::from(d);
    let rows = scheme::rows_of_count(scheme.block, scheme.z, count);
    text.number(count)
        .byte(32)
        .number(rows)
        .byte(32)
        .number(count * rows)
        .byte(10)
}
