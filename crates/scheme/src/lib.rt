// The scheme (document 01's plan): n parties, of which r may be absent and z may collude, and the
// counts of parties from which a message is reconstructed.
#![tactic(auto)]

ghost use Rattle.std.specs.Prelude.{◌≡◌, ◌<◌, IfOk};
ghost use Rattle.scheme.specs.SchemeOutcome.{scheme_outcome};
ghost use Rattle.scheme.specs.Check.{checked, counts_refused, rows_of_count, block_count};
ghost use Rattle.scheme.specs.Tried.{tests, tried_outcome, checked_tried};

use crate::search::block_length;

mod accepted;
mod forms;
pub mod limits;
pub mod padding;
mod parameters;
mod readers;
mod refusal;
mod search;

pub use accepted::{Scheme, SchemeNumbers};
pub use forms::Form;
pub use parameters::Parameters;
pub use readers::{is_count, readers_refused};
pub use refusal::Refusal;

// The answer of the check that also tells how many multiples its search for the block length tried
// (document 02, d): the check's answer, and that number beside it, beside a refusal too.
#[derive(Clone, Copy)]
pub struct TriedAnswer<'a> {
    pub answer: Result<Scheme<'a>, Refusal>,
    pub tried: usize,
}

// Checks a scheme's parameters. Refusal 1: n is below 2 or above its limit. 2: z is 0, or r + z is n or more. 3: the
// counts are none or too many, do not fall strictly, start above n or do not end at n - r. 4: the
// block length is above its limit.
pub fn check<'a>(given: Parameters<'a>) -> Result<Scheme<'a>, Refusal>
    ensures answer { scheme_outcome result ≡ checked given.entry.n given.entry.r given.entry.z given.entry.counts.now }
    ensures lent { IfOk result (λ s. s.counts ≡ given.entry.counts) }
{
    check_tried(given).answer
}

// The same, and how many multiples of the first d - z the search for the block length tried: none on
// refusals 1 to 3.
pub fn check_tried<'a>(given: Parameters<'a>) -> TriedAnswer<'a>
    ensures answer { tried_outcome result ≡ checked_tried given.entry.n given.entry.r given.entry.z given.entry.counts.now }
    ensures lent { IfOk result.answer (λ s. s.counts ≡ given.entry.counts) }
{
    if let Err(refusal) = tested(given) {
        return TriedAnswer {
            answer: Err(refusal),
            tried: 0,
        };
    }
    let Parameters { n, r, z, counts } = given;
    let k = n - r - z;
    let first = counts[0] - z;
    let search = block_length(usize::from(first), z, counts);
    let Some(block) = search.block else {
        return TriedAnswer {
            answer: Err(Refusal::BlockLength),
            tried: search.tried,
        };
    };
    let scheme = Scheme {
        n,
        r,
        z,
        counts,
        block,
        rows: block / usize::from(k),
    };
    TriedAnswer {
        answer: Ok(scheme),
        tried: search.tried,
    }
}

// Refusals 1 to 3, which come before the search.
fn tested(given: Parameters) -> Result<(), Refusal>
    ensures { result ≡ tests given.entry.n given.entry.r given.entry.z given.entry.counts.now }
{
    let Parameters { n, r, z, counts } = given;
    if n < 2 || limits::MAX_PARTIES < n {
        return Err(Refusal::Parties);
    }
    let parties = usize::from(n);
    let lost = usize::from(r) + usize::from(z);
    if z == 0 || parties <= lost {
        return Err(Refusal::AbsentOrColluding);
    }
    if counts_refused(n, r, counts) {
        return Err(Refusal::Counts);
    }
    Ok(())
}

// P of the count d in a scheme with this block length: the rows of a block that d parties send.
// 0 where d is at most z, as no count is.
pub fn rows_of_count(block: usize, z: u8, d: usize) -> usize
    ensures { result ≡ rows_of_count block z d }
{
    let low = usize::from(z);
    if d <= low {
        return 0;
    }
    block / (d - low)
}

// N of a message of so many bytes: the number of its blocks, of this length. 0 where the block length is
// 0, as none is.
pub fn block_count(block: usize, bytes: usize) -> usize
    ensures { result ≡ block_count block bytes }
{
    if block == 0 {
        return 0;
    }
    let whole = bytes / block;
    if bytes % block == 0 {
        return whole;
    }
    whole + 1
}

// Does refusal 3 apply?
fn counts_refused(n: u8, r: u8, counts: &[u8]) -> bool
    requires { r < n }
    ensures { result ≡ counts_refused n r counts.now }
{
    if counts.is_empty() || limits::MAX_COUNTS < counts.len() {
        return true;
    }
    // Each count is to stay below the one before, the first at most n.
    let mut above = usize::from(n) + 1;
    for &count in counts {
        let d = usize::from(count);
        if above <= d {
            return true;
        }
        above = d;
    }
    above != usize::from(n - r)
}
