// Rebuilding a party's share from whole shares of the others (document 02, h), and whom a disagreement names. No slice that
// is lent ever receives the message: the blocks stand in the call's own memory, as in an opening.
ghost use Rattle.std.specs.Prelude.{◌≡◌, ◌*◌, ◌≤◌, length};
ghost use Rattle.staircase.specs.Parameters.{given_parameters};
ghost use Rattle.reader.specs.Agreeing.{RoomFits};
ghost use Rattle.reader.specs.Lent.{RebuildsLent};
ghost use Rattle.agreement.specs.Rebuild.{wanted_refused, held_refused};
ghost use Rattle.reader.specs.Rebuild.{RebuildCall};

use crate::agreeing::differing;
use crate::lent::Lent;
use crate::opening::{ROOM, SMALL};
use scheme::{Parameters, Refusal, padding};

// Why a call that rebuilds a share is refused: the shares do not agree, refusal 18, with the party without which they would,
// 0 where there is none to name, which no party is called (document 02, h, answers it so); or a refusal before it.
#[derive(Clone, Copy, Debug, PartialEq, Eq)]
pub enum RebuildRefusal {
    Disagreeing { party: u8 },
    Refused(Refusal),
}

impl From<Refusal> for RebuildRefusal {
    ghost use Rattle.reader.specs.declared.rebuilding.RebuildRefusal.TheVariants.{Refused};

    ghost from_gives = { λ refusal r. r ≡ Refused refusal };

    fn from(refusal: Refusal) -> RebuildRefusal {
        RebuildRefusal::Refused(refusal)
    }
}

// Rebuilds the share of a party from the whole shares of these parties, of which it may be one, one after another in their
// order, and answers in how many bytes the held copy differs from it; an empty one is none, and differs in 0. The output is
// written only once it is known that the shares agree; on a refusal nothing is. Refusals 1 to 4: those of the scheme. 7: the
// parties' numbers do not rise strictly, or one of them, or the one whose share is wanted, is outside 1 to n. 17: there are
// fewer than n - r. 9: the shares are not those of a message of an accepted length, in either form, or a copy is held of
// another length than a share. 10: the output has not a share's length. 18: the shares do not agree; with n - r + 2 of them or
// more it comes with the party without which all others would.
pub fn rebuild(
    given: Parameters,
    parties: &[u8],
    shares: &[u8],
    party: u8,
    held: &[u8],
    out: &mut [u8],
) -> Result<usize, RebuildRefusal>
    ensures { RebuildCall (given_parameters given.entry) parties.now shares.now party held.now out.old result out.new }
{
    let s = scheme::check(given)?;
    if scheme::readers_refused(s.n, parties) {
        return Err(Refusal::PartyNumbers.into());
    }
    if wanted_refused(s.n, party) {
        return Err(Refusal::PartyNumbers.into());
    }
    let many = parties.len();
    if many < s.fewest_readers() {
        return Err(Refusal::TooFewShares.into());
    }
    let most = padding::most_blocks(s.block);
    let blocks = padding::blocks_held(most, many * s.rows, shares.len());
    let size = blocks * s.rows;
    // What the next tests ask, worked out before them, so that they stand in the table's order, side by side.
    let unlike = held_refused(held.len(), size);
    if shares.len() != many * size {
        return Err(Refusal::ShareLength.into());
    }
    if unlike {
        return Err(Refusal::ShareLength.into());
    }
    if out.len() != size {
        return Err(Refusal::OutputLength.into());
    }
    let lent = Lent {
        scheme: s,
        blocks,
        parties,
        shares,
        // No place: nothing is left out.
        skip: many,
    };
    rebuild_agreeing(&lent, party, held, out)
}

// Is the party outside 1 to n?
fn wanted_refused(n: u8, party: u8) -> bool
    ensures { result ≡ wanted_refused n party }
{
    party == 0 || n < party
}

// Is a copy held, and of another length than a share?
fn held_refused(held: usize, share: usize) -> bool
    ensures { result ≡ held_refused held share }
{
    held != 0 && held != share
}

// Where no refusal but 18 may apply. There is room for the blocks, and for a share, which is no longer: little for those of a
// short message, as in an opening.
fn rebuild_agreeing(
    lent: &Lent,
    party: u8,
    held: &[u8],
    out: &mut [u8],
) -> Result<usize, RebuildRefusal>
    requires whole { lent.now.skip ≡ length lent.now.parties.now }
    requires room { RoomFits lent.now.scheme lent.now.blocks × (length out.old ≡ lent.now.scheme.rows * lent.now.blocks) }
    ensures { RebuildsLent lent.now party held.now out.old result out.new }
{
    let size = lent.blocks * lent.scheme.block;
    let part = lent.scheme.rows * lent.blocks;
    if size <= SMALL {
        let mut work = [0u8; SMALL];
        let mut share = [0u8; SMALL];
        return rebuild_with(
            lent,
            party,
            held,
            &mut work[..size],
            &mut share[..part],
            out,
        );
    }
    let mut work = [0u8; ROOM];
    let mut share = [0u8; ROOM];
    rebuild_with(
        lent,
        party,
        held,
        &mut work[..size],
        &mut share[..part],
        out,
    )
}

// Whether the shares agree, before anything is written; then the share, and in how many bytes the held copy differs.
fn rebuild_with(
    lent: &Lent,
    party: u8,
    held: &[u8],
    work: &mut [u8],
    share: &mut [u8],
    out: &mut [u8],
) -> Result<usize, RebuildRefusal>
    requires whole { lent.now.skip ≡ length lent.now.parties.now }
    requires room { (length work.old ≡ lent.now.blocks * lent.now.scheme.block) × (length share.old ≡ lent.now.scheme.rows * lent.now.blocks) × (length out.old ≡ lent.now.scheme.rows * lent.now.blocks) }
    ensures { RebuildsLent lent.now party held.now out.old result out.new }
{
    let weights = lent.weights();
    if !lent.agree(&weights, work, share) {
        let party = lent.name(work, share);
        return Err(RebuildRefusal::Disagreeing { party });
    }
    lent.rebuild_share(&weights, work, party, out);
    Ok(differing(held, out))
}
