// Whether whole shares agree, and a party's share from those that do (document 02, h). From the first n - r of the shares the
// blocks are decoded, and by them the share of any party is filled in; the shares agree where this gives every other party
// its own. One share can be left out of all of it, which finds the one without which the others agree. No byte of a share
// decides a branch or an index: only whether two whole shares differ does.
ghost use Rattle.std.specs.Prelude.{◌≡◌, ◌⊎◌, map, ◌+◌, ◌-◌, ◌*◌, ◌≤◌, ◌<◌, length, take};
ghost use Rattle.lists.specs.Differing as lists;
ghost use Rattle.lists.specs.Without.{without};
ghost use Rattle.interpolation.specs.Interpolation.{side};
ghost use Rattle.staircase.specs.Parameters.{Parameters, parameters_of, point};
ghost use Rattle.agreement.specs.Agreement.{named};
ghost use Rattle.reader.specs.Lent.{FirstShares, weights_of, found_by, rebuilt_by, agrees_by, same_by};

use crate::ending::nonzero;
use crate::lent::Lent;
use crate::prefixes::Prefixes;
use crate::{decoding, filling};
use interpolation::SIDE;
use rows::point_of;

// The number of places at which both strings have a byte, and not the same.
pub(crate) fn differing(a: &[u8], b: &[u8]) -> usize
    ensures { result ≡ lists.differing a.now b.now }
{
    let mut count = 0;
    for (x, y) in a.iter().zip(b) {
        count += nonzero(x ^ y);
    }
    count
}

// How many shares from the first on have d without the one at place `skip`.
fn lent_count(d: usize, skip: usize) -> usize
    requires { d ≤ side }
    ensures { ((skip < d) × (result ≡ d + 1)) ⊎ ((d ≤ skip) × (result ≡ d)) }
{
    if skip < d { d + 1 } else { d }
}

// The points of the first d parties without the one at place `skip`.
fn first_points(parties: &[u8], skip: usize, d: usize) -> [u8; SIDE]
    requires { (d ≤ side) × (d ≤ length (without skip parties.now)) }
    ensures { (p : Parameters) → take d result ≡ map (point p) (take d (without skip parties.now)) }
{
    let mut points = [0u8; SIDE];
    for i in 0..d {
        let a = decoding::place_of(skip, i);
        points[i] = point_of(parties[a]);
    }
    points
}

impl Lent<'_> {
    // The weights of an opening by the first n - r of the parties that are left.
    pub(crate) fn weights(&self) -> [[u8; SIDE]; SIDE]
        ensures { result ≡ weights_of self.now }
    {
        let d = self.scheme.fewest_readers();
        let points = first_points(self.parties, self.skip, d);
        interpolation::opening_weights(&points[..d], usize::from(self.scheme.counts[0]))
    }

    // The first n - r shares that are left, as the prefixes of so many parties.
    fn first_shares(&self) -> Prefixes<'_>
        ensures { FirstShares self.now result }
    {
        let s = self.scheme;
        let d = s.fewest_readers();
        let end = lent_count(d, self.skip) * (s.rows * self.blocks);
        Prefixes {
            scheme: s,
            d,
            skip: self.skip,
            blocks: self.blocks,
            bytes: &self.shares[..end],
        }
    }

    // Decodes the blocks from the first n - r shares that are left.
    fn open(&self, weights: [[u8; SIDE]; SIDE], work: &mut [u8])
        requires weights { weights ≡ weights_of self.now }
        requires room { length work.old ≡ self.now.blocks * self.now.scheme.block }
        ensures { work.new ≡ found_by self.now }
    {
        decoding::decode(self.first_shares(), self.scheme.rows, weights, work);
    }

    // The share of a party from the same shares and the blocks in the work buffer.
    pub(crate) fn rebuild_share(
        &self,
        weights: &[[u8; SIDE]; SIDE],
        work: &[u8],
        party: u8,
        out: &mut [u8],
    )
        requires weights { weights.now ≡ weights_of self.now }
        requires found { work.now ≡ found_by self.now }
        requires room { length out.old ≡ self.now.scheme.rows * self.now.blocks }
        ensures { out.new ≡ rebuilt_by self.now party }
    {
        let first = self.first_shares();
        let chosen = interpolation::value_weights(weights, first.d, point_of(party));
        filling::fill_share(first, &chosen, work, out);
    }

    // Is the share at place a the one that is left out, or what is rebuilt for its party?
    fn same_share(
        &self,
        weights: &[[u8; SIDE]; SIDE],
        work: &[u8],
        a: usize,
        share: &mut [u8],
    ) -> bool
        requires weights { weights.now ≡ weights_of self.now }
        requires found { work.now ≡ found_by self.now }
        requires room { (length share.old ≡ self.now.scheme.rows * self.now.blocks) × (a < length self.now.parties.now) }
        ensures { result ≡ same_by self.now a }
    {
        if a == self.skip {
            return true;
        }
        self.rebuild_share(weights, work, self.parties[a], share);
        let size = self.scheme.rows * self.blocks;
        let at = a * size;
        differing(share, &self.shares[at..at + size]) == 0
    }

    // Do the shares that are left agree? The first n - r of them need no test: they are those that the blocks are decoded
    // from, which the work buffer has after it.
    pub(crate) fn agree(
        &self,
        weights: &[[u8; SIDE]; SIDE],
        work: &mut [u8],
        share: &mut [u8],
    ) -> bool
        requires weights { weights.now ≡ weights_of self.now }
        requires room { (length work.old ≡ self.now.blocks * self.now.scheme.block) × (length share.old ≡ self.now.scheme.rows * self.now.blocks) }
        ensures tested { result ≡ agrees_by self.now }
        ensures found { work.new ≡ found_by self.now }
    {
        self.open(*weights, work);
        let first = lent_count(self.scheme.fewest_readers(), self.skip);
        for a in first..self.parties.len() {
            if !self.same_share(weights, work, a, share) {
                return false;
            }
        }
        true
    }

    // Where none is left out: the party without which the others agree, 0 where there is none or too few shares are lent.
    pub(crate) fn name(&self, work: &mut [u8], share: &mut [u8]) -> u8
        requires whole { self.now.skip ≡ length self.now.parties.now }
        requires room { (length work.old ≡ self.now.blocks * self.now.scheme.block) × (length share.old ≡ self.now.scheme.rows * self.now.blocks) }
        ensures { result ≡ named (parameters_of self.now.scheme) self.now.parties.now self.now.blocks self.now.shares.now }
    {
        if self.parties.len() < self.scheme.fewest_readers() + 2 {
            return 0;
        }
        for (i, party) in self.parties.iter().enumerate() {
            // Written out: `..` is not for a struct with a ghost field.
            let others = Lent {
                scheme: self.scheme,
                blocks: self.blocks,
                parties: self.parties,
                shares: self.shares,
                skip: i,
            };
            if others.agree(&others.weights(), work, share) {
                return *party;
            }
        }
        0
    }
}
