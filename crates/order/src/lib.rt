// The order in which a reader takes the rows that are sent (document 02, e): the group of d first, then the group numbered
// one less, down to the first, and in each group the rows rising. The public functions take any numbers, and have an
// answer for those that no scheme has too; nobody uses it. So they are not lent a `Scheme` (see crate `rows`).
#![tactic(auto)]

ghost use Rattle.std.specs.Prelude.{◌≡◌, get_or};
ghost use Rattle.order.specs.ReadingOrder.{group_number, rows_before, groups_down};

// The number of the group of d, counted from 1: its place among the counts. Where it is none of them, their number.
pub fn group_number(counts: &[u8], d: usize) -> usize
    ensures { result ≡ group_number d counts.now }
{
    for (i, count) in counts.iter().enumerate() {
        if d == usize::from(*count) {
            return i + 1;
        }
    }
    counts.len()
}

// The rows of the first g groups.
fn rows_before(block: usize, z: u8, counts: &[u8], g: usize) -> usize
    ensures { result ≡ rows_before block z counts.now g }
{
    if g == 0 {
        return 0;
    }
    scheme::rows_of_count(block, z, rows::count_at(counts, g - 1))
}

// The row whose turn it is, counted from 0, among the rows of the first `groups` groups, of which the last group comes
// first: the turns of each group are passed until the turn is one of the group's own.
pub fn row_in_turn(block: usize, z: u8, counts: &[u8], groups: usize, turn: usize) -> usize
    ensures { result ≡ get_or (groups_down block z counts.now groups) turn 0 }
{
    let mut left = turn;
    let mut end = rows_before(block, z, counts, groups);
    for g in (0..groups).rev() {
        let from = rows_before(block, z, counts, g);
        // No rows where the counts are no scheme's and P does not rise.
        let many = end.saturating_sub(from);
        if left < many {
            return from + left;
        }
        left -= many;
        end = from;
    }
    0
}
