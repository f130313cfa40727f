// The readers (document 01's place of that name): is their number a count, and are they parties of the scheme?
ghost use Rattle.std.specs.Prelude.{◌≡◌};
ghost use Rattle.lists.specs.Each.{occurs};
ghost use Rattle.scheme.specs.Readers.{readers_refused};

// Is d one of the counts? Refusal 6 applies where it is not.
pub fn is_count(d: usize, counts: &[u8]) -> bool
    ensures { result ≡ occurs d counts.now }
{
    counts.iter().any(|count| d == usize::from(*count))
}

// Does refusal 7 apply?
pub fn readers_refused(n: u8, parties: &[u8]) -> bool
    ensures { result ≡ readers_refused n parties.now }
{
    // Each party is to be above the one before, the first above 0.
    let mut below: u8 = 0;
    for &party in parties {
        if party <= below || n < party {
            return true;
        }
        below = party;
    }
    false
}
