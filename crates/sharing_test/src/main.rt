// Splits messages, hands out prefixes, makes bases, opens messages and ranges of them and asks for their lengths, and prints
// what comes back, for comparison with values that were computed by other means.
#![tactic(auto)]

mod asked;
mod bases;
mod former;
mod lent;
mod openings;
mod padded;
mod prefixes;
mod printing;
mod ranges;
mod splits;
mod stored;

use std::io;

fn main(rt: HostRuntime) -> io::Result<()> {
    splits::two_blocks(&rt)?;
    splits::small_schemes(&rt)?;
    splits::orders(&rt)?;
    splits::refused(&rt)?;
    splits::refused_twice(&rt)?;
    prefixes::handed_out(&rt)?;
    prefixes::refused(&rt)?;
    prefixes::refused_twice(&rt)?;
    bases::of_scheme_a(&rt)?;
    bases::refused(&rt)?;
    bases::refused_twice(&rt)?;
    openings::of_scheme_a(&rt)?;
    openings::of_groups(&rt)?;
    openings::refused(&rt)?;
    openings::refused_twice(&rt)?;
    ranges::of_groups(&rt)?;
    ranges::refused(&rt)?;
    padded::splits(&rt)?;
    padded::prefixes(&rt)?;
    padded::openings(&rt)?;
    stored::earlier(&rt)?;
    stored::padded(&rt)?;
    asked::of_scheme_a(&rt)?;
    asked::of_other_numbers(&rt)?;
    asked::refused_twice(&rt)?;
    asked::by_default(&rt)
}
