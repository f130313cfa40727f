// Runs the examples of document 01 through the public functions, and prints a line for each, with a star or
// without; and what document 02 says of the inverse of 0 (g) and of some schemes (d). The file `stdout` is written from the
// documents.
#![tactic(auto)]

mod long_messages;
mod openings;
mod printing;
mod schemes;
mod shares;

use std::io;

fn main(rt: HostRuntime) -> io::Result<()> {
    products(&rt)?;
    print_inverse(&rt, 0x02)?;
    print_inverse(&rt, 0x00)?;
    schemes::scheme_a(&rt)?;
    shares::rows(&rt)?;
    shares::of_scheme_a(&rt)?;
    openings::of_three(&rt)?;
    openings::of_two(&rt)?;
    shares::the_same_share(&rt)?;
    shares::two_blocks(&rt)?;
    schemes::limits(&rt)?;
    schemes::two_parties(&rt)?;
    schemes::tried(&rt)?;
    long_messages::longest(&rt)?;
    long_messages::too_long(&rt)
}

fn products(rt: &impl Print) -> io::Result<()> {
    print_product(rt, 0x57, 0x83)?;
    print_product(rt, 0x57, 0x13)
}

fn print_product(rt: &impl Print, a: u8, b: u8) -> io::Result<()> {
    let product = gf256::mul(a, b);
    println!(rt; "{a:02x} * {b:02x} = {product:02x}")
}

fn print_inverse(rt: &impl Print, a: u8) -> io::Result<()> {
    let Some(x) = gf256::inverse(a) else {
        return println!(rt; "inverse of {a:02x}: none");
    };
    println!(rt; "inverse of {a:02x} = {x:02x}")
}
