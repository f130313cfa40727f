// Runs byte arithmetic and writes what it makes. The file `stdout` has what another implementation makes.
#![tactic(auto)]

mod counts;
mod substitution;

use std::io;

fn main(rt: HostRuntime) -> io::Result<()> {
    print_count(
        &rt,
        "pairs with two different products: ",
        counts::different_products(),
    )?;
    print_sum(&rt, 0x57, 0x83)?;
    for b in [0x02, 0x04, 0x08, 0x10, 0x13, 0x83] {
        print_product(&rt, 0x57, b)?;
    }
    print_count(
        &rt,
        "bytes that give 1 times their inverse: ",
        counts::inverses(),
    )?;
    substitution::print_all(&rt)?;
    print_count(
        &rt,
        "different sums of 64 bytes: ",
        counts::different_sums(),
    )?;
    print_count(
        &rt,
        "different products of 64 bytes: ",
        counts::different_scaled(),
    )
}

fn print_count(rt: &impl Print, what: &str, count: usize) -> io::Result<()> {
    println!(rt; "{what}{count}")
}

fn print_sum(rt: &impl Print, a: u8, b: u8) -> io::Result<()> {
    let sum = gf256::add(a, b);
    println!(rt; "{a:02x} + {b:02x} = {sum:02x}")
}

fn print_product(rt: &impl Print, a: u8, b: u8) -> io::Result<()> {
    let product = gf256::mul(a, b);
    println!(rt; "{a:02x} * {b:02x} = {product:02x}")
}
