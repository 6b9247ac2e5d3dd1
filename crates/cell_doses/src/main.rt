// Prints the dose at the middle of each cell of the table file on standard input, cubic and quintic.
#![tactic(auto)]

use std::io;

fn main(rt: HostRuntime) -> io::Result<()> {
    print_doses::print_doses(&mut rt.stdin(), &mut rt.stdout())
}
