// Adds up a column of words from the standard input as the machine would, and prints each sum.
#![tactic(auto)]

mod lines;
mod reports;

use reports::report;
use std::io;
use std::io::Read;

fn main(rt: HostRuntime) -> io::Result<()> {
    let heap = rt.alloc();
    let mut text = Vec::new(heap);
    rt.stdin().read_to_end(&mut text)?;
    let out = report(heap, &text)?;
    print!(rt; "{out}")
}
