// Shows what a rule on standard input is read as: its tables, row by row, or the refusal.
#![tactic(auto)]

use std::io;
use std::io::Read;

fn main(rt: HostRuntime) -> io::Result<()> {
    let mut rule = Vec::new(rt.alloc());
    rt.stdin().read_to_end(&mut rule)?;
    let lines = listing::list(rt.alloc(), rule.as_slice())?;
    rt.print(lines)
}
