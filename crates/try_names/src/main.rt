// Fills a table of names to its last place and asks for one more; then looks names up.
#![tactic(auto)]

use names::Filled;
use std::io;

fn show(rt: &HostRuntime, number: Option<usize>, otherwise: &str) -> io::Result<()> {
    match number {
        Some(k) => println!(rt; "{k}"),
        None => println!(rt; "{otherwise}"),
    }
}

fn show_all(rt: &HostRuntime) -> io::Result<()> {
    let mut names = Filled::<3>::empty();
    show(rt, names.enter(b"probe"), "no room")?;
    show(rt, names.enter(b"valve"), "no room")?;
    show(rt, names.enter(b"probe"), "no room")?;
    show(rt, names.enter(b"loop"), "no room")?;
    show(rt, names.enter(b"tank"), "no room")?;
    show(rt, names.table.lookup(b"loop"), "no number")?;
    show(rt, names.table.lookup(b"tank"), "no number")
}

fn main(rt: HostRuntime) {
    // A write that fails is passed over.
    let _ = show_all(&rt);
}
