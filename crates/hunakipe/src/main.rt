// Reads a plan from standard input and writes its listing, or why and where it was refused, to standard output.
#![tactic(auto)]

use input::MOST_WORDS;
use std::io::Read;

// At most the bytes of the most words, up to the input's end.
fn read_input(rt: &HostRuntime) -> anyhow::Result<Vec<u8>> {
    let mut bytes = Vec::new(rt.alloc());
    rt.stdin()
        .take(4 * MOST_WORDS as u64)
        .read_to_end(&mut bytes)?;
    Ok(bytes)
}

fn run(rt: &HostRuntime) -> anyhow::Result<()> {
    let bytes = read_input(rt)?;
    let text = listing::show(rt.alloc(), &bytes)?;
    rt.print(text)?;
    Ok(())
}

fn main(rt: HostRuntime) -> anyhow::Result<()> {
    run(&rt)
}
