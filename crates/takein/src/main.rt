// Reads an image from standard input, takes its tray in, and prints its sizes and cards, or why it was refused.
#![tactic(auto)]

use std::io::Read;

fn run(rt: &HostRuntime) -> anyhow::Result<()> {
    // One byte above the limit is enough to tell that the input is too long.
    let mut input = Vec::new(rt.alloc());
    rt.stdin()
        .take(reports::INPUT_LIMIT as u64 + 1)
        .read_to_end(&mut input)?;
    // A refused input is an answer too, and no failure of the program.
    match reports::receive(&mut input) {
        Ok(receipt) => rt.println(receipt)?,
        Err(refusal) => rt.println(refusal)?,
    }
    Ok(())
}

fn main(rt: HostRuntime) -> anyhow::Result<()> {
    run(&rt)
}
