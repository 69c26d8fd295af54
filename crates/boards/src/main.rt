#![tactic(auto)]

// The program `boards`, first form: reads a plan and messages from the standard input, and shows each message's records.
mod frame;
mod show;

use show::show_input;
use std::io::Read;

fn main(rt: HostRuntime) -> anyhow::Result<()> {
    let heap = rt.alloc();
    let mut input = Vec::new(heap);
    let _ = rt.stdin().read_to_end(&mut input)?;
    show_input(&rt, &input)
}
