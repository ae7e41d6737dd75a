// Runs the AES suite for the scripts in tools/. The first argument is `cost` or `trace`, the second how many messages.
#![tactic(auto)]

mod cost;
mod trace;

use std::{env, io};

fn main(rt: HostRuntime) -> io::Result<()> {
    // Each of the programs that are measured reads its own two arguments; a number that is none is 0.
    let mut words = env::args(&rt)?.skip(1);
    let run = words.next();
    let times = words
        .next()
        .and_then(|word| word.as_str().parse::<u32>().ok())
        .unwrap_or(0);
    match run.as_ref().map(|word| word.as_str()) {
        Some("cost") => cost::run(&rt, times),
        Some("trace") => trace::run(&rt, times),
        _ => println!(rt; "cost or trace, and how many messages"),
    }
}
