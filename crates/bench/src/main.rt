// Reads a script from standard input and writes its transcript to standard output.
#![tactic(auto)]

use bench_run::run::run;
use std::io;
use std::io::Read;

fn main(rt: HostRuntime) -> io::Result<()> {
    let mut script = Vec::new(rt.alloc());
    rt.stdin().read_to_end(&mut script)?;
    let transcript = run(rt.alloc(), script.as_slice())?;
    rt.write_all(transcript.as_bytes())
}
