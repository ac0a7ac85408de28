// The bench as a program of its own (document 01): all of it is `bench_io`'s.
#![tactic(auto)]

ghost use Rattle.std.specs.Process.{exit_status};
ghost use Rattle.bench_io.specs.Workers.{RunLeft};

use std::io::{Read, Write};
use std::process::ExitCode;

// The whole program on its three streams, with its status.
fn run<R: Read, W: Write, E: Write>(input: &mut R, output: &mut W, errors: &mut E) -> ExitCode
    ensures { RunLeft (exit_status result) }
{
    let left = bench_io::bench_run(input, output, errors);
    ExitCode::from(left as u8)
}

fn main(rt: HostRuntime) -> ExitCode {
    let mut input = rt.stdin();
    let mut output = rt.stdout();
    let mut errors = rt.stderr();
    run(&mut input, &mut output, &mut errors)
}
