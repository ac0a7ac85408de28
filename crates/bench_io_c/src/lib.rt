// The bench for C callers (c/bench.c): the program of `bench_io` on the process's own streams, under its C name, with its promise.
#![tactic(auto)]

ghost use Rattle.bench_io.specs.Workers.{RunLeft};

use std::io::{Stderr, Stdin, Stdout};

// The whole program: 0, or 1 where reading or writing failed. The streams take no bytes, so C passes nothing: `uint32_t bench_run(void)`.
#[unsafe(no_mangle)]
pub extern "C" fn bench_run(mut input: Stdin, mut output: Stdout, mut errors: Stderr) -> u32
    ensures { RunLeft result }
{
    bench_io::bench_run(&mut input, &mut output, &mut errors)
}
