// Plays the lines of standard input, and prints an answer line for each.
#![tactic(auto)]

ghost use Rattle.tally.specs.Progress.{Served, WholeServed};

mod progress;

use progress::{Finished, Progress, status};
use std::io::{Read, Write};
use std::process::ExitCode;

// Plays, writes and reads on until the input has ended and nothing is left, or a read or a write fails. What comes back is given by `finish` alone.
// Of an input and an output whose bytes are known, all the input is read, and the answers to its lines are what is written. The loop ends where the input does:
// there is nothing to iterate over.
fn serve<R: Read, W: Write>(rt: &HostRuntime, input: &mut R, output: &mut W) -> Finished
    ensures served { Served result }
    ensures whole { WholeServed (R.remaining input.old) (R.remaining input.new) (W.contents output.old) (W.contents output.new) result }
{
    let mut buf = [0u8; 65536];
    let mut out = [0u8; 65536];
    let mut p = Progress::begin(ledger::fresh());
    while !p.is_over() {
        p.play(&mut buf, &mut out);
        p.put(rt, output, &out);
        p.read_on(rt, input, &mut buf);
    }
    p.finish()
}

fn main(rt: HostRuntime) -> ExitCode {
    status(serve(&rt, &mut rt.stdin(), &mut rt.stdout()))
}
