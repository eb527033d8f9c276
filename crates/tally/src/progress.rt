// Where the program stands between its calls. The fields are this module's own: who plays the input can hand a `Progress` on and cannot make one up, so it
// cannot say itself that no answer waits, that nothing was read, or that the input has ended.
ghost use Rattle.std.specs.Prelude.{◌≡◌, OnOk, cond, ◌-◌, ◌<◌, ◌≤◌, length};
ghost use Rattle.std.specs.Io.KnownBytes.{Appends};
ghost use Rattle.std.specs.Process.{exit_status};
ghost use Rattle.lines.specs.Text.{answer_room};
ghost use Rattle.tally.specs.Progress.{ended, over, failed, progress_of, started, broken, Ready, PlayedIs, Given, Waiting, PutIs, Over};
ghost use Rattle.tally.specs.ReadOn.{Rests, ReadOnIs};
ghost use Rattle.tally.specs.declared.progress.Stage.TheVariants.{Reading, Failed};

use ledger::Ledger;
use std::io::{self, Read, Write};
use std::process::ExitCode;
use tally_feed::{Counts, feed};
use tally_kept::end_line;

// Why the program ends before its input does.
#[derive(Debug, thiserror::Error, Drop)]
enum Failure {
    #[error("standard input cannot be read")]
    Unread,
    #[error("standard output cannot be written")]
    Unwritten,
}

// How far the program is: it reads; the input has ended, and lines of it may be left; all of them are answered; a read or a write failed, with whether the input had
// ended before.
#[derive(Clone, Copy)]
enum Stage {
    Reading,
    Ending,
    Done,
    Failed { ended: bool },
}

impl Stage {
    // Where a read or a write fails.
    fn broken(self) -> Stage
        ensures { result ≡ Failed (ended self) }
    {
        match self {
            Stage::Reading => Stage::Failed { ended: false },
            Stage::Ending | Stage::Done => Stage::Failed { ended: true },
            Stage::Failed { .. } => self,
        }
    }
}

// The record; what `feed` counted last; how many bytes were read behind what it left; how far it is; how many reads may still be made, since
// a loop has to end.
#[derive(Drop)]
pub struct Progress {
    ledger: Ledger,
    counts: Counts,
    n: usize,
    stage: Stage,
    reads: u64,
}

// The end, with the record that was reached.
#[derive(Drop)]
pub struct Finished {
    ledger: Ledger,
    stage: Stage,
}

// Hands bytes to the output. What reaches standard output no contract can say; so it is asked too that they are the answers that wait, all of them.
fn write_answers<W: Write>(output: &mut W, p: &Progress, answers: &[u8]) -> io::Result<()>
    requires { Waiting (progress_of p.now) answers.now }
    ensures { OnOk result (Appends (W.contents output.old) (W.contents output.new) answers.now) }
{
    output.write_all(answers)
}

impl Progress {
    // Before the first read.
    pub fn begin(ledger: Ledger) -> Progress
        ensures { (progress_of result ≡ started ledger.table ledger.book.used) × (result.ledger ≡ ledger) }
    {
        Progress {
            ledger,
            counts: Counts {
                left: 0,
                read: 0,
                waiting: 0,
            },
            n: 0,
            stage: Stage::Reading,
            reads: u64::MAX,
        }
    }

    pub fn is_over(&self) -> bool
        ensures { result ≡ over self.now.stage }
    {
        matches!(self.stage, Stage::Done | Stage::Failed { .. })
    }

    // Plays the whole lines of what was left and of what was read behind it, as far as `out` has room.
    pub fn play(&mut self, buf: &mut [u8], out: &mut [u8])
        requires { (Ready (progress_of self.old) self.old.ledger.book.ids self.old.ledger.book.days buf.old) × (answer_room ≤ length out.old) }
        ensures { PlayedIs (progress_of self.old) self.old.ledger.book.ids self.old.ledger.book.days buf.old out.old (progress_of self.new) self.new.ledger.book.ids self.new.ledger.book.days buf.new out.new }
    {
        self.counts = feed(&mut self.ledger, self.counts, buf, self.n, out);
        self.n = 0;
    }

    // Where a read or a write failed, that is said, and it is over.
    fn stop(&mut self, rt: &HostRuntime, failure: Failure)
        ensures { (progress_of self.new ≡ broken (progress_of self.old)) × (self.new.ledger ≡ self.old.ledger) }
    {
        let _ = eprintln!(rt; "tally: {failure}");
        self.n = 0;
        self.stage = self.stage.broken();
    }

    // Writes the answers that wait in `out`, which is what `play` left.
    pub fn put<W: Write>(&mut self, rt: &HostRuntime, output: &mut W, out: &[u8])
        requires { Given (progress_of self.old) out.now }
        ensures put { PutIs (progress_of self.old) out.now (W.contents output.old) (W.contents output.new) (progress_of self.new) }
        ensures same { self.new.ledger ≡ self.old.ledger }
    {
        let waiting = self.counts.waiting;
        match write_answers(output, self, &out[..waiting]) {
            Ok(()) => self.counts.waiting = 0,
            Err(_) => self.stop(rt, Failure::Unwritten),
        }
    }

    // Takes n bytes that a read left behind what was left.
    fn take(&mut self, n: usize, stage: Stage)
        requires { 0 < self.old.reads }
        ensures { self.new ≡ record { ledger = self.old.ledger; counts = self.old.counts; n = n; stage = stage; reads = self.old.reads - 1 } }
    {
        self.n = n;
        self.stage = stage;
        self.reads -= 1;
    }

    // Reads behind what was left. At the end of the input the last line gets its end, where it lacks it.
    fn read<R: Read>(&mut self, rt: &HostRuntime, input: &mut R, buf: &mut [u8])
        requires { (Rests (progress_of self.old) buf.old) × (self.old.stage ≡ Reading) × (self.old.counts.read ≡ 0) }
        ensures read { ReadOnIs (progress_of self.old) buf.old (R.remaining input.old) (progress_of self.new) buf.new (R.remaining input.new) }
        ensures same { self.new.ledger ≡ self.old.ledger }
    {
        if self.reads == 0 {
            return self.stop(rt, Failure::Unread);
        }
        let left = self.counts.left;
        match input.read(&mut buf[left..]) {
            Ok(0) => {
                let end = end_line(buf, left);
                self.take(end, Stage::Ending)
            }
            Ok(n) => self.take(n, Stage::Reading),
            Err(_) => self.stop(rt, Failure::Unread),
        }
    }

    // Where no line was played, none is left: then more is read, and where the input has ended, it is over.
    #[tactic(auto, using(crate::specs::ReadOn::stays))]
    pub fn read_on<R: Read>(&mut self, rt: &HostRuntime, input: &mut R, buf: &mut [u8])
        requires { Rests (progress_of self.old) buf.old }
        ensures read { ReadOnIs (progress_of self.old) buf.old (R.remaining input.old) (progress_of self.new) buf.new (R.remaining input.new) }
        ensures same { self.new.ledger ≡ self.old.ledger }
    {
        if self.counts.read != 0 {
            return;
        }
        match self.stage {
            Stage::Reading => self.read(rt, input, buf),
            Stage::Ending => self.stage = Stage::Done,
            Stage::Done | Stage::Failed { .. } => {}
        }
    }

    // The end, and nothing else gives it: it is asked that nothing is left to do.
    pub fn finish(self) -> Finished
        requires { Over (progress_of self) }
        ensures { result ≡ record { ledger = self.ledger; stage = self.stage } }
    {
        Finished {
            ledger: self.ledger,
            stage: self.stage,
        }
    }
}

// The status that the program ends with: 1 where a read or a write failed, else 0.
pub fn status(f: Finished) -> ExitCode
    ensures { exit_status result ≡ cond (failed f.stage) 1 0 }
{
    match f.stage {
        Stage::Failed { .. } => ExitCode::FAILURE,
        _ => ExitCode::SUCCESS,
    }
}
