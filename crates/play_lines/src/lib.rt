// A chunk of lines, played on the record that is lent.
#![tactic(auto)]

ghost use Rattle.std.specs.Prelude.{◌+◌, ◌*◌, ◌≤◌, ◌<◌, length, take};
ghost use Rattle.octet_writer.specs.Written.{HasRoom, Moved, Wrote};
ghost use Rattle.refusal.specs.Answer.{answer_of};
ghost use Rattle.frame.specs.Frame.{commands_of, line_frame};
ghost use Rattle.ledger.specs.Promise.{Reports, length_of};
ghost use Rattle.lines.specs.Text.{printed};
ghost use Rattle.play_lines.specs.Run.{RunIs};

use frame_reader::unpack;
use ledger::Ledger;
use lines::{REPORT_ROOM, next_end, write_line};
use octet_writer::Writer;
use play_frame::step;
use refusal::Refusal;

// How many bytes of the text were played, and how many were written.
#[derive(Clone, Copy)]
pub struct Extent {
    pub read: usize,
    pub written: usize,
}

// Plays the frame that a line is. Where it is none, nothing changes: a line that is no digits has no bytes, and they are no frame.
fn play_line(
    l: &mut Ledger,
    line: &[u8],
    frame: &mut [u8],
    report: &mut [u8],
) -> Result<usize, Refusal>
    requires { 352 ≤ length frame.old }
    ensures { Reports (commands_of (line_frame line.now)) l.old report.old result l.new report.new }
{
    let n = unpack(line, frame).unwrap_or(0);
    step(l, &frame[..n], report)
}

// Writes the answer line of what a frame was answered.
fn write_answer(w: &mut Writer, played: Result<usize, Refusal>, report: &[u8])
    requires room { HasRoom (2 * length_of played + 3) w.old }
    requires answer { answer_of played < 100 }
    requires report { length_of played ≤ length report.now }
    ensures moved { Moved (2 * length_of played + 3) w.old w.new }
    ensures wrote { Wrote (printed (answer_of played) (take (length_of played) report.now)) w.old w.new }
{
    match played {
        Ok(length) => write_line(w, 0, &report[..length]),
        Err(refusal) => write_line(w, u64::from(refusal.number()), &[]),
    }
}

// Plays the whole lines of `lines` in order, as long as `out` has room for the longest answer line. It looks at the record first, so that what its type says of
// the record is known: what is promised of the book's bytes rests on it.
pub fn play_lines(l: &mut Ledger, lines: &[u8], out: &mut [u8]) -> Extent
    ensures { RunIs l.old lines.now out.old result l.new out.new }
{
    let _ = &l.table;
    let mut frame = [0u8; 352];
    let mut report = [0u8; REPORT_ROOM];
    let mut read: usize = 0;
    let room = out.len();
    let mut w = Writer::new(out);
    while let Some(end) = next_end(lines, read, room - w.len()) {
        let line = &lines[read..end];
        let played = play_line(l, line, &mut frame, &mut report);
        write_answer(&mut w, played, &report);
        read = end + 1;
    }
    Extent {
        read,
        written: w.len(),
    }
}
