// Lines of a text, and the writing of an answer line.
#![tactic(auto)]

ghost use Rattle.std.specs.Prelude.{◌≡◌, ◌+◌, ◌*◌, ◌<◌, ◌≤◌, length, MatchOption};
ghost use Rattle.lines.specs.Text.{next_end, printed};
ghost use Rattle.octet_writer.specs.Written.{HasRoom, Moved, Wrote};

use hex_writer::put_hex;
use memchr::memchr;
use octet_writer::Writer;

// The bytes lent to a line for its report.
pub const REPORT_ROOM: usize = 8192;

// The bytes of the longest answer line that may come of it.
const ANSWER_ROOM: usize = 2 * REPORT_ROOM + 3;

// The end of the line that begins at `from`, where a whole line and room for the longest answer line are left.
#[tactic(auto, using(crate::proofs::Next::no_room, crate::proofs::Next::end_none, crate::proofs::Next::end_some))]
pub fn next_end(lines: &[u8], from: usize, room: usize) -> Option<usize>
    requires { from ≤ length lines.now }
    ensures { MatchOption result (next_end lines.now from room ≡ length lines.now) (λ e. (e ≡ next_end lines.now from room) × (e < length lines.now)) }
{
    if room < ANSWER_ROOM {
        return None;
    }
    Some(from + memchr(b'\n', &lines[from..])?)
}

// Writes the answer line of a report. The answer is a number and no `Refusal`: any below 100 has its line, also one that no refusal has. Its two digits are bytes of
// a lent buffer, where std prints a text.
pub fn write_line(w: &mut Writer, answer: u64, report: &[u8])
    requires room { HasRoom (2 * length report.now + 3) w.old }
    requires answer { answer < 100 }
    ensures moved { Moved (2 * length report.now + 3) w.old w.new }
    ensures wrote { Wrote (printed answer report.now) w.old w.new }
{
    w.put(b'0' + (answer / 10) as u8);
    w.put(b'0' + (answer % 10) as u8);
    put_hex(w, report);
    w.put(b'\n');
}
