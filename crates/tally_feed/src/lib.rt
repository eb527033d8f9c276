// What the program does with the text that it has read: whole lines are played, their answers stand in a lent buffer, and what is left is moved to the front.
#![tactic(auto)]

ghost use Rattle.std.specs.Prelude.{◌+◌, ◌≤◌, length};
ghost use Rattle.lines.specs.Text.{answer_room};
ghost use Rattle.tally_feed.specs.Feed.{Feeds, fed_of};
ghost use Rattle.tally_feed.specs.Reads.{SomeReady};

use ledger::Ledger;
use play_lines::play_lines;
use tally_kept::keep;

// The lengths in two buffers that are the caller's. How many bytes in front of the text buffer are left; how many bytes were played last; how many bytes in
// front of the answer buffer wait to be written.
#[derive(Clone, Copy)]
pub struct Counts {
    pub left: usize,
    pub read: usize,
    pub waiting: usize,
}

// Plays the whole lines of what was left and of the n bytes behind it, as long as `out` has room for the longest answer line; moves what is behind them to the
// front. Where no line was played, there is none, and of the begun line its first 1,024 bytes are left.
pub fn feed(l: &mut Ledger, c: Counts, buf: &mut [u8], n: usize, out: &mut [u8]) -> Counts
    requires { (SomeReady (fed_of l.old c) l.old.book.ids l.old.book.days buf.old) × (c.left + n ≤ length buf.old) × (answer_room ≤ length out.old) }
    ensures { Feeds l.old c buf.old n out.old l.new result buf.new out.new }
{
    let len = c.left + n;
    let played = play_lines(l, &buf[..len], out);
    Counts {
        left: keep(buf, played.read, len),
        read: played.read,
        waiting: played.written,
    }
}
