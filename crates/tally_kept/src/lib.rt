// What is kept of a text once its whole lines are played.
#![tactic(auto)]

ghost use Rattle.std.specs.Prelude.{◌≡◌, ◌-◌, ◌<◌, ◌≤◌, length};
ghost use Rattle.octets.specs.Octets.{part, write};
ghost use Rattle.tally_kept.specs.Kept.{kept_length, last_end};

// How much is kept of the n bytes that stand from `from` on, where the lines before them were played. A line that has 1,024 bytes holds no command, whatever
// comes: they stand for all of it.
#[tactic(auto, unfolding(crate::specs::Kept::kept_length))]
fn kept_length(from: usize, n: usize) -> usize
    ensures { result ≡ kept_length from n }
{
    if from == 0 { n.min(1024) } else { n }
}

// Moves what stands from `from` up to `len` to the front, and gives how many bytes of it are kept: all, or its first 1,024 where no line was played, `from`
// being 0, so that it is a begun line.
#[tactic(auto, using(crate::proofs::Laws::kept_most, octets::proofs::Places::moved_front))]
pub fn keep(buf: &mut [u8], from: usize, len: usize) -> usize
    requires { (from ≤ len) × (len ≤ length buf.old) }
    ensures { (buf.new ≡ write buf.old 0 (part from (kept_length from (len - from)) buf.old)) × (result ≡ kept_length from (len - from)) }
{
    let n = kept_length(from, len - from);
    buf.copy_within(from..from + n, 0);
    n
}

// Gives the last line its end where it has a byte, and gives how many bytes that end has.
#[tactic(auto, using(crate::proofs::Laws::last_one), unfolding(crate::specs::Kept::last_end, octets::specs::Octets::write))]
pub fn end_line(buf: &mut [u8], kept: usize) -> usize
    requires { kept < length buf.old }
    ensures { (buf.new ≡ write buf.old kept (last_end kept)) × (result ≡ length (last_end kept)) }
{
    if kept == 0 {
        return 0;
    }
    buf[kept] = 10;
    1
}
