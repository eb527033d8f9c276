// Frames read from lines of hexadecimal digits.
#![tactic(auto)]

ghost use Rattle.std.specs.Prelude.{◌≡◌, true, ◌++◌, ◌*◌, ◌≤◌, ◌<◌, length, drop, [], MatchOption, is_some, unwrap_or};
ghost use Rattle.frame.specs.Hex.{is_hex, all_hex, nibble, unhex};
ghost use Rattle.frame.specs.Frame.{is_frame, line_frame, read_frame};
ghost use Rattle.frame.specs.Filled.{Filled};
ghost use Rattle.frame_reader.specs.Unpacked.{is_packed, unpacked, FrameAt};

use digits::is_digit;
use frame::frame_length;

// A lowercase hexadecimal digit: std's test takes capitals, too.
fn is_hex(d: u8) -> bool
    ensures { result ≡ is_hex d }
{
    is_digit(d) | (97..=102).contains(&d)
}

// It looks at every digit, whatever came before: so the compiler takes many at a time. The frames of 20,000 payments take 13.8 million instructions, by `all`, which
// stops at the first that is none, 22.8.
fn all_hex(line: &[u8]) -> bool
    ensures { result ≡ all_hex line.now }
{
    let mut all = true;
    for d in line {
        all &= is_hex(*d);
    }
    all
}

// The value of a hexadecimal digit. It is computed: to look it up in a table of 128 that is made once for many lines took 14.3 against 13.8 million instructions
// for the frames of 20,000 payments, 23.1 against 21.0 for those of a mix. The crate `hex` of the kit, which looks at each digit once more, took 19.5 and 33.6.
#[tactic(auto, unfolding(rules::specs::Message::is_digit, frame::specs::Hex::is_letter, frame::specs::Hex::is_hex, frame::specs::Hex::nibble))]
fn digit_value(d: u8) -> u8
    requires { is_hex d ≡ true }
    ensures { (result ≡ nibble d) × (result < 16) }
{
    if is_digit(d) { d - 48 } else { d - 87 }
}

// The bytes of a line of twice as many hexadecimal digits. They are written by their places, since each is of the two digits at twice its own.
fn decode(line: &[u8], buf: &mut [u8])
    requires { (length line.now ≡ 2 * length buf.old) × (all_hex line.now ≡ true) }
    ensures { buf.new ≡ unhex line.now }
{
    for i in 0..buf.len() {
        buf[i] = digit_value(line[2 * i]) * 16 + digit_value(line[2 * i + 1]);
    }
}

// Writes the bytes that a line's digits are from byte 0 on and gives how many. Where the line is no even number of hexadecimal digits, or has over 704 of
// them, it gives none and leaves the buffer as it was. The buffer is no `&mut [u8; 352]`, here and in what calls it: that would ask more of a caller with a longer one.
pub fn unpack(line: &[u8], buf: &mut [u8]) -> Option<usize>
    requires { 352 ≤ length buf.old }
    ensures { (is_some result ≡ is_packed line.now) × (Filled (unpacked line.now) buf.old buf.new (unwrap_or result 0)) }
{
    let n = line.len() / 2;
    if line.len() % 2 != 0 || 352 < n || !all_hex(line) {
        return None;
    }
    decode(line, &mut buf[..n]);
    Some(n)
}

// The length of the frame that a line is, which then stands in the buffer from byte 0 on; none where the line is no frame. The buffer gets the bytes that the
// line's digits are, whether they are a frame or not.
fn unpack_frame(line: &[u8], buf: &mut [u8]) -> Option<usize>
    requires { 352 ≤ length buf.old }
    ensures bytes { buf.new ≡ unpacked line.now ++ drop (length (unpacked line.now)) buf.old }
    ensures frame { MatchOption result (line_frame line.now ≡ []) (λ n. (is_frame (line_frame line.now) ≡ true) × FrameAt line.now buf.new n) }
{
    let n = unpack(line, buf)?;
    frame_length(&buf[..n])
}

// Writes the frame that a line is from byte 0 on and returns its length. Where the line is no frame, or the buffer has under 352 bytes, it returns 0 and
// leaves the buffer as it was. It gives a length for a shell in C, and so 0 in place of none.
pub fn nomiluvar_read_frame(line: &[u8], frame: &mut [u8]) -> usize
    ensures { Filled (read_frame line.now (length frame.old)) frame.old frame.new result }
{
    if frame.len() < 352 {
        return 0;
    }
    let mut buf = [0u8; 352];
    let Some(n) = unpack_frame(line, &mut buf) else {
        return 0;
    };
    frame[..n].copy_from_slice(&buf[..n]);
    n
}
