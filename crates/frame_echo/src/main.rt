// Reads each line of standard input as a frame, parses it, writes the command again and prints that frame, a line each. A line that is no frame gives an
// empty line, which no frame is: so each line of the input has its own in the output, and every frame comes out as it went in.
#![tactic(auto)]

ghost use Rattle.std.specs.Prelude.{◌≡◌, [], ◌++◌, ◌+◌, ◌≤◌, length, take, OnOk};
ghost use Rattle.octets.specs.Octets.{write};
ghost use Rattle.octet_writer.specs.Written.{HasRoom, IsSameBuffer, Wrote};
ghost use Rattle.frame.specs.Frame.{read_frame};
ghost use Rattle.frame.specs.Filled.{Filled};
ghost use Rattle.frame_echo.specs.Printed.{echoed, last, EchoIs};
ghost use Rattle.frame_echo.specs.Lines.{InputEchoed};

use arrayvec::ArrayVec;
use command::parse;
use frame_reader::nomiluvar_read_frame;
use frame_writer::write_frame;
use hex_writer::put_hex;
use memchr::memchr_iter;
use octet_writer::Writer;
use std::io::{Read, Write};
use std::process::ExitCode;

// The command of a line's frame, written again: by the round trip this is what the reader itself gives.
fn rewrite(line: &[u8], frame: &mut [u8]) -> usize
    ensures { Filled (read_frame line.now (length frame.old)) frame.old frame.new result }
{
    let mut read = [0u8; 352];
    let n = nomiluvar_read_frame(line, &mut read);
    write_frame(parse(&read[..n]), frame)
}

// Echoes a line.
fn echo(w: &mut Writer, line: &[u8])
    requires { HasRoom (length line.now + 1) w.old }
    ensures buffer { IsSameBuffer w.old w.new }
    ensures wrote { Wrote (echoed line.now) w.old w.new }
{
    let mut frame = [0u8; 352];
    let n = rewrite(line, &mut frame);
    put_hex(w, &frame[..n]);
    w.put(b'\n');
}

// Takes a piece of a line, as much of it as has room. 705 bytes of a line are kept: no frame has more than 704 digits.
fn grow(line: &mut ArrayVec<u8, 705>, piece: &[u8])
    ensures fits { length line.old.items ≤ 705 }
    ensures kept { line.new.items ≡ take 705 (line.old.items ++ piece.now) }
{
    let n = piece.len().min(line.remaining_capacity());
    let _ = line.try_extend_from_slice(&piece[..n]);
}

// Takes the last piece of a line, which its end follows: the line is echoed, and none is begun.
fn step(piece: &[u8], line: &mut ArrayVec<u8, 705>, w: &mut Writer)
    requires { HasRoom (length line.old.items + length piece.now + 1) w.old }
    ensures buffer { IsSameBuffer w.old w.new }
    ensures fits { length line.old.items ≤ 705 }
    ensures echo { Wrote (echoed (take 705 (line.old.items ++ piece.now))) w.old w.new }
    ensures begun { line.new.items ≡ [] }
{
    grow(line, piece);
    echo(w, line.as_slice());
    line.clear();
}

// Takes all bytes of a text, a line at a time, and gives how many bytes came of it.
fn steps(text: &[u8], line: &mut ArrayVec<u8, 705>, out: &mut [u8]) -> usize
    requires { length line.old.items + length text.now ≤ length out.old }
    ensures { EchoIs line.old.items text.now 0 out.old out.new line.new.items result }
{
    let mut w = Writer::new(out);
    let mut from = 0;
    for end in memchr_iter(b'\n', text) {
        step(&text[from..end], line, &mut w);
        from = end + 1;
    }
    grow(line, &text[from..]);
    w.len()
}

// Echoes the last line, which has no end, where it has a byte.
fn finish(line: &[u8], out: &mut [u8]) -> usize
    requires { length line.now + 1 ≤ length out.old }
    ensures { (out.new ≡ write out.old 0 (last line.now)) × (result ≡ length (last line.now)) }
{
    if line.is_empty() {
        return 0;
    }
    let mut w = Writer::new(out);
    echo(&mut w, line);
    w.len()
}

// Why not all of an input was echoed.
#[derive(Debug, thiserror::Error, Drop)]
enum Failure {
    #[error("standard input cannot be read")]
    Unread,
    #[error("standard output cannot be written")]
    Unwritten,
}

// Echoes the lines of an input, read by read: what came of a read is written before the next. The reads are counted, since a loop has to end.
fn echo_all<R: Read, W: Write>(input: &mut R, output: &mut W) -> Result<(), Failure>
    ensures { OnOk result (InputEchoed (R.remaining input.old) (R.remaining input.new) (W.contents output.old) (W.contents output.new)) }
{
    let mut text = [0u8; 4096];
    let mut line: ArrayVec<u8, 705> = ArrayVec::new();
    let mut out = [0u8; 65536];
    for _ in 0..u64::MAX {
        let n = input.read(&mut text).map_err(|_| Failure::Unread)?;
        if n == 0 {
            let end = finish(line.as_slice(), &mut out);
            return output
                .write_all(&out[..end])
                .map_err(|_| Failure::Unwritten);
        }
        let end = steps(&text[..n], &mut line, &mut out);
        output
            .write_all(&out[..end])
            .map_err(|_| Failure::Unwritten)?;
    }
    Err(Failure::Unread)
}

fn main(rt: HostRuntime) -> ExitCode {
    match echo_all(&mut rt.stdin(), &mut rt.stdout()) {
        Ok(()) => ExitCode::SUCCESS,
        Err(failure) => {
            let _ = eprintln!(rt; "frame_echo: {failure}");
            ExitCode::FAILURE
        }
    }
}
