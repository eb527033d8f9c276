// The letters of an account in the report of a search: how many are set, and which, in the order ABNSR.
#![tactic(auto)]

ghost use Rattle.rules.specs.Letters as Letters;
ghost use Rattle.account_letters.specs.View.{to_letter};
ghost use Rattle.octet_writer.specs.Written.{HasRoom, MovedAtMost, Wrote};

use account_letters::{Letter, ascii, has};
use octet_writer::Writer;

// A letter where it is set.
fn put_letter(w: &mut Writer, letters: u8, letter: Letter)
    requires { HasRoom 1 w.old }
    ensures moved { MovedAtMost 1 w.old w.new }
    ensures wrote { Wrote (Letters.shown (to_letter letter) letters) w.old w.new }
{
    if has(letters, letter) {
        w.put(ascii(letter));
    }
}

// The number of the letters that are set, and those letters. They are written apart first, since their number stands before them. The five are named one after the
// other, as in the rules: a loop over them would want an invariant, and a law that joins it to those five.
pub fn put_letters(w: &mut Writer, letters: u8)
    requires { HasRoom 6 w.old }
    ensures moved { MovedAtMost 6 w.old w.new }
    ensures wrote { Wrote (Letters.letter_bytes letters) w.old w.new }
{
    let mut shown = [0; 5];
    let mut set = Writer::new(&mut shown);
    put_letter(&mut set, letters, Letter::A);
    put_letter(&mut set, letters, Letter::B);
    put_letter(&mut set, letters, Letter::N);
    put_letter(&mut set, letters, Letter::S);
    put_letter(&mut set, letters, Letter::R);
    let count = set.len();
    w.put(count as u8);
    w.put_all(&shown[..count]);
}
