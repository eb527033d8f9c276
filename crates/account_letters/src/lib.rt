// The five blocking letters: which of them a byte sets, and how a report shows one.
#![tactic(auto, unfolding(rules::specs::Letters::ascii, rules::specs::Letters::has, rules::specs::Letters::weight, crate::specs::View::to_letter))]

ghost use Rattle.std.specs.Prelude.{◌≡◌};
ghost use Rattle.rules.specs.Letters as Letters;
ghost use Rattle.account_letters.specs.View.{to_letter};

// Each by its bit, 0 to 4. A byte is only asked for one letter and kept whole, so a set of flags would add a type and take no line away.
#[derive(Clone, Copy)]
pub enum Letter {
    A = 1,
    B = 2,
    N = 4,
    S = 8,
    R = 16,
}

pub fn has(letters: u8, letter: Letter) -> bool
    ensures { result ≡ Letters.has (to_letter letter) letters }
{
    letters / letter as u8 % 2 == 1
}

pub fn ascii(letter: Letter) -> u8
    ensures { result ≡ Letters.ascii (to_letter letter) }
{
    match letter {
        Letter::A => b'A',
        Letter::B => b'B',
        Letter::N => b'N',
        Letter::S => b'S',
        Letter::R => b'R',
    }
}
