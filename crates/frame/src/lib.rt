// Whether bytes are a frame.
#![tactic(auto)]

ghost use Rattle.std.specs.Prelude.{◌≡◌, cond, length, Some, None};
ghost use Rattle.frame.specs.Frame.{is_frame};

use frame_fields::{at, conditions_at, is_code_at, rows_at, second_at};
use rules::{is_letters, is_method, is_way};

// Byte 0 is the kind. It chooses the fields behind it and, with them, the length. The cases are decimal: kind 13 is 19.
// The match on the byte, by cases and ranges, is a form that the project's scope names.
pub fn well_formed(b: &[u8]) -> bool
    ensures { result ≡ is_frame b.now }
{
    let n = b.len();
    let kind = at(b, 0);
    match kind {
        1 | 19 => is_code_at(b, 1) & (n == 7),
        2 => {
            is_code_at(b, 1)
                & (is_code_at(b, 7) & (is_method(at(b, 13)) & (is_method(at(b, 14)) & (n == 15))))
        }
        3..=4 => is_code_at(b, 1) & (n == 15),
        5 => is_code_at(b, 1) & (n == 23),
        6 => is_way(at(b, 1)) & (is_code_at(b, 2) & (is_code_at(b, 8) & (n == 22))),
        7 => is_code_at(b, 1) & (second_at(b, 43) & rows_at(b, 19)),
        8 => is_code_at(b, 1) & (second_at(b, 43) & (n == 58)),
        9 => is_code_at(b, 1) & (second_at(b, 43) & rows_at(b, 10)),
        10 => n == 5,
        11 => is_code_at(b, 1) & (second_at(b, 43) & conditions_at(b)),
        12 => is_code_at(b, 1) & (is_letters(at(b, 7)) & (n == 8)),
        _ => false,
    }
}

// How many bytes the frame has that b is, where it is one.
pub fn frame_length(b: &[u8]) -> Option<usize>
    ensures { result ≡ cond (is_frame b.now) (Some (length b.now)) None }
{
    well_formed(b).then_some(b.len())
}
