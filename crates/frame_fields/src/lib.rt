// The tests of a frame's fields, each at its place. A byte past the end reads as 0.
#![tactic(auto)]

ghost use Rattle.std.specs.Prelude.{◌≡◌, cond, ◌&&◌, ◌+◌, ◌*◌, ◌≤◌, ◌<◌, length, drop, get_or, leb, eqb, Some, None};
ghost use Rattle.rules.specs.Command.{is_count, is_few};
ghost use Rattle.rules.specs.Message.{is_digit};
ghost use Rattle.frame_fields.specs.Conditions.{conditions_width, are_conditions};
ghost use Rattle.frame_fields.specs.Place.{six_digits, word_at};

use digits::is_digit;
use rules::{is_count, is_form, is_second};

// The byte at i, and 0 past the end.
pub fn at(b: &[u8], i: usize) -> u8
    ensures { result ≡ get_or b.now i 0 }
{
    b.get(i).copied().unwrap_or(0)
}

// Six digits from i on. Here and below i < 400 is asked so that i + 6 does not pass the largest usize: each place that is asked for is a small constant.
#[tactic(auto, unfolding(crate::specs::Place::six_digits))]
pub fn is_code_at(b: &[u8], i: usize) -> bool
    requires { i < 400 }
    ensures { result ≡ six_digits b.now i }
{
    (i..i + 6).all(|k| is_digit(at(b, k)))
}

// Four bytes from i on, the high byte first.
#[tactic(auto, unfolding(crate::specs::Place::word_at))]
fn word_at(b: &[u8], i: usize) -> u32
    requires { i < 400 }
    ensures { result ≡ word_at b.now i }
{
    u32::from_be_bytes([at(b, i), at(b, i + 1), at(b, i + 2), at(b, i + 3)])
}

// Four bytes from i on that are the second of a day.
pub fn second_at(b: &[u8], i: usize) -> bool
    requires { i < 400 }
    ensures { result ≡ leb (word_at b.now i) 86399 }
{
    is_second(word_at(b, i))
}

// Behind the header a count, and as many rows of `size` bytes, up to the end.
#[tactic(auto, unfolding(rules::specs::Command::is_count))]
pub fn rows_at(b: &[u8], size: usize) -> bool
    requires { size < 20 }
    ensures { result ≡ (is_count (get_or b.now 47 0) && eqb (length b.now) (47 + (1 + get_or b.now 47 0 * size))) }
{
    let k = usize::from(at(b, 47));
    is_count::<16>(k) & (b.len() == 47 + (1 + k * size))
}

// The place behind n conditions that begin at a place; none where one of them is ill-formed. The loop counts them, since a condition has no width that is known before.
pub fn conditions_end(b: &[u8], from: usize, n: usize) -> Option<usize>
    requires { (from ≤ 48) × (n ≤ 8) }
    ensures { result ≡ cond (are_conditions n (drop from b.now)) (Some (from + conditions_width n (drop from b.now))) None }
{
    let mut place = from;
    for _ in 0..n {
        let k = usize::from(at(b, place + 1));
        if !is_form(at(b, place), k) {
            return None;
        }
        place = place + 2 + k;
    }
    Some(place)
}

// Behind the header a count, and as many conditions, up to the end.
#[tactic(auto, unfolding(rules::specs::Command::is_few))]
pub fn conditions_at(b: &[u8]) -> bool
    ensures { result ≡ ((is_few (get_or b.now 47 0) && are_conditions (get_or b.now 47 0) (drop 48 b.now)) && eqb (length b.now) (47 + (1 + conditions_width (get_or b.now 47 0) (drop 48 b.now)))) }
{
    let k = usize::from(at(b, 47));
    is_count::<8>(k) && conditions_end(b, 48, k) == Some(b.len())
}
