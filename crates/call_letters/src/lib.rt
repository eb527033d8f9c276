// Kinds 0c and 13: an account's letters set anew, and a bank marked. A refusal leaves the very same table.
#![tactic(auto, using(rules::proofs::Checks::refused_keeps), unfolding(bank_checks::specs::Parts::bank_call_checks, rules::specs::Machine::first_failure, rules::specs::Machine::checks, rules::specs::Machine::answer, rules::specs::Command::well_formed, table::specs::Promise::call, table::specs::View::machine_of))]

ghost use Rattle.std.specs.Prelude.{◌≡◌};
ghost use Rattle.rules.specs.Command.{Letters, Mark, some?};
ghost use Rattle.table.specs.View.{accounts_of};
ghost use Rattle.table.specs.Promise.{Calls};

use bank_checks::bank_place;
use refusal::{Refusal, check};
use rules::{is_code, is_letters};
use table::Table;

// Letters.
pub fn set_letters(t: &mut Table, code: u32, letters: u8) -> Result<(), Refusal>
    ensures { Calls (Letters code letters) t.old result t.new }
{
    check(is_code(code) && is_letters(letters), Refusal::IllFormed)?;
    let place = t.find(code).ok_or(Refusal::Unknown)?;
    t.accounts[place] = t.accounts[place].with_letters(letters);
    Ok(())
}

// Whether a bank is marked.
fn has_central(t: &Table) -> bool
    ensures { result ≡ some? (λ x. x.marked) (accounts_of t.now) }
{
    t.accounts[..t.count].iter().any(|x| x.marked)
}

// A mark.
pub fn mark_bank(t: &mut Table, code: u32) -> Result<(), Refusal>
    ensures { Calls (Mark code) t.old result t.new }
{
    let place = bank_place(t, code, !has_central(t), Refusal::MarkTaken)?;
    t.accounts[place] = t.accounts[place].with_mark();
    Ok(())
}
