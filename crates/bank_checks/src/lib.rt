// The checks that a call on a bank's account begins with.
#![tactic(auto)]

ghost use Rattle.std.specs.Prelude.{◌≡◌, ◌<◌, is_some, IfOk};
ghost use Rattle.rules.specs.Account.{is_bank, known, at};
ghost use Rattle.rules.specs.Command.{is_code};
ghost use Rattle.rules.specs.Machine.{first_failure};
ghost use Rattle.refusal.specs.Answer.{number, answer_of};
ghost use Rattle.table.specs.Promise.{FoundAt};
ghost use Rattle.table.specs.View.{accounts_of};
ghost use Rattle.bank_checks.specs.Parts.{bank_call_checks, is_bank_there};

use account::Account;
use refusal::{Refusal, check};
use rules::is_code;
use table::Table;

// The first checks of 03, 04 and 05, whose fourth is 6, and all those of 13, whose fourth is 26; of whatever account was found, none where the code is not known.
#[tactic(auto, unfolding(crate::specs::Parts::bank_call_checks, rules::specs::Machine::first_failure))]
pub fn bank_checks(
    code: u32,
    found: Option<Account>,
    more: bool,
    refusal: Refusal,
) -> Result<(), Refusal>
    ensures { answer_of result ≡ first_failure (bank_call_checks (is_code code) (is_some found) (is_bank_there found) (number refusal) more) }
{
    check(is_code(code), Refusal::IllFormed)?;
    let x = found.ok_or(Refusal::Unknown)?;
    check(x.is_bank(), Refusal::NoBank)?;
    check(more, refusal)
}

// The same of a table's account, and its place: where they pass, there is one.
#[tactic(auto, unfolding(crate::specs::Parts::bank_call_checks, rules::specs::Machine::first_failure))]
pub fn bank_place(t: &Table, code: u32, more: bool, refusal: Refusal) -> Result<usize, Refusal>
    ensures says { answer_of result ≡ first_failure (bank_call_checks (is_code code) (known code (accounts_of t.now)) (is_bank (at code (accounts_of t.now))) (number refusal) more) }
    ensures place { IfOk result (FoundAt t.now code) }
{
    let place = t.find(code);
    bank_checks(code, place.map(|i| t.accounts[i]), more, refusal)?;
    place.ok_or(Refusal::Unknown)
}
