// Kinds 03 and 04: a bank's start value raised and lowered. A refusal leaves the very same table.
#![tactic(auto, using(octets::proofs::Numbers::fits_money, rules::proofs::Checks::refused_keeps), unfolding(bank_checks::specs::Parts::bank_call_checks, rules::specs::Machine::first_failure, rules::specs::Machine::checks, rules::specs::Machine::answer, rules::specs::Command::well_formed, table::specs::Promise::call, table::specs::View::machine_of))]

ghost use Rattle.rules.specs.Command.{Funding, Withdrawal};
ghost use Rattle.table.specs.Promise.{Calls};

use account_booking::{start_down, start_up};
use account_state::{covers, total_fits};
use amount::{amount_of, is_amount};
use bank_checks::bank_place;
use refusal::{Refusal, check};
use table::Table;

// A funding.
pub fn fund(t: &mut Table, code: u32, amount: i64) -> Result<(), Refusal>
    ensures { Calls (Funding code amount) t.old result t.new }
{
    let place = bank_place(t, code, is_amount(amount), Refusal::OutOfRange)?;
    let n = amount_of(amount);
    check(total_fits(t.total(), n), Refusal::NoRoom)?;
    t.accounts[place] = start_up(t.accounts[place], n);
    Ok(())
}

// A withdrawal. Beside `fund`: what is tested and what is stored differ, and one function for both would take two closures with contracts.
pub fn withdraw(t: &mut Table, code: u32, amount: i64) -> Result<(), Refusal>
    ensures { Calls (Withdrawal code amount) t.old result t.new }
{
    let place = bank_place(t, code, is_amount(amount), Refusal::OutOfRange)?;
    let n = amount_of(amount);
    check(covers(t.accounts[place], n), Refusal::BankLtk)?;
    t.accounts[place] = start_down(t.accounts[place], n);
    Ok(())
}
