// Kinds 01 and 02: an account opened after the others. A refusal leaves the very same table.
#![tactic(auto)]

ghost use Rattle.std.specs.Prelude.{◌≡◌, [], ◌∷◌, ◌++◌, ◌<◌, OnOk};
ghost use Rattle.rules.specs.Command.{Bank, Branch};
ghost use Rattle.rules.specs.Invariant.{Invariant};
ghost use Rattle.rules.specs.Machine.{with_accounts};
ghost use Rattle.rules.specs.Machine as Machine;
ghost use Rattle.refusal.specs.Answer.{answer_of};
ghost use Rattle.account.specs.View.{to_account};
ghost use Rattle.table.specs.View.{accounts_of, machine_of};
ghost use Rattle.table.specs.Promise.{Good, Calls, Holds, call};

use account::Account;
use refusal::{Refusal, check};
use rules::{is_code, is_method};
use table::Table;

// An account after the last: one with which the table is still one of the rules'.
fn join(t: &mut Table, x: Account)
    requires { (t.old.count < 64) × (Good t.old → Invariant (with_accounts (accounts_of t.old ++ (to_account x ∷ [])) (machine_of t.old))) }
    ensures { Holds t.old t.new (accounts_of t.old ++ (to_account x ∷ [])) }
{
    let n = t.count;
    t.codes[n] = x.code;
    t.accounts[n] = x;
    t.count = n + 1;
}

// The checks of kind 01.
#[tactic(auto, unfolding(rules::specs::Machine::first_failure, rules::specs::Machine::checks, rules::specs::Machine::answer, rules::specs::Command::well_formed, table::specs::Promise::call, table::specs::View::machine_of))]
fn bank_checks(t: &Table, code: u32) -> Result<(), Refusal>
    ensures says { answer_of result ≡ Machine.answer (machine_of t.now) (call (Bank code)) }
    ensures room { OnOk result (t.now.count < 64) }
{
    check(is_code(code), Refusal::IllFormed)?;
    check(t.find(code).is_none(), Refusal::CodeTaken)?;
    check(t.has_place(), Refusal::TableFull)
}

#[tactic(auto, using(table::proofs::Called::declined, crate::proofs::Joins::joined), unfolding(rules::specs::Machine::effect, table::specs::View::machine_of, account::specs::View::to_owner))]
pub fn bank_open(t: &mut Table, code: u32) -> Result<(), Refusal>
    ensures { Calls (Bank code) t.old result t.new }
{
    bank_checks(t, code)?;
    join(t, Account::opened(code, None, 0, 0));
    Ok(())
}

// The checks of kind 02.
#[tactic(auto, unfolding(rules::specs::Machine::first_failure, rules::specs::Machine::checks, rules::specs::Machine::answer, rules::specs::Command::well_formed, table::specs::Promise::call, table::specs::View::machine_of))]
fn branch_checks(
    t: &Table,
    code: u32,
    owner: u32,
    ltk_method: u8,
    lpo_method: u8,
) -> Result<(), Refusal>
    ensures says { answer_of result ≡ Machine.answer (machine_of t.now) (call (Branch code owner ltk_method lpo_method)) }
    ensures room { OnOk result (t.now.count < 64) }
{
    let formed = is_code(code) & is_code(owner) & is_method(ltk_method) & is_method(lpo_method);
    check(formed, Refusal::IllFormed)?;
    check(t.find(code).is_none(), Refusal::CodeTaken)?;
    let bank = t.find(owner).ok_or(Refusal::Unknown)?;
    check(t.accounts[bank].is_bank(), Refusal::NoBank)?;
    check(t.has_place(), Refusal::TableFull)
}

#[tactic(auto, using(table::proofs::Called::declined, crate::proofs::Joins::joined), unfolding(rules::specs::Machine::effect, table::specs::View::machine_of, account::specs::View::to_owner))]
pub fn branch_open(
    t: &mut Table,
    code: u32,
    owner: u32,
    ltk_method: u8,
    lpo_method: u8,
) -> Result<(), Refusal>
    ensures { Calls (Branch code owner ltk_method lpo_method) t.old result t.new }
{
    branch_checks(t, code, owner, ltk_method, lpo_method)?;
    join(
        t,
        Account::opened(code, Some(owner), ltk_method, lpo_method),
    );
    Ok(())
}
