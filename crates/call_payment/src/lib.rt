// A payment as a whole call: all its checks in order, and what is booked at both sides. A refusal leaves the very same table.
#![tactic(auto)]

ghost use Rattle.std.specs.Prelude.{◌≡◌, Bool, false, true, List, ℕ, ◌++◌, nat_abs, IfOk, IfSome, MatchOption, OnOk, T};
ghost use Rattle.amount.specs.Amount.{is_amount};
ghost use Rattle.rules.specs.Command.{Payment};
ghost use Rattle.rules.specs.Invariant.{Sized};
ghost use Rattle.rules.specs.Machine.{answer, first_failure};
ghost use Rattle.rules.specs.Payment as Rule;
ghost use Rattle.refusal.specs.Answer.{answer_of};
ghost use Rattle.account.specs.View.{to_account};
ghost use Rattle.table.specs.Promise.{Called, Calls, call};
ghost use Rattle.table.specs.View.{machine_of};
ghost use Rattle.payment_checks.specs.Checks.{early_checks, party_checks};
ghost use Rattle.payment_parties.specs.Finding.{PartiesAt};

use account::{Account, Party};
use account_booking::Side;
use amount::amount_of;
use command::Transfer;
use payment_booking::{bank_booked, own_booked};
use payment_checks::{early, late};
use payment_parties::{Parties, parties_of};
use refusal::Refusal;
use table::Table;

// All the checks in order: of parties that were found, by any four accounts, theirs and their banks'; where they were not, no check of an account is asked.
pub fn decide(p: Transfer, found: Option<Parties<Account>>) -> Result<(), Refusal>
    requires { IfSome found (λ f. (Sized (to_account f.payer.account)) × (Sized (to_account f.payer.bank)) × (Sized (to_account f.payee.account)) × (Sized (to_account f.payee.bank))) }
    ensures says { MatchOption
        found
        ((others : List (ℕ × Bool)) → answer_of result ≡ first_failure (early_checks p.way p.sender p.receiver p.amount false ++ others))
        (λ f. answer_of result ≡ first_failure (early_checks p.way p.sender p.receiver p.amount true ++ party_checks (Rule.is_credit p.way) (nat_abs p.amount) (to_account f.payer.account) (to_account f.payer.bank) (to_account f.payee.account) (to_account f.payee.bank))) }
    ensures amount { OnOk result (T (is_amount p.amount)) }
{
    let both = early(p, found)?;
    late(p.is_credit(), amount_of(p.amount), both.payer, both.payee)
}

// All the checks on a table, and where the parties stand: their accounts are looked at only where both are known.
pub fn judge(t: &Table, p: Transfer) -> Result<Parties<usize>, Refusal>
    ensures says { answer_of result ≡ answer (machine_of t.now) (call (Payment p.way p.sender p.receiver p.amount)) }
    ensures parties { IfOk result (PartiesAt t.now p) }
    ensures amount { OnOk result (T (is_amount p.amount)) }
{
    match parties_of(t, p) {
        None => early(p, None),
        Some(parties) => {
            let payer = Party {
                account: t.accounts[parties.payer.account],
                bank: t.accounts[parties.payer.bank],
            };
            let payee = Party {
                account: t.accounts[parties.payee.account],
                bank: t.accounts[parties.payee.bank],
            };
            decide(p, Some(Parties { payer, payee }))?;
            Ok(parties)
        }
    }
}

// What passes is booked at both sides. Each account is read again before it is stored: two of the four may be one, as where both parties have one bank.
fn book_parties(t: &mut Table, p: Transfer, parties: Parties<usize>)
    requires parties { PartiesAt t.old p parties }
    requires amount { T (is_amount p.amount) }
    requires passes { answer (machine_of t.old) (call (Payment p.way p.sender p.receiver p.amount)) ≡ 0 }
    ensures { Called (Payment p.way p.sender p.receiver p.amount) t.old (record { answer = 0; table = t.new }) }
{
    let payer = parties.payer;
    let payee = parties.payee;
    t.accounts[payer.bank] = bank_booked(t.accounts[payer.bank], Side::Payer, p);
    t.accounts[payer.account] = own_booked(t.accounts[payer.account], Side::Payer, p);
    t.accounts[payee.bank] = bank_booked(t.accounts[payee.bank], Side::Payee, p);
    t.accounts[payee.account] = own_booked(t.accounts[payee.account], Side::Payee, p);
}

// The checks, and what is booked where they pass.
#[tactic(auto, using(table::proofs::Called::declined))]
pub fn pay(t: &mut Table, p: Transfer) -> Result<(), Refusal>
    ensures { Calls (Payment p.way p.sender p.receiver p.amount) t.old result t.new }
{
    let parties = judge(t, p)?;
    book_parties(t, p, parties);
    Ok(())
}
