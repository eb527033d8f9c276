// The checks of a payment in their order: those that look at no account, then those of the parties and their banks.
#![tactic(auto)]

ghost use Rattle.std.specs.Prelude.{◌≡◌, is_some, IfOk, OnOk, Some, T};
ghost use Rattle.amount.specs.Amount.{is_amount};
ghost use Rattle.rules.specs.Invariant.{Sized};
ghost use Rattle.rules.specs.Machine.{first_failure};
ghost use Rattle.rules.specs.Payment as Payment;
ghost use Rattle.refusal.specs.Answer.{answer_of};
ghost use Rattle.account.specs.View.{to_account, to_turnover};
ghost use Rattle.payment_checks.specs.Checks.{early_checks, party_checks};

use account::{Account, Party, Turnover};
use account_booking::Side;
use account_state::{covers, has_room, under_cap};
use amount::{Amount, is_amount};
use command::Transfer;
use payment_letters::sides_pass;
use refusal::{Refusal, check};
use rules::{is_code, is_way};

// The first four, which look at no account, of a payment whose parties were found or not: handed on is what was found of them.
#[tactic(auto, using(octets::proofs::Numbers::fits_money), unfolding(crate::specs::Checks::early_checks, rules::specs::Machine::first_failure, rules::specs::Command::well_formed))]
pub fn early<X: Copy>(p: Transfer, found: Option<X>) -> Result<X, Refusal>
    ensures says { answer_of result ≡ first_failure (early_checks p.way p.sender p.receiver p.amount (is_some found)) }
    ensures parties { IfOk result (λ f. found ≡ Some f) }
    ensures amount { OnOk result (T (is_amount p.amount)) }
{
    let formed = is_way(p.way) & is_code(p.sender) & is_code(p.receiver);
    check(formed, Refusal::IllFormed)?;
    let parties = found.ok_or(Refusal::Unknown)?;
    check(p.sender != p.receiver, Refusal::ToItself)?;
    check(is_amount(p.amount), Refusal::OutOfRange)?;
    Ok(parties)
}

// Room at one side: on the party's account and on its bank's.
#[tactic(auto, unfolding(rules::specs::Payment::side_has_room))]
fn side_room(party: Party<Account>, turnover: Turnover, n: Amount) -> bool
    requires { (Sized (to_account party.account)) × (Sized (to_account party.bank)) }
    ensures { result ≡ Payment.side_has_room (to_turnover turnover) n (to_account party.account) (to_account party.bank) }
{
    has_room(party.bank, turnover, n) & has_room(party.account, turnover, n)
}

// The others. Where both parties have one bank, it loses nothing, and its limits are not asked. The two limit tests stand twice, for the bank and for the branch: as
// one function they cost 6 % more instructions a payment.
#[tactic(auto, unfolding(crate::specs::Checks::party_checks, rules::specs::Machine::first_failure, account::specs::View::to_account))]
pub fn late(
    credit: bool,
    n: Amount,
    payer: Party<Account>,
    payee: Party<Account>,
) -> Result<(), Refusal>
    requires { (Sized (to_account payer.account)) × (Sized (to_account payer.bank)) × (Sized (to_account payee.account)) × (Sized (to_account payee.bank)) }
    ensures { answer_of result ≡ first_failure (party_checks credit n (to_account payer.account) (to_account payer.bank) (to_account payee.account) (to_account payee.bank)) }
{
    check(sides_pass(credit, payer, payee), Refusal::Blocked)?;
    let inside = payer.bank.code == payee.bank.code;
    check(inside | covers(payer.bank, n), Refusal::BankLtk)?;
    check(
        inside | (!credit | under_cap(payer.bank, n)),
        Refusal::BankLpo,
    )?;
    let bank = payer.account.is_bank();
    check(bank | covers(payer.account, n), Refusal::BranchLtk)?;
    check(
        bank | (!credit | under_cap(payer.account, n)),
        Refusal::BranchLpo,
    )?;
    let out = side_room(payer, Side::Payer.turnover(credit), n);
    let into = side_room(payee, Side::Payee.turnover(credit), n);
    check(out & into, Refusal::NoRoom)
}
