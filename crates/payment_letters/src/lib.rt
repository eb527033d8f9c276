// Whether the letters of two parties and of their banks allow a payment.
#![tactic(auto)]

ghost use Rattle.std.specs.Prelude.{◌≡◌};
ghost use Rattle.rules.specs.Letters as Letters;
ghost use Rattle.account.specs.View.{to_account};
ghost use Rattle.account_letters.specs.View.{to_letter};
ghost use Rattle.payment_letters.specs.Sides.{sides_pass};

use account::{Account, Party};
use account_letters::{Letter, has};

// On the account of a party or on its bank's.
fn holds(letter: Letter, party: Party<Account>) -> bool
    ensures { result ≡ Letters.holds (to_letter letter) (to_account party.account) (to_account party.bank) }
{
    has(party.account.letters, letter) | has(party.bank.letters, letter)
}

fn may_send(credit: bool, party: Party<Account>) -> bool
    ensures { result ≡ Letters.may_send credit (to_account party.account) (to_account party.bank) }
{
    let blocked_a = holds(Letter::A, party);
    let blocked_r = holds(Letter::R, party);
    let blocked_s = holds(Letter::S, party);
    (!blocked_a & !blocked_r) & (!credit | !blocked_s)
}

fn may_receive(central: bool, party: Party<Account>) -> bool
    ensures { result ≡ Letters.may_receive central (to_account party.account) (to_account party.bank) }
{
    let blocked_b = holds(Letter::B, party);
    let blocked_n = holds(Letter::N, party);
    !blocked_b & (central | !blocked_n)
}

fn letters_pass(credit: bool, sender: Party<Account>, receiver: Party<Account>) -> bool
    ensures { result ≡ Letters.letters_pass credit (to_account sender.account) (to_account sender.bank) (to_account receiver.account) (to_account receiver.bank) }
{
    may_send(credit, sender) & may_receive(sender.bank.marked, receiver)
}

// The same by who pays: in a credit the payer sends to the payee, and in a debit the payee to the payer.
pub fn sides_pass(credit: bool, payer: Party<Account>, payee: Party<Account>) -> bool
    ensures { result ≡ sides_pass credit (to_account payer.account) (to_account payer.bank) (to_account payee.account) (to_account payee.bank) }
{
    if credit {
        letters_pass(true, payer, payee)
    } else {
        letters_pass(false, payee, payer)
    }
}
