// Where the parties of a payment stand, and their banks: among codes, each by itself, and in a table.
#![tactic(auto)]

ghost use Rattle.std.specs.Prelude.{◌≡◌, ◌≤◌, ◌&&◌, false, Some, MatchOption};
ghost use Rattle.rules.specs.Account.{known};
ghost use Rattle.rules.specs.Payment as Payment;
ghost use Rattle.table.specs.Promise.{Among};
ghost use Rattle.table.specs.View.{accounts_of};
ghost use Rattle.payment_parties.specs.Finding.{PartiesAt};

use account::{Account, Party};
use command::Transfer;
use table::{Table, place};

// By their places, or the accounts themselves.
#[derive(Clone, Copy)]
pub struct Parties<T> {
    pub payer: Party<T>,
    pub payee: Party<T>,
}

// The place of each; none where its code is not there.
#[derive(Clone, Copy)]
pub struct Found {
    pub payer: Option<usize>,
    pub payee: Option<usize>,
}

// Among the first n codes, each by itself: whether one is there says nothing of the other. A way for each, so that a caller who needs both looks for no payee where
// the payer is missing: as two look-ups one after the other, 20,000 payments take 0.9 % more instructions, and those of an unknown payer 14 %.
pub fn find_parties(codes: &[u32; 64], n: usize, p: Transfer) -> Found
    requires { n ≤ 64 }
    ensures payer { Among (Payment.payer (Payment.is_credit p.way) p.sender p.receiver) n codes.now result.payer }
    ensures payee { Among (Payment.payee (Payment.is_credit p.way) p.sender p.receiver) n codes.now result.payee }
{
    let payee = p.payee();
    match place(codes, n, p.payer()) {
        None => Found {
            payer: None,
            payee: place(codes, n, payee),
        },
        payer => Found {
            payer,
            payee: place(codes, n, payee),
        },
    }
}

// The place of the bank of the party at place i with the account x: of a bank i itself, of a branch that of its owner's code among the first n.
pub fn bank_slot(codes: &[u32; 64], n: usize, i: usize, x: Account) -> Option<usize>
    requires { n ≤ 64 }
    ensures { MatchOption x.owner (result ≡ Some i) (λ b. Among b n codes.now result) }
{
    match x.owner {
        None => Some(i),
        Some(bank) => place(codes, n, bank),
    }
}

// None where one of the two is not in the table.
pub fn parties_of(t: &Table, p: Transfer) -> Option<Parties<usize>>
    ensures { MatchOption result ((known p.sender (accounts_of t.now) && known p.receiver (accounts_of t.now)) ≡ false) (PartiesAt t.now p) }
{
    let found = find_parties(&t.codes, t.count, p);
    let payer = found.payer?;
    let payee = found.payee?;
    Some(Parties {
        payer: Party {
            account: payer,
            bank: bank_slot(&t.codes, t.count, payer, t.accounts[payer])?,
        },
        payee: Party {
            account: payee,
            bank: bank_slot(&t.codes, t.count, payee, t.accounts[payee])?,
        },
    })
}
