// What is booked on one account: turnovers, and the start value.
#![tactic(auto, unfolding(rules::specs::Account::with_start, rules::specs::Payment::out_turnover, rules::specs::Payment::in_turnover, account::specs::View::to_account, account::specs::View::to_turnover))]

ghost use Rattle.std.specs.Prelude.{◌≡◌, ◌+◌, ◌<◌, ◌^◌, pos, ◌+ℤ◌, ◌-ℤ◌};
ghost use Rattle.rules.specs.Account as Rule;
ghost use Rattle.rules.specs.Payment as Payment;
ghost use Rattle.rules.specs.Invariant.{Sized};
ghost use Rattle.account.specs.View.{to_account, to_turnover};
ghost use Rattle.account_booking.specs.Side.{side_turnover};

use account::{Account, Turnover};
use amount::Amount;

// Whose turnover a payment raises.
#[derive(Clone, Copy)]
pub enum Side {
    Payer,
    Payee,
}

impl Side {
    // Of a credit, or of a debit.
    pub fn turnover(self, credit: bool) -> Turnover
        ensures { to_turnover result ≡ side_turnover self credit }
    {
        match (self, credit) {
            (Side::Payer, true) => Turnover::Icdt,
            (Side::Payer, false) => Turnover::Rddt,
            (Side::Payee, true) => Turnover::Rcdt,
            (Side::Payee, false) => Turnover::Iddt,
        }
    }
}

// Whether there is room up to 10^17 is tested before, and not asked here. The turnover is read where it is stored, by its place: the method would look it up twice.
pub fn raised(mut x: Account, turnover: Turnover, n: u64) -> Account
    requires { Rule.turnover (to_turnover turnover) (to_account x).turnovers + n < 2 ^ 64 }
    ensures { to_account result ≡ Payment.raised (to_turnover turnover) n (to_account x) }
{
    x.turnovers[turnover.place()] += n;
    x
}

pub fn with_start(x: Account, start: i64) -> Account
    ensures { to_account result ≡ Rule.with_start start (to_account x) }
{
    Account { start, ..x }
}

// A funding.
pub fn start_up(x: Account, n: Amount) -> Account
    requires { Sized (to_account x) }
    ensures { to_account result ≡ Rule.with_start ((to_account x).start +ℤ pos n) (to_account x) }
{
    with_start(x, x.start + n.kopiyky as i64)
}

// A withdrawal. Beside `start_up`, and no function of a signed change: each caller has an amount, which is above 0.
pub fn start_down(x: Account, n: Amount) -> Account
    requires { Sized (to_account x) }
    ensures { to_account result ≡ Rule.with_start ((to_account x).start -ℤ pos n) (to_account x) }
{
    with_start(x, x.start - n.kopiyky as i64)
}
