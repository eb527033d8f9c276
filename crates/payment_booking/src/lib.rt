// What a payment books on one account: of a party's bank all of it, of the party itself its share.
#![tactic(auto)]

ghost use Rattle.std.specs.Prelude.{◌≡◌, ◌+◌, ◌<◌, ◌^◌, nat_abs, T};
ghost use Rattle.amount.specs.Amount.{is_amount};
ghost use Rattle.rules.specs.Account as Rule;
ghost use Rattle.rules.specs.Payment as Payment;
ghost use Rattle.account.specs.View.{to_account};
ghost use Rattle.account_booking.specs.Side.{side_turnover};
ghost use Rattle.payment_booking.specs.Share.{share};

use account::Account;
use account_booking::{Side, raised};
use amount::{Amount, amount_of};
use command::Transfer;

// The account of the bank of the party at one side.
pub fn bank_booked(x: Account, side: Side, p: Transfer) -> Account
    requires { (T (is_amount p.amount)) × (Rule.turnover (side_turnover side (Payment.is_credit p.way)) (to_account x).turnovers + nat_abs p.amount < 2 ^ 64) }
    ensures { to_account result ≡ Payment.raised (side_turnover side (Payment.is_credit p.way)) (nat_abs p.amount) (to_account x) }
{
    let n = amount_of(p.amount);
    raised(x, side.turnover(p.is_credit()), n.kopiyky)
}

// What a payment of n adds to a party's own account once its bank's has its part: nothing to a bank.
fn own_share(x: Account, n: Amount) -> u64
    ensures { result ≡ share (to_account x) n }
{
    if x.is_bank() { 0 } else { n.kopiyky }
}

// The party's own account with its share.
#[tactic(auto, using(crate::proofs::Laws::share_most))]
pub fn own_booked(x: Account, side: Side, p: Transfer) -> Account
    requires { (T (is_amount p.amount)) × (Rule.turnover (side_turnover side (Payment.is_credit p.way)) (to_account x).turnovers + nat_abs p.amount < 2 ^ 64) }
    ensures { to_account result ≡ Payment.raised (side_turnover side (Payment.is_credit p.way)) (share (to_account x) (nat_abs p.amount)) (to_account x) }
{
    raised(
        x,
        side.turnover(p.is_credit()),
        own_share(x, amount_of(p.amount)),
    )
}
