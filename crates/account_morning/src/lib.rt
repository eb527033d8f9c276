// The new day of one account: its limits by their morning methods, the day balance into the start value, the turnovers 0.
#![tactic(auto)]

ghost use Rattle.std.specs.Prelude.{◌≡◌, ◌*◌, ◌≤◌, ◌^◌, nat_abs, ◌+ℤ◌, T};
ghost use Rattle.rules.specs.Account as Rule;
ghost use Rattle.rules.specs.Day as Day;
ghost use Rattle.rules.specs.Invariant.{Sized, limit_ok};
ghost use Rattle.account.specs.View.{to_account, to_limit};

use account::{Account, Limit, Turnover};
use account_booking::with_start;
use amount::{balance, cut, state};

fn morning_value(method: u8, less: i64, v: i64) -> Limit
    requires { (nat_abs less ≤ 2 * 10 ^ 17) × (nat_abs v ≤ 10 ^ 15) }
    ensures { to_limit result ≡ Day.morning method less (Rule.Value v) }
{
    match method {
        0 => Limit::Value(v),
        1 => Limit::Value(0),
        2 => Limit::Closed,
        _ => Limit::Value(cut(v - less)),
    }
}

// A limit by its morning method; an adjusting one takes off `less`.
#[tactic(auto, using(account::proofs::Laws::limit_small), unfolding(rules::specs::Day::morning, account::specs::View::to_limit))]
fn morning(method: u8, less: i64, limit: Limit) -> Limit
    requires { (nat_abs less ≤ 2 * 10 ^ 17) × (T (limit_ok (to_limit limit))) }
    ensures { to_limit result ≡ Day.morning method less (to_limit limit) }
{
    match limit {
        Limit::Value(v) => morning_value(method, less, v),
        Limit::Closed => limit,
    }
}

#[tactic(auto, using(account::proofs::Laws::turnover_small))]
fn morning_limits(x: Account) -> Account
    requires { (Sized (to_account x)) × (T (limit_ok (to_account x).ltk)) × (T (limit_ok (to_account x).lpo)) }
    ensures { to_account result ≡ Day.morning_limits (to_account x) }
{
    let ltk = morning(x.ltk_method, balance(x.turnovers), x.ltk);
    let lpo = morning(x.lpo_method, x.turnover(Turnover::Icdt) as i64, x.lpo);
    x.with_limits(ltk, lpo)
}

// The day balance put into the start value.
fn carried(x: Account) -> Account
    requires { Sized (to_account x) }
    ensures { to_account result ≡ Rule.with_start ((to_account x).start +ℤ Rule.balance (to_account x).turnovers) (to_account x) }
{
    with_start(x, state(x.start, x.turnovers))
}

fn fresh_turnovers(x: Account) -> Account
    ensures { to_account result ≡ Rule.with_turnovers Rule.no_turnovers (to_account x) }
{
    Account {
        turnovers: [0; 4],
        ..x
    }
}

pub fn new_day(x: Account) -> Account
    requires { (Sized (to_account x)) × (T (limit_ok (to_account x).ltk)) × (T (limit_ok (to_account x).lpo)) }
    ensures { to_account result ≡ Day.new_day (to_account x) }
{
    match x.owner {
        None => fresh_turnovers(carried(x)),
        Some(_) => fresh_turnovers(morning_limits(x)),
    }
}
