// Kind 05: a bank's limits changed. A refusal leaves the very same table.
#![tactic(auto)]

ghost use Rattle.std.specs.Prelude.{◌≡◌, ◌&&◌};
ghost use Rattle.std.specs.Int.Signed.{non_neg};
ghost use Rattle.amount.specs.Amount.{is_limit};
ghost use Rattle.rules.specs.Command.{BankLimits};
ghost use Rattle.table.specs.Promise.{Calls};

use account::Limit;
use amount::is_limit;
use bank_checks::bank_place;
use refusal::Refusal;
use table::Table;

// Whether a bank's limits are in range.
fn in_range(ltk: i64, lpo: i64) -> bool
    ensures { result ≡ (non_neg ltk && is_limit ltk && is_limit lpo) }
{
    0 <= ltk && is_limit(ltk) && is_limit(lpo)
}

// A change of a bank's limits.
pub fn bank_limits(t: &mut Table, code: u32, ltk: i64, lpo: i64) -> Result<(), Refusal>
    ensures { Calls (BankLimits code ltk lpo) t.old result t.new }
{
    let place = bank_place(t, code, in_range(ltk, lpo), Refusal::OutOfRange)?;
    t.accounts[place] = t.accounts[place].with_limits(Limit::Value(ltk), Limit::Value(lpo));
    Ok(())
}
