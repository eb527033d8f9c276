// Kind 0a on the table: every account's new day. A refusal leaves the very same table.
#![tactic(auto)]

ghost use Rattle.std.specs.Prelude.{◌≡◌, map};
ghost use Rattle.rules.specs.Command.{Opening};
ghost use Rattle.rules.specs.Day.{new_day};
ghost use Rattle.rules.specs.Invariant.{All};
ghost use Rattle.account.specs.View.{to_account};
ghost use Rattle.table.specs.Promise.{Calls};
ghost use Rattle.table_day.specs.Ready.{Ready};

use account::Account;
use account_morning::new_day;
use refusal::{Refusal, check};
use table::Table;

// The new day of each account.
fn renew(accounts: &mut [Account])
    requires { All Ready (map to_account accounts.old) }
    ensures { map to_account accounts.new ≡ map new_day (map to_account accounts.old) }
{
    for x in accounts {
        *x = new_day(*x);
    }
}

// The table's part of an opening: its machine has an empty book.
pub fn open_day(t: &mut Table, day: u32) -> Result<(), Refusal>
    ensures { Calls (Opening day) t.old result t.new }
{
    check(t.day < day, Refusal::DayNotLater)?;
    let count = t.count;
    renew(&mut t.accounts[..count]);
    t.day = day;
    Ok(())
}
