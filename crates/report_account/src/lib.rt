// What the report of a query says of one account.
#![tactic(auto)]

ghost use Rattle.std.specs.Prelude.{T};
ghost use Rattle.rules.specs.Report as Report;
ghost use Rattle.rules.specs.Invariant.{Sized, limit_ok};
ghost use Rattle.account.specs.View.{to_account};
ghost use Rattle.octet_writer.specs.Written.{HasRoom, Moved, Wrote};

use account::{Account, Turnover};
use account_state::state_of;
use octet_writer::Writer;
use report_limit::{lpo_status, ltk_status, put_status};

pub fn put_account(w: &mut Writer, x: Account)
    requires { HasRoom 57 w.old × (Sized (to_account x)) × (T (limit_ok (to_account x).ltk)) × (T (limit_ok (to_account x).lpo)) }
    ensures moved { Moved 57 w.old w.new }
    ensures wrote { Wrote (Report.account_block (to_account x)) w.old w.new }
{
    let ltk = ltk_status(x.ltk, state_of(x));
    let lpo = lpo_status(x.lpo, x.turnover(Turnover::Icdt));
    w.put(0u8);
    put_status(w, ltk);
    put_status(w, lpo);
}
