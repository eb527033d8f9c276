// What the report of a query says of one limit.
#![tactic(auto)]

ghost use Rattle.std.specs.Prelude.{◌≡◌, ◌≤◌, ◌<◌, ◌^◌, nat_abs, T};
ghost use Rattle.octet_writer.specs.Written.{HasRoom, Moved, Wrote};
ghost use Rattle.rules.specs.Account as Rule;
ghost use Rattle.rules.specs.Report as Report;
ghost use Rattle.rules.specs.Invariant.{limit_ok};
ghost use Rattle.account.specs.View.{to_limit};
ghost use Rattle.report_limit.specs.Statuses.{to_status};

use account::Limit;
use amount::percent;
use octet_writer::Writer;

// What is said of one limit.
#[derive(Clone, Copy)]
pub enum Status {
    Closed,
    // Not in use.
    Idle(i64),
    // In use: value, used, left, and the share that is used, in hundredths of a percent.
    Busy(i64, i64, i64, u16),
}

// ---- bytes

// The report's own bytes: whether a limit is closed, and whether it is in use.
const OPEN: u8 = 0;

const CLOSED: u8 = 1;

const IN_USE: u8 = 1;

// What is not in use says nothing more.
pub fn put_status(w: &mut Writer, l: Status)
    requires { HasRoom 28 w.old }
    ensures moved { Moved 28 w.old w.new }
    ensures wrote { Wrote (Report.status_bytes (to_status l)) w.old w.new }
{
    match l {
        Status::Closed => {
            w.put(CLOSED);
            w.put_all(&[0; 27]);
        }
        Status::Idle(value) => {
            w.put(OPEN);
            w.put(value);
            w.put_all(&[0; 19]);
        }
        Status::Busy(value, used, left, share) => {
            w.put(OPEN);
            w.put(value);
            w.put(IN_USE);
            w.put(used);
            w.put(left);
            w.put(share);
        }
    }
}

// ---- statuses

// Of a limit in use, of which no more is used than there is.
fn busy_status(v: i64, used: i64, left: i64) -> Status
    requires { (nat_abs used ≤ nat_abs v) × (nat_abs v ≤ 10 ^ 15) × (0 < nat_abs v) }
    ensures { to_status result ≡ Report.busy_status v used left }
{
    Status::Busy(v, used, left, percent(used, v) as u16)
}

fn ltk_value(v: i64, s: i64) -> Status
    requires { (nat_abs v ≤ 10 ^ 15) × (nat_abs s ≤ 10 ^ 18) }
    ensures { to_status result ≡ Report.ltk_status (Rule.Value v) s }
{
    if v < 0 {
        busy_status(v, s.clamp(v, 0), (s - v).max(0))
    } else {
        Status::Idle(v)
    }
}

// LTK at a state. Beside `lpo_status`, and no function of both: each limit has a rule of its own.
pub fn ltk_status(l: Limit, s: i64) -> Status
    requires { (T (limit_ok (to_limit l))) × (nat_abs s ≤ 10 ^ 18) }
    ensures { to_status result ≡ Report.ltk_status (to_limit l) s }
{
    match l {
        Limit::Value(v) => ltk_value(v, s),
        Limit::Closed => Status::Closed,
    }
}

fn lpo_value(v: i64, n: u64) -> Status
    requires { nat_abs v ≤ 10 ^ 15 }
    ensures { to_status result ≡ Report.lpo_status (Rule.Value v) n }
{
    if 0 < v {
        let used = n.min(v.unsigned_abs()) as i64;
        busy_status(v, used, v - used)
    } else {
        Status::Idle(v)
    }
}

// LPO at an ICDT.
pub fn lpo_status(l: Limit, n: u64) -> Status
    requires { T (limit_ok (to_limit l)) }
    ensures { to_status result ≡ Report.lpo_status (to_limit l) n }
{
    match l {
        Limit::Value(v) => lpo_value(v, n),
        Limit::Closed => Status::Closed,
    }
}
