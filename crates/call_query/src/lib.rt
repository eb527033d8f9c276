// The query of limits, kind 09: its checks, its report, and its id in the book. The table stays as it is.
#![tactic(auto)]

ghost use Rattle.std.specs.Prelude.{◌≡◌, [], ◌∷◌, ◌≤◌, ◌<◌, IfOk};
ghost use Rattle.octets.specs.Octets.{part};
ghost use Rattle.rules.specs.Account.{known};
ghost use Rattle.std.specs.List.{list_any};
ghost use Rattle.rules.specs.Command.{Query};
ghost use Rattle.rules.specs.Machine.{answer};
ghost use Rattle.rules.specs.Message as Message;
ghost use Rattle.refusal.specs.Answer.{answer_of};
ghost use Rattle.command.specs.View.{to_header, ids_from};
ghost use Rattle.table.specs.View.{accounts_of};
ghost use Rattle.ledger.specs.View.{ledger_view, lent};
ghost use Rattle.ledger.specs.Promise.{Reports};

use command::{Header, Rows, is_header};
use ledger::Ledger;
use message_fields::named;
use message_inquiry::header_checks;
use refusal::{Refusal, check};
use report_blocks::put_report;
use rules::is_count;
use table::Table;

// ---- the checks

// Whether one of the account ids names an account of the table.
fn any_known(t: &Table, ids: &[[u8; 10]]) -> bool
    ensures { result ≡ list_any (λ i. known (Message.named (part 0 10 i)) (accounts_of t.now)) ids.now }
{
    ids.iter().any(|id| t.find(named(id)).is_some())
}

// The checks of a query with a report buffer of `room` bytes.
fn query_checks(l: &Ledger, header: Header, ids: Rows<[u8; 10]>, room: usize) -> Result<(), Refusal>
    ensures says { answer_of result ≡ answer (ledger_view l.now) (lent room (Query (to_header header) (ids_from 0 ids.count ids.rows))) }
    ensures ready { IfOk result (λ _. (913 ≤ room) × (ids.count ≤ 16) × (l.now.book.used < 1024)) }
{
    let formed = is_header(header) & is_count::<16>(ids.count) & (913 <= room);
    header_checks(l, formed, header)?;
    check(
        any_known(&l.table, &ids.rows[..ids.count]),
        Refusal::NothingFound,
    )?;
    check(!l.book.is_full(), Refusal::BookFull)
}

// ---- the call

// A refused query writes nothing; an accepted one writes its report and puts its id into the book. Beside the one of a search (`call_search`), and its checks:
// what is asked of the form, what is found and the report differ, and one function of both would take closures with contracts longer than the lines shared.
pub fn query(
    l: &mut Ledger,
    header: Header,
    ids: Rows<[u8; 10]>,
    report: &mut [u8],
) -> Result<usize, Refusal>
    ensures reports { Reports (Query (to_header header) (ids_from 0 ids.count ids.rows) ∷ []) l.old report.old result l.new report.new }
    ensures table { l.new.table ≡ l.old.table }
{
    query_checks(l, header, ids, report.len())?;
    let length = put_report(&l.table, header.sender, &ids.rows[..ids.count], report);
    l.book.add(&header.id, l.table.today());
    Ok(length)
}
