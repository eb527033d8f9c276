// The search for accounts by text, kind 0b: its checks, its report, and its id in the book. The table stays as it is.
#![tactic(auto)]

ghost use Rattle.std.specs.Prelude.{◌≡◌, ◌≤◌, ◌<◌, ◌^◌, ◌&&◌, [], ◌∷◌, map, IfOk};
ghost use Rattle.rules.specs.Command.{Search, is_few};
ghost use Rattle.rules.specs.Machine.{answer};
ghost use Rattle.rules.specs.Search.{selects};
ghost use Rattle.refusal.specs.Answer.{answer_of};
ghost use Rattle.frame_fields.specs.Conditions.{conditions_in, are_conditions};
ghost use Rattle.command.specs.View.{to_header};
ghost use Rattle.search_set.specs.Sets.{set_of};
ghost use Rattle.table.specs.View.{accounts_of};
ghost use Rattle.ledger.specs.View.{ledger_view, lent};
ghost use Rattle.ledger.specs.Promise.{Reports};

use command::{Conditions, Header, is_header};
use frame_fields::conditions_end;
use ledger::Ledger;
use message_inquiry::header_checks;
use refusal::{Refusal, check};
use report_search::put_search;
use rules::is_count;
use search_selection::select;

// Whether there are 1 to 8 conditions, all well-formed.
#[tactic(auto, unfolding(rules::specs::Command::is_few))]
fn conditions_fit(conditions: &Conditions) -> bool
    ensures { result ≡ (is_few conditions.now.count && are_conditions conditions.now.count conditions.now.texts) }
{
    is_count::<8>(conditions.count)
        && conditions_end(&conditions.texts, 0, conditions.count).is_some()
}

// The checks of a search with a report buffer of `room` bytes; the set of the places of the selected accounts. The conditions go by value:
// behind a reference the proof does not know that their bytes are bytes.
fn search_checks(
    l: &Ledger,
    header: Header,
    conditions: Conditions,
    room: usize,
) -> Result<u64, Refusal>
    ensures says { answer_of result ≡ answer (ledger_view l.now) (lent room (Search (to_header header) (conditions_in conditions.count conditions.texts))) }
    ensures ready { IfOk result (λ set. (8192 ≤ room) × (l.now.book.used < 1024) × (set < 2 ^ l.now.table.count)) }
    ensures set { IfOk result (λ set. set ≡ set_of (map (selects (conditions_in conditions.count conditions.texts)) (accounts_of l.now.table))) }
{
    let formed = is_header(header) & conditions_fit(&conditions) & (8192 <= room);
    header_checks(l, formed, header)?;
    let set = select(&l.table, &conditions.texts, conditions.count);
    check(set != 0, Refusal::NothingFound)?;
    check(!l.book.is_full(), Refusal::BookFull)?;
    Ok(set)
}

// A refused search writes nothing; an accepted one writes its report and puts its id into the book. Beside the one of a query (`call_query`), and its checks:
// what is asked of the form, what is found and the report differ, and one function of both would take closures with contracts longer than the lines shared.
pub fn search(
    l: &mut Ledger,
    header: Header,
    conditions: Conditions,
    report: &mut [u8],
) -> Result<usize, Refusal>
    ensures reports { Reports (Search (to_header header) (conditions_in conditions.count conditions.texts) ∷ []) l.old report.old result l.new report.new }
    ensures table { l.new.table ≡ l.old.table }
{
    let set = search_checks(l, header, conditions, report.len())?;
    let length = put_search(&l.table, header.sender, set, report);
    l.book.add(&header.id, l.table.today());
    Ok(length)
}
