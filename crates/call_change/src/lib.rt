// Kind 07: a refusal leaves the very same record, and a change that passes all checks sets its limits and puts the message's id in the book.
#![tactic(auto)]

ghost use Rattle.rules.specs.Command.{Change};
ghost use Rattle.command.specs.View.{to_header, items_from};
ghost use Rattle.ledger.specs.Promise.{Settles};

use command::{ChangeItem, Header, Rows, is_header};
use ledger::Ledger;
use message_checks::{check_header, check_named};
use message_items::records;
use message_limits::set_items;
use refusal::Refusal;
use rules::is_count;

// The items are looked at only once the header has passed: then there are at most 16.
#[tactic(auto, using(command::proofs::Forms::count_most), unfolding(table::specs::View::accounts_of, rules::specs::Command::is_count))]
pub fn change(l: &mut Ledger, header: Header, items: Rows<ChangeItem>) -> Result<(), Refusal>
    ensures { Settles (Change (to_header header) (items_from 0 items.count items.rows)) l.old result l.new }
{
    check_header(l, is_header(header) & is_count::<16>(items.count), header)?;
    let items = records(&items.rows[..items.count]);
    check_named(l, header, &items)?;
    l.book.add(&header.id, l.table.today());
    let t = &mut l.table;
    set_items(&t.codes, &mut t.accounts, t.count, header, &items);
    Ok(())
}
