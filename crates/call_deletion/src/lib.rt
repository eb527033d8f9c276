// Kind 08: a refusal leaves the very same record, and a deletion that passes all checks clears its limit and puts the message's id in the book.
#![tactic(auto)]

ghost use Rattle.rules.specs.Command.{Deletion};
ghost use Rattle.command.specs.View.{to_header};
ghost use Rattle.ledger.specs.Promise.{Settles};

use command::{Header, is_header};
use ledger::Ledger;
use message_checks::{check_header, check_named};
use message_fields::named;
use message_items::Item;
use message_limits::set_items;
use refusal::Refusal;

// The item of a deletion has no value: its limit is deleted. The last steps are those of a change; a function of both would ask for all that the header's
// checks say.
#[tactic(auto, unfolding(table::specs::View::accounts_of))]
pub fn deletion(l: &mut Ledger, header: Header, account: [u8; 10], kind: u8) -> Result<(), Refusal>
    ensures { Settles (Deletion (to_header header) account kind) l.old result l.new }
{
    check_header(l, is_header(header), header)?;
    let item = Item {
        code: named(&account),
        kind,
        value: None,
    };
    check_named(l, header, &[item])?;
    l.book.add(&header.id, l.table.today());
    let t = &mut l.table;
    set_items(&t.codes, &mut t.accounts, t.count, header, &[item]);
    Ok(())
}
