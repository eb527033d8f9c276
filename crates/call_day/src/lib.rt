// Day opening (0a) as a whole call: the accounts' new day, and the ids that leave the book.
#![tactic(auto)]

ghost use Rattle.rules.specs.Command.{Opening};
ghost use Rattle.ledger.specs.Promise.{Settles};

use ledger::Ledger;
use refusal::Refusal;
use table_day::open_day;

pub fn open(l: &mut Ledger, day: u32) -> Result<(), Refusal>
    ensures { Settles (Opening day) l.old result l.new }
{
    let ending = l.table.today();
    open_day(&mut l.table, day)?;
    l.book.forget_before(ending);
    Ok(())
}
