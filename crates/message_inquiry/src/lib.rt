// What a query and a search have in common: their checks before 21.
#![tactic(auto)]

ghost use Rattle.std.specs.Prelude.{◌≡◌, true, not, [], ◌∷◌, IfOk};
ghost use Rattle.rules.specs.Account.{known};
ghost use Rattle.rules.specs.Machine.{first_failure};
ghost use Rattle.rules.specs.Message as Message;
ghost use Rattle.refusal.specs.Answer.{answer_of};
ghost use Rattle.table.specs.View.{accounts_of};
ghost use Rattle.book.specs.Entries.{book_of};

use command::Header;
use ledger::Ledger;
use message_fields::{is_current, is_message_id};
use refusal::{Refusal, check};

// `formed` is the check of the frame and of the report buffer's length; `listed` whether the book has the id, and `today` the open day.
#[tactic(auto, unfolding(rules::specs::Machine::first_failure))]
pub fn header_answer(
    formed: bool,
    known: bool,
    listed: bool,
    id: &[u8],
    today: u32,
    day: u32,
) -> Result<(), Refusal>
    ensures says { answer_of result ≡ first_failure ((1, formed) ∷ (4, known) ∷ (14, not listed) ∷ (16, Message.is_message_id id.now) ∷ (17, Message.is_current today day) ∷ []) }
    ensures formed { IfOk result (λ _. formed ≡ true) }
{
    check(formed, Refusal::IllFormed)?;
    check(known, Refusal::Unknown)?;
    check(!listed, Refusal::IdTaken)?;
    check(is_message_id(id), Refusal::IllFormedId)?;
    check(is_current(today, day), Refusal::NotCurrent)
}

// The same of a header on the record.
pub fn header_checks(l: &Ledger, formed: bool, header: Header) -> Result<(), Refusal>
    ensures says { answer_of result ≡ first_failure ((1, formed) ∷ (4, known header.sender (accounts_of l.now.table)) ∷ (14, not (Message.in_book header.id (book_of l.now.book))) ∷ (16, Message.is_message_id header.id) ∷ (17, Message.is_current l.now.table.day header.day) ∷ []) }
    ensures formed { IfOk result (λ _. formed ≡ true) }
{
    let known = l.table.find(header.sender).is_some();
    let listed = l.book.has(&header.id);
    header_answer(formed, known, listed, &header.id, l.table.day, header.day)
}
