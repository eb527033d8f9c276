// The checks of kinds 07 and 08: of the header, and of the limits that the message names.
#![tactic(auto)]

ghost use Rattle.std.specs.Prelude.{◌≡◌, ◌<◌, ◌≤◌, ◌*◌, not, ltb, true, List, [], ◌∷◌, ℕ, length, IfOk};
ghost use Rattle.rules.specs.Machine.{first_failure};
ghost use Rattle.rules.specs.Message as Message;
ghost use Rattle.refusal.specs.Answer.{answer_of};
ghost use Rattle.command.specs.View.{to_header};
ghost use Rattle.book.specs.Entries.{entries_of};
ghost use Rattle.ledger.specs.View.{ledger_view};
ghost use Rattle.message_checks.specs.Parts.{header_checks, named_checks};

use book::has_id;
use command::Header;
use ledger::Ledger;
use message_branches::is_head;
use message_fields::{is_current, is_message_id};
use message_item_checks::Flags;
use message_items::Item;
use refusal::{Refusal, check};

// Checks 1, 4, 14, 15, 16 and 17, whatever the days in the book are: `head` is whether the sender is a bank that has a branch. All but 15 are those of a query too,
// which makes them by itself (`message_inquiry`): 15 stands between, and two functions, of those before it and those behind, would be longer than the five lines.
#[tactic(auto, unfolding(rules::specs::Machine::first_failure))]
pub fn header_checks(
    formed: bool,
    known: bool,
    head: bool,
    today: u32,
    ids: &[u8],
    used: usize,
    header: Header,
) -> Result<(), Refusal>
    requires { used * 32 ≤ length ids.now }
    ensures says { (days : List ℕ) → answer_of result ≡ first_failure ((1, formed) ∷ (4, known) ∷ (14, not (Message.in_book header.id (entries_of ids.now days used))) ∷ (15, head) ∷ (16, Message.is_message_id header.id) ∷ (17, Message.is_current today header.day) ∷ []) }
    ensures formed { IfOk result (λ _. formed ≡ true) }
{
    check(formed, Refusal::IllFormed)?;
    check(known, Refusal::Unknown)?;
    check(!has_id(ids, used, &header.id), Refusal::IdTaken)?;
    check(head, Refusal::NoHead)?;
    check(is_message_id(&header.id), Refusal::IllFormedId)?;
    check(is_current(today, header.day), Refusal::NotCurrent)
}

// The same on the record.
#[tactic(auto, unfolding(crate::specs::Parts::header_checks, command::specs::View::to_header, ledger::specs::View::ledger_view, ledger::specs::View::view_of))]
pub fn check_header(l: &Ledger, formed: bool, header: Header) -> Result<(), Refusal>
    ensures says { answer_of result ≡ first_failure (header_checks formed (to_header header) (ledger_view l.now)) }
    ensures formed { IfOk result (λ _. formed ≡ true) }
{
    let known = l.table.find(header.sender).is_some();
    let head = is_head(&l.table, header.sender);
    header_checks(
        formed,
        known,
        head,
        l.table.day,
        &l.book.ids,
        l.book.used,
        header,
    )
}

// Checks 18, 19, 20, 6 and 22, with so many ids in the book. A deletion has no value, so 6 passes.
#[tactic(auto, unfolding(rules::specs::Machine::first_failure))]
pub fn named_checks(f: Flags, used: usize) -> Result<(), Refusal>
    ensures says { answer_of result ≡ first_failure ((18, f.later) ∷ (19, f.typed) ∷ (20, f.owned) ∷ (6, f.ranged) ∷ (22, ltb used 1024) ∷ []) }
    ensures room { IfOk result (λ _. used < 1024) }
{
    f.checks()?;
    check(used < 1024, Refusal::BookFull)
}

// The same of items on the record.
#[tactic(auto, using(book::proofs::Laws::entries_length), unfolding(crate::specs::Parts::named_checks, rules::specs::Machine::has_book_place, ledger::specs::View::ledger_view, ledger::specs::View::view_of))]
pub fn check_named(l: &Ledger, header: Header, items: &[Item]) -> Result<(), Refusal>
    ensures says { answer_of result ≡ first_failure (named_checks header items.now (ledger_view l.now)) }
    ensures room { IfOk result (λ _. l.now.book.used < 1024) }
{
    named_checks(Flags::of(&l.table, header, items), l.book.used)
}
