// The whole record, table and book, and what every call on it promises.
#![tactic(auto)]

ghost use Rattle.std.specs.Prelude.{◌≡◌};
ghost use Rattle.rules.specs.Machine as Machine;
ghost use Rattle.table.specs.Promise.{Unused};
ghost use Rattle.book.specs.Entries.{empty_book};
ghost use Rattle.ledger.specs.View.{ledger_view};
ghost use Rattle.ledger.specs.Promise.{SoundLedger};

use book::Book;
use std::marker::Model;
use table::Table;

// The record: table and book. What holds of it stands in the type, so a call asks nothing of it.
#[derive(Drop)]
pub struct Ledger {
    pub table: Table,
    pub book: Book,
}

impl Model for Ledger {
    ghost use Rattle.ledger.specs.View as View;

    ghost Value = { View.Ledger };

    ghost use Rattle.ledger.specs.Inside.{ledger_of};
    ghost use Rattle.ledger.specs.Promise.{SoundLedger};

    ghost view = { ledger_of };

    ghost invariant = { λ a. SoundLedger (ledger_of a) };
}

pub fn fresh() -> Ledger
    ensures { (SoundLedger result) × (ledger_view result ≡ Machine.empty) × (Unused result.table) × (result.book ≡ empty_book) }
{
    Ledger {
        table: table::fresh(),
        book: Book::empty(),
    }
}
