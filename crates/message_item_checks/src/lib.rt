// Checks 18, 19, 20 and 6 of the items that a message names.
#![tactic(auto, unfolding(rules::specs::Machine::first_failure))]

ghost use Rattle.std.specs.Prelude.{◌≡◌};
ghost use Rattle.rules.specs.Machine.{first_failure};
ghost use Rattle.refusal.specs.Answer.{answer_of};
ghost use Rattle.table.specs.View.{accounts_of};
ghost use Rattle.message_item_checks.specs.Items.{flag_checks, item_checks};

use command::Header;
use message_items::{Item, are_later, are_owned, are_ranged, are_typed};
use refusal::{Refusal, check};
use table::Table;

// Whether checks 18, 19, 20 and 6 pass.
#[derive(Clone, Copy)]
pub struct Flags {
    pub later: bool,
    pub typed: bool,
    pub owned: bool,
    pub ranged: bool,
}

impl Flags {
    // Each check over all items.
    pub fn of(t: &Table, header: Header, items: &[Item]) -> Flags
        ensures { flag_checks result ≡ item_checks header (accounts_of t.now) items.now }
    {
        Flags {
            later: are_later(t, header, items),
            typed: are_typed(items),
            owned: are_owned(t, header.sender, items),
            ranged: are_ranged(items),
        }
    }

    pub fn checks(self) -> Result<(), Refusal>
        ensures { answer_of result ≡ first_failure (flag_checks self) }
    {
        check(self.later, Refusal::MomentNotLater)?;
        check(self.typed, Refusal::NoType)?;
        check(self.owned, Refusal::NotOwned)?;
        check(self.ranged, Refusal::OutOfRange)
    }
}

// Each check has run over all items before the first is asked.
pub fn item_checks(t: &Table, header: Header, items: &[Item]) -> Result<(), Refusal>
    ensures { answer_of result ≡ first_failure (item_checks header (accounts_of t.now) items.now) }
{
    Flags::of(t, header, items).checks()
}
