// The items of a change as a list of records, each with the code that its account id names, and the checks that run over a list of them.
#![tactic(auto)]

ghost use Rattle.std.specs.Prelude.{◌≡◌, map, ◌≤◌, length};
ghost use Rattle.std.specs.List.{list_all};
ghost use Rattle.rules.specs.Message as Message;
ghost use Rattle.command.specs.View.{to_item};
ghost use Rattle.table.specs.View.{accounts_of};
ghost use Rattle.message_items.specs.Records.{record_of, is_later_in, is_ranged};

use account::Moment;
use amount::is_limit;
use arrayvec::ArrayVec;
use command::{ChangeItem, Header};
use message_branches::{is_branch_of, is_later};
use message_fields::{is_type, named};
use table::Table;

// The code of the account, the type of the limit, and the value that a change sets; a deletion sets none. The type is the frame's byte and no enum: check 19
// refuses any but 1 and 2.
#[derive(Clone, Copy, Default)]
pub struct Item {
    pub code: u32,
    pub kind: u8,
    pub value: Option<i64>,
}

// When a message was made. No `From`: it would stand beside one of the two types, and neither's crate is below the other's.
pub fn moment_of(header: Header) -> Moment
    ensures { result ≡ record { day = header.day; second = header.second } }
{
    Moment {
        day: header.day,
        second: header.second,
    }
}

// The items of a change.
pub fn records(items: &[ChangeItem]) -> ArrayVec<Item, 16>
    requires { length items.now ≤ 16 }
    ensures { result.items ≡ map record_of (map to_item items.now) }
{
    let mut records = ArrayVec::new();
    for item in items {
        records.push(Item {
            code: named(&item.account),
            kind: item.kind,
            value: Some(item.value),
        });
    }
    records
}

// Check 18: the message is later than the last of each of the sender's branches that it names.
pub fn are_later(t: &Table, header: Header, items: &[Item]) -> bool
    ensures { result ≡ list_all (λ i. is_later_in header (accounts_of t.now) i.code) items.now }
{
    let moment = moment_of(header);
    items
        .iter()
        .all(|item| is_later(t, header.sender, item.code, moment))
}

// Check 19.
pub fn are_typed(items: &[Item]) -> bool
    ensures { result ≡ list_all (λ i. Message.is_type i.kind) items.now }
{
    items.iter().all(|item| is_type(item.kind))
}

// Check 20: each item names a branch of the sender's.
pub fn are_owned(t: &Table, sender: u32, items: &[Item]) -> bool
    ensures { result ≡ list_all (λ i. Message.is_branch_of sender i.code (accounts_of t.now)) items.now }
{
    items.iter().all(|item| is_branch_of(t, sender, item.code))
}

// Check 6.
pub fn are_ranged(items: &[Item]) -> bool
    ensures { result ≡ list_all (λ i. is_ranged i.value) items.now }
{
    items.iter().all(|item| item.value.is_none_or(is_limit))
}
