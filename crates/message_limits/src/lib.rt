// The limits that a message names, set by the items of a change or deleted, and the message's moment put on their accounts.
#![tactic(auto)]

ghost use Rattle.std.specs.Prelude.{◌≡◌, drop};
ghost use Rattle.rules.specs.Account.{adjust};
ghost use Rattle.rules.specs.Message as Message;
ghost use Rattle.command.specs.View.{to_header};
ghost use Rattle.account.specs.View.{to_account, to_limit};
ghost use Rattle.message_limits.specs.Setting.{setting, in_use, Listed, set_records};

use account::{Account, Limit, LimitType};
use command::Header;
use message_items::{Item, moment_of};
use table::place;

// What a value makes of a limit: an item without one deletes it.
#[tactic(auto, unfolding(account::specs::View::to_limit))]
fn set_to(limit: Limit, value: Option<i64>) -> Limit
    ensures { to_limit result ≡ setting value (to_limit limit) }
{
    match value {
        Some(v) => Limit::Value(v),
        None => limit.cleared(),
    }
}

// The account with an item's limit set, or deleted.
pub fn set_item(x: Account, item: Item, header: Header) -> Account
    ensures { to_account result ≡ Message.touch (to_header header) item.kind (setting item.value) (to_account x) }
{
    let limit_type = LimitType::from(item.kind);
    let limit = set_to(x.limit(limit_type), item.value);
    x.touched(limit_type, limit, moment_of(header))
}

// An item set in place. One that has passed the checks names an account of the table. What stands behind the accounts in use stays.
fn store(codes: &[u32; 64], accounts: &mut [Account; 64], count: usize, header: Header, item: Item)
    requires { Listed codes.now accounts.old count }
    ensures listed { Listed codes.now accounts.new count }
    ensures accounts { in_use accounts.new count ≡ adjust item.code (Message.touch (to_header header) item.kind (setting item.value)) (in_use accounts.old count) }
    ensures rest { drop count accounts.new ≡ drop count accounts.old }
{
    if let Some(i) = place(codes, count, item.code) {
        accounts[i] = set_item(accounts[i], item, header);
    }
}

// All of them, in order. They are lent a table's fields: between two items the accounts need not be those of a table of the rules.
pub fn set_items(
    codes: &[u32; 64],
    accounts: &mut [Account; 64],
    count: usize,
    header: Header,
    items: &[Item],
)
    requires { Listed codes.now accounts.old count }
    ensures listed { Listed codes.now accounts.new count }
    ensures accounts { in_use accounts.new count ≡ set_records (to_header header) items.now (in_use accounts.old count) }
    ensures rest { drop count accounts.new ≡ drop count accounts.old }
{
    for item in items {
        store(codes, accounts, count, header, *item);
    }
}
