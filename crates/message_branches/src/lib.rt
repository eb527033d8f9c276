// What a limit message asks of the table: whether its sender is a head bank, and of one account whether it is a branch of the sender's, and for how long.
#![tactic(auto, unfolding(rules::specs::Message::is_branch_of))]

ghost use Rattle.std.specs.Prelude.{◌≡◌, not, ◌||◌};
ghost use Rattle.rules.specs.Account.{at};
ghost use Rattle.rules.specs.Command.{some?};
ghost use Rattle.rules.specs.Message as Message;
ghost use Rattle.account.specs.View.{at_moment};
ghost use Rattle.table.specs.View.{accounts_of};

use account::Moment;
use table::Table;

fn has_branch(t: &Table, sender: u32) -> bool
    ensures { result ≡ some? (λ x. Message.owned_by sender x.owner) (accounts_of t.now) }
{
    t.accounts[..t.count].iter().any(|x| x.is_owned_by(sender))
}

// A head bank is a bank that has a branch.
#[tactic(auto, using(crate::proofs::Lookup::no_bank), unfolding(rules::specs::Message::is_head))]
pub fn is_head(t: &Table, sender: u32) -> bool
    ensures { result ≡ Message.is_head sender (accounts_of t.now) }
{
    t.find(sender)
        .is_some_and(|place| t.accounts[place].is_bank())
        && has_branch(t, sender)
}

pub fn is_branch_of(t: &Table, sender: u32, code: u32) -> bool
    ensures { result ≡ Message.is_branch_of sender code (accounts_of t.now) }
{
    t.find(code)
        .is_some_and(|place| t.accounts[place].is_owned_by(sender))
}

// Whether a message of the moment may name the account: what is no branch of the sender's is not looked at.
pub fn is_later(t: &Table, sender: u32, code: u32, moment: Moment) -> bool
    ensures { result ≡ (not (Message.is_branch_of sender code (accounts_of t.now)) || Message.later (at code (accounts_of t.now)).moment (at_moment moment)) }
{
    t.find(code).is_none_or(|place| {
        let x = t.accounts[place];
        !x.is_owned_by(sender) || x.is_later(moment)
    })
}
