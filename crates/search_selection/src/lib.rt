// Which accounts a search selects.
#![tactic(auto)]

ghost use Rattle.std.specs.Prelude.{◌≡◌, ◌<◌, ◌^◌, map, length};
ghost use Rattle.rules.specs.Command.{some?};
ghost use Rattle.rules.specs.Message.{account_id};
ghost use Rattle.rules.specs.Search as Search;
ghost use Rattle.frame_fields.specs.Conditions.{ConditionsFirst, conditions_in};
ghost use Rattle.search_set.specs.Sets.{set_of};
ghost use Rattle.table.specs.View.{accounts_of};

use frame_code_writer::code_digits;
use search_set::with_place;
use search_text::meets;
use table::Table;

// The account id of a code.
#[tactic(auto, unfolding(rules::specs::Message::account_id))]
pub fn account_id(code: u32) -> [u8; 10]
    ensures { result ≡ account_id code }
{
    let mut id = *b"1UAH000000";
    id[4..].copy_from_slice(&code_digits(code));
    id
}

// Whether an id meets at least one of n conditions, which stand one after the other in the bytes. Behind the one at hand `left` are left: the loop counts
// them for the proof, since a condition has no width that is known before. Bytes and a count, and no `Conditions`: that would ask for 160 bytes.
pub fn meets_one(b: &[u8], n: usize, id: &[u8]) -> bool
    requires { (ConditionsFirst n b.now) × (length id.now ≡ 10) }
    ensures { result ≡ some? (Search.meets id.now) (conditions_in n b.now) }
{
    let mut at = 0;
    for left in (0..n).rev() {
        let from = at + 2;
        let end = from + usize::from(b[at + 1]);
        if meets(b[at], &b[from..end], id) {
            return true;
        }
        at = end;
    }
    false
}

// The set of the places of the selected accounts: the loop goes over the places.
pub fn select(t: &Table, b: &[u8], n: usize) -> u64
    requires { ConditionsFirst n b.now }
    ensures says { result ≡ set_of (map (Search.selects (conditions_in n b.now)) (accounts_of t.now)) }
    ensures below { result < 2 ^ t.now.count }
{
    let mut set = 0;
    for i in 0..t.count {
        if meets_one(b, n, &account_id(t.codes[i])) {
            set = with_place(set, i);
        }
    }
    set
}
