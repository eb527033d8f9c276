// The report of a search: how many accounts were selected, and what is said of each.
#![tactic(auto)]

ghost use Rattle.std.specs.Prelude.{cond, [], ◌∷◌, ◌++◌, ◌+◌, ◌^◌, ◌≤◌, ◌<◌, length};
ghost use Rattle.std.specs.Int.Count.{ones};
ghost use Rattle.rules.specs.Search as Search;
ghost use Rattle.rules.specs.Invariant.{Sized};
ghost use Rattle.account.specs.View.{to_account, to_turnovers};
ghost use Rattle.search_set.specs.Sets.{chosen};
ghost use Rattle.table.specs.View.{accounts_of};
ghost use Rattle.octet_writer.specs.Written.{Written, HasRoom, Moved, MovedAtMost, Wrote};

use account::Account;
use account_state::state_of;
use octet_writer::Writer;
use report_letters::put_letters;
use search_selection::account_id;
use search_set::{first_place, size, without_first};
use table::Table;

// The four turnovers, one by one: a loop of four would want an invariant.
fn put_turnovers(w: &mut Writer, t: [u64; 4])
    requires { HasRoom 32 w.old }
    ensures moved { Moved 32 w.old w.new }
    ensures wrote { Wrote (Search.turnover_bytes (to_turnovers t)) w.old w.new }
{
    let [icdt, rcdt, iddt, rddt] = t;
    w.put(icdt);
    w.put(rcdt);
    w.put(iddt);
    w.put(rddt);
}

// 0, id, state, turnovers and the letters on the account itself.
fn put_shown(w: &mut Writer, x: Account)
    requires { HasRoom 57 w.old × (Sized (to_account x)) }
    ensures moved { MovedAtMost 57 w.old w.new }
    ensures wrote { Wrote (Search.shown_bytes (to_account x)) w.old w.new }
{
    w.put(0u8);
    w.put_all(&account_id(x.code));
    w.put(state_of(x));
    put_turnovers(w, x.turnovers);
    put_letters(w, x.letters);
}

// The block of a selected account: what is shown of it, or 24 where it may not be asked for.
fn put_found(w: &mut Writer, x: Account, may: bool)
    requires { HasRoom 57 w.old × (Sized (to_account x)) }
    ensures moved { MovedAtMost 57 w.old w.new }
    ensures wrote { Wrote (cond may (Search.shown_bytes (to_account x)) (24 ∷ [])) w.old w.new }
{
    if may {
        put_shown(w, x);
    } else {
        w.put(24u8);
    }
}

// How many accounts are in the set, and each of them in table order, from byte 0 on; the report's length. A set as a number, its
// members counted by `count_ones` and found by `trailing_zeros`, is a form that the project's scope names, and so is the loop over it.
pub fn put_search(t: &Table, sender: u32, set: u64, out: &mut [u8]) -> usize
    requires { (set < 2 ^ t.now.count) × (8192 ≤ length out.old) }
    ensures { Written out.old 0 ((ones set ∷ []) ++ Search.found_blocks sender (accounts_of t.now) (chosen set (accounts_of t.now))) out.new result }
{
    let mut w = Writer::new(out);
    w.put(size(set) as u8);
    let mut rest = set;
    while rest != 0 {
        let x = t.accounts[first_place(rest)];
        put_found(&mut w, x, x.may_be_asked_for_by(sender));
        rest = without_first(rest);
    }
    w.len()
}
