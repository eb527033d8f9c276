// The report of a query: a count, and a block for each account id.
#![tactic(auto)]

ghost use Rattle.std.specs.Prelude.{[], ◌∷◌, ◌++◌, ◌+◌, ◌*◌, ◌≤◌, length};
ghost use Rattle.rules.specs.Report as Report;
ghost use Rattle.table.specs.View.{accounts_of};
ghost use Rattle.octet_writer.specs.Written.{Written, HasRoom, MovedAtMost, Wrote};

use message_fields::named;
use octet_writer::Writer;
use report_account::put_account;
use table::Table;

// The block of the account of a code, or 23 of one that is not known, or 24 where the sender may not ask for it.
#[tactic(auto, using(crate::proofs::Blocks::reportable_at, crate::proofs::Blocks::asked_at), unfolding(rules::specs::Report::block))]
fn put_block(w: &mut Writer, t: &Table, sender: u32, code: u32)
    requires { HasRoom 57 w.old }
    ensures moved { MovedAtMost 57 w.old w.new }
    ensures wrote { Wrote (Report.block sender (accounts_of t.now) code) w.old w.new }
{
    let Some(place) = t.find(code) else {
        w.put(23u8);
        return;
    };
    let x = t.accounts[place];
    if x.may_be_asked_for_by(sender) {
        put_account(w, x);
    } else {
        w.put(24u8);
    }
}

// The count and the blocks of account ids, from byte 0 on; the report's length.
pub fn put_report(t: &Table, sender: u32, ids: &[[u8; 10]], out: &mut [u8]) -> usize
    requires { (length ids.now ≤ 16) × (1 + length ids.now * 57 ≤ length out.old) }
    ensures { Written out.old 0 ((length ids.now ∷ []) ++ Report.blocks sender (accounts_of t.now) ids.now) out.new result }
{
    let mut w = Writer::new(out);
    w.put(ids.len() as u8);
    for id in ids {
        put_block(&mut w, t, sender, named(id));
    }
    w.len()
}
