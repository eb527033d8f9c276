// One frame, played on table, book and report buffer.
#![tactic(auto)]

ghost use Rattle.std.specs.Prelude.{◌≡◌, true, [], ◌∷◌};
ghost use Rattle.frame.specs.Frame.{commands_of, is_frame};
ghost use Rattle.command.specs.View.{to_command};
ghost use Rattle.refusal.specs.Answer.{answer_of};
ghost use Rattle.ledger.specs.Promise.{Reports, length_of};

use call_accounts::{bank_open, branch_open};
use call_bank_limits::bank_limits;
use call_change::change;
use call_day::open;
use call_deletion::deletion;
use call_funds::{fund, withdraw};
use call_letters::{mark_bank, set_letters};
use call_payment::pay;
use call_query::query;
use call_search::search;
use command::{Command, command_of, transfer_at};
use frame::well_formed;
use ledger::Ledger;
use refusal::Refusal;

// A call that has no report.
fn unreported(call: Result<(), Refusal>) -> Result<usize, Refusal>
    ensures { (answer_of result ≡ answer_of call) × (length_of result ≡ 0) }
{
    call.map(|()| 0)
}

// The command is played. The length of its report comes back, 0 of a kind that has none. Lent, since a copy of a command, with room for the arrays of every kind,
// takes 148 instructions.
#[tactic(auto, unfolding(command::specs::View::to_command))]
fn perform(l: &mut Ledger, command: &Command, report: &mut [u8]) -> Result<usize, Refusal>
    ensures { Reports (to_command command.now ∷ []) l.old report.old result l.new report.new }
{
    match *command {
        Command::Bank(c) => unreported(bank_open(&mut l.table, c)),
        Command::Branch(code, owner, ltk, lpo) => {
            unreported(branch_open(&mut l.table, code, owner, ltk, lpo))
        }
        Command::Funding(c, a) => unreported(fund(&mut l.table, c, a)),
        Command::Withdrawal(c, a) => unreported(withdraw(&mut l.table, c, a)),
        Command::BankLimits(c, ltk, lpo) => unreported(bank_limits(&mut l.table, c, ltk, lpo)),
        Command::Payment(p) => unreported(pay(&mut l.table, p)),
        Command::Change(ref h, ref items) => unreported(change(l, *h, *items)),
        Command::Deletion(ref h, ref account, kind) => unreported(deletion(l, *h, *account, kind)),
        Command::Query(ref h, ref ids) => query(l, *h, *ids, report),
        Command::Opening(day) => unreported(open(l, day)),
        Command::Search(ref h, ref conditions) => search(l, *h, *conditions, report),
        Command::Letters(c, letters) => unreported(set_letters(&mut l.table, c, letters)),
        Command::Mark(c) => unreported(mark_bank(&mut l.table, c)),
    }
}

// The command of a frame is played. That the bytes are a frame is asked, here and below, as in `command`.
fn play_any(l: &mut Ledger, frame: &[u8], report: &mut [u8]) -> Result<usize, Refusal>
    requires { is_frame frame.now ≡ true }
    ensures { Reports (commands_of frame.now) l.old report.old result l.new report.new }
{
    perform(l, &command_of(frame), report)
}

// The same. A payment is played without a command: most lines are payments, and by `perform` one takes 101 instructions more. `play_any` is a function of its own: where
// `play` itself has room for a command, a payment takes 45 more.
#[tactic(auto, using(command::proofs::ByKind::frame_some))]
pub fn play(l: &mut Ledger, frame: &[u8], report: &mut [u8]) -> Result<usize, Refusal>
    requires { is_frame frame.now ≡ true }
    ensures { Reports (commands_of frame.now) l.old report.old result l.new report.new }
{
    if frame[0] == 6 {
        unreported(pay(&mut l.table, transfer_at(frame)))
    } else {
        play_any(l, frame, report)
    }
}

// The command that the bytes hold is played; where they hold none, they are ill-formed, and nothing changes.
pub fn step(l: &mut Ledger, frame: &[u8], report: &mut [u8]) -> Result<usize, Refusal>
    ensures { Reports (commands_of frame.now) l.old report.old result l.new report.new }
{
    if !well_formed(frame) {
        return Err(Refusal::IllFormed);
    }
    play(l, frame, report)
}
