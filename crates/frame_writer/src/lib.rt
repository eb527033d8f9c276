// Frames written from commands.
#![tactic(auto)]

ghost use Rattle.std.specs.Prelude.{cond, [], ◌∷◌, ◌++◌, length};
ghost use Rattle.octets.specs.Octets.{money};
ghost use Rattle.rules.specs.Command as Rule;
ghost use Rattle.rules.specs.Command.{is_code};
ghost use Rattle.rules.specs.Message.{digits};
ghost use Rattle.frame.specs.Frame.{command_frame, write_frame};
ghost use Rattle.frame.specs.Filled.{Filled};
ghost use Rattle.command.specs.View.{to_command, commands};
ghost use Rattle.octet_writer.specs.Written.{HasRoom, MovedAtMost, Wrote};

use command::{Command, Transfer};
use frame_code_writer::code_digits;
use frame_message_writer::{write_change, write_deletion, write_query, write_search};
use octet_writer::Writer;
use rules::{is_code, is_letters, is_method, is_way};

// 01 and 13: code. The kind is the byte that is written. Like the others below, it writes the frame, or nothing of a command that is out of range.
fn write_code(w: &mut Writer, kind: u8, code: u32)
    requires { HasRoom 352 w.old }
    ensures moved { MovedAtMost 352 w.old w.new }
    ensures wrote { Wrote (cond (is_code code) (kind ∷ digits 6 code) []) w.old w.new }
{
    if is_code(code) {
        w.put(kind);
        w.put_all(&code_digits(code));
    }
}

// 03 and 04: code, amount. The kind as in `write_code`.
fn write_amount(w: &mut Writer, kind: u8, code: u32, amount: i64)
    requires { HasRoom 352 w.old }
    ensures moved { MovedAtMost 352 w.old w.new }
    ensures wrote { Wrote (cond (is_code code) (kind ∷ (digits 6 code ++ money amount)) []) w.old w.new }
{
    if is_code(code) {
        w.put(kind);
        w.put_all(&code_digits(code));
        w.put(amount);
    }
}

// 02: code, owner, LTK method, LPO method.
fn write_branch(w: &mut Writer, code: u32, owner: u32, ltk: u8, lpo: u8)
    requires { HasRoom 352 w.old }
    ensures moved { MovedAtMost 352 w.old w.new }
    ensures wrote { Wrote (command_frame (Rule.Branch code owner ltk lpo ∷ [])) w.old w.new }
{
    if is_code(code) & is_code(owner) & is_method(ltk) & is_method(lpo) {
        w.put(2u8);
        w.put_all(&code_digits(code));
        w.put_all(&code_digits(owner));
        w.put(ltk);
        w.put(lpo);
    }
}

// 05: code, LTK, LPO.
fn write_bank_limits(w: &mut Writer, code: u32, ltk: i64, lpo: i64)
    requires { HasRoom 352 w.old }
    ensures moved { MovedAtMost 352 w.old w.new }
    ensures wrote { Wrote (command_frame (Rule.BankLimits code ltk lpo ∷ [])) w.old w.new }
{
    if is_code(code) {
        w.put(5u8);
        w.put_all(&code_digits(code));
        w.put(ltk);
        w.put(lpo);
    }
}

// 06: 0 credit or 1 debit, sender, receiver, amount.
fn write_payment(w: &mut Writer, p: Transfer)
    requires { HasRoom 352 w.old }
    ensures moved { MovedAtMost 352 w.old w.new }
    ensures wrote { Wrote (command_frame (Rule.Payment p.way p.sender p.receiver p.amount ∷ [])) w.old w.new }
{
    if is_way(p.way) & is_code(p.sender) & is_code(p.receiver) {
        w.put(6u8);
        w.put(p.way);
        w.put_all(&code_digits(p.sender));
        w.put_all(&code_digits(p.receiver));
        w.put(p.amount);
    }
}

// 0a: day. Every day is in range.
fn write_opening(w: &mut Writer, day: u32)
    requires { HasRoom 352 w.old }
    ensures moved { MovedAtMost 352 w.old w.new }
    ensures wrote { Wrote (command_frame (Rule.Opening day ∷ [])) w.old w.new }
{
    w.put(10u8);
    w.put(day);
}

// 0c: code, letters.
fn write_letters(w: &mut Writer, code: u32, letters: u8)
    requires { HasRoom 352 w.old }
    ensures moved { MovedAtMost 352 w.old w.new }
    ensures wrote { Wrote (command_frame (Rule.Letters code letters ∷ [])) w.old w.new }
{
    if is_code(code) & is_letters(letters) {
        w.put(12u8);
        w.put_all(&code_digits(code));
        w.put(letters);
    }
}

fn write_command(w: &mut Writer, command: Command)
    requires { HasRoom 352 w.old }
    ensures moved { MovedAtMost 352 w.old w.new }
    ensures wrote { Wrote (command_frame (to_command command ∷ [])) w.old w.new }
{
    match command {
        Command::Bank(code) => write_code(w, 1, code),
        Command::Branch(code, owner, ltk, lpo) => write_branch(w, code, owner, ltk, lpo),
        Command::Funding(code, amount) => write_amount(w, 3, code, amount),
        Command::Withdrawal(code, amount) => write_amount(w, 4, code, amount),
        Command::BankLimits(code, ltk, lpo) => write_bank_limits(w, code, ltk, lpo),
        Command::Payment(p) => write_payment(w, p),
        Command::Change(h, items) => write_change(w, h, items),
        Command::Deletion(h, account, kind) => write_deletion(w, h, account, kind),
        Command::Query(h, ids) => write_query(w, h, ids),
        Command::Opening(day) => write_opening(w, day),
        Command::Search(h, conditions) => write_search(w, h, conditions),
        Command::Letters(code, letters) => write_letters(w, code, letters),
        Command::Mark(code) => write_code(w, 19, code),
    }
}

// Writes the frame of a command from byte 0 on and returns its length. Where the command is none or out of range, or the buffer has under 352 bytes, it
// returns 0 and leaves the buffer as it was. A length and no Option: none is a frame of no bytes, so one equation says both (`Filled`).
pub fn write_frame(command: Option<Command>, frame: &mut [u8]) -> usize
    ensures { Filled (write_frame (commands command) (length frame.old)) frame.old frame.new result }
{
    if frame.len() < 352 {
        return 0;
    }
    let Some(command) = command else {
        return 0;
    };
    let mut w = Writer::new(frame);
    write_command(&mut w, command);
    w.len()
}
