// Commands as values, parsed from a frame.
#![tactic(auto)]

ghost use Rattle.std.specs.Prelude.{◌≡◌, true, ◌&&◌, [], ◌∷◌, ◌+◌, ◌-◌, ◌*◌, ◌≤◌, ◌<◌, length, take, drop, get_or, leb};
ghost use Rattle.octets.specs.Octets.{number, part};
ghost use Rattle.rules.specs.Command.{is_code};
ghost use Rattle.rules.specs.Message.{decimal};
ghost use Rattle.rules.specs.Payment as Rule;
ghost use Rattle.frame.specs.Frame.{header_of, is_frame, commands_of};
ghost use Rattle.command.specs.Item.{item_bytes, item_fits, item_in, item_back, rows_in};
ghost use Rattle.command.specs.declared.Command.TheVariants.{Payment};
ghost use Rattle.command.specs.View.{to_header, to_command, commands};

use digits::code_at;
use frame::well_formed;
use octets::{Octets, read};
use rules::{is_code, is_second};

// Of a message: sender code, id, creation day and second.
#[derive(Clone, Copy)]
pub struct Header {
    pub sender: u32,
    pub id: [u8; 32],
    pub day: u32,
    pub second: u32,
}

// A payment: 0 credit or 1 debit, the codes of both, the amount.
#[derive(Clone, Copy)]
pub struct Transfer {
    // The byte of the frame: a call refuses one above 1, which an enum would ask of its callers.
    pub way: u8,
    pub sender: u32,
    pub receiver: u32,
    pub amount: i64,
}

impl Transfer {
    #[tactic(auto, unfolding(rules::specs::Payment::is_credit))]
    pub fn is_credit(self) -> bool
        ensures { result ≡ Rule.is_credit self.way }
    {
        self.way == 0
    }

    // Who pays and who is paid. Two functions, and none over `Side` (account_booking, above): each is called once, for the side that it names, and one of both would
    // need a definition more, by the side, in place of the rules' two.
    #[tactic(auto, unfolding(rules::specs::Payment::payer))]
    pub fn payer(self) -> u32
        ensures { result ≡ Rule.payer (Rule.is_credit self.way) self.sender self.receiver }
    {
        if self.is_credit() {
            self.sender
        } else {
            self.receiver
        }
    }

    #[tactic(auto, unfolding(rules::specs::Payment::payee))]
    pub fn payee(self) -> u32
        ensures { result ≡ Rule.payee (Rule.is_credit self.way) self.sender self.receiver }
    {
        if !self.is_credit() {
            self.sender
        } else {
            self.receiver
        }
    }
}

// An item of a change: account id, type of the limit, value. The type is the frame's byte: a change of another type than 1 and 2 is a command, which a check of
// its items refuses.
#[derive(Clone, Copy)]
pub struct ChangeItem {
    pub account: [u8; 10],
    pub kind: u8,
    pub value: i64,
}

// As in a frame: a row of 19 bytes.
impl Octets<19> for ChangeItem {
    ghost bytes = { item_bytes };

    ghost of_bytes = { item_in };

    ghost fits = { λ i. item_fits i ≡ true };

    ghost read_back = { item_back };

    fn to_octets(self) -> [u8; 19] {
        let mut octets = [0; 19];
        octets[..10].copy_from_slice(&self.account);
        octets[10] = self.kind;
        octets[11..].copy_from_slice(&self.value.to_octets());
        octets
    }

    fn of_octets(octets: &[u8; 19]) -> ChangeItem {
        ChangeItem {
            account: read(octets, 0),
            kind: octets[10],
            value: read(octets, 11),
        }
    }
}

// The items of a change or the account ids of a query, and how many of them there are. No list of at most 16: a count above 16 can be said too, of which a writer
// writes nothing, and which a call refuses.
#[derive(Clone, Copy)]
pub struct Rows<T> {
    pub rows: [T; 16],
    pub count: usize,
}

// The conditions of a search as they stand in its frame, and how many they are: any number, as of `Rows`.
#[derive(Clone, Copy)]
pub struct Conditions {
    pub texts: [u8; 160],
    pub count: usize,
}

// One variant for each kind, 01 to 0c and 13. Methods, ways and types are the frame's bytes: a command with any other is one, too. A branch's code, owner and methods are
// no struct: what opens an account (`opened` of account, below) takes an owner that may be none.
#[derive(Clone, Copy)]
pub enum Command {
    Bank(u32),
    Branch(u32, u32, u8, u8),
    Funding(u32, i64),
    Withdrawal(u32, i64),
    BankLimits(u32, i64, i64),
    Payment(Transfer),
    Change(Header, Rows<ChangeItem>),
    Deletion(Header, [u8; 10], u8),
    Query(Header, Rows<[u8; 10]>),
    Opening(u32),
    Search(Header, Conditions),
    Letters(u32, u8),
    Mark(u32),
}

// Whether a header is in range: its id and its day always are.
pub fn is_header(h: Header) -> bool
    ensures { result ≡ (is_code h.sender && leb h.second 86399) }
{
    is_code(h.sender) & is_second(h.second)
}

// The header of a message.
fn header_at(b: &[u8]) -> Header
    requires { 47 ≤ length b.now }
    ensures { to_header result ≡ header_of (decimal 0 (part 1 6 b.now)) (part 7 32 b.now) (number (part 39 4 b.now)) (number (part 43 4 b.now)) }
{
    Header {
        sender: code_at(b, 1),
        id: read(b, 7),
        day: read(b, 39),
        second: read(b, 43),
    }
}

// The rows behind the count of a change or of a query. By places: each row stands at a place of its own in the frame. The bound of N gives a row's bytes a size.
fn rows_at<const N: usize, T: Octets<N> + Copy>(b: &[u8]) -> Rows<T>
    requires { (get_or b.now 47 0 ≤ 16) × (N < 20) × (48 + get_or b.now 47 0 * N ≤ length b.now) }
    ensures { (result.count ≡ get_or b.now 47 0) × (take result.count result.rows ≡ rows_in T.of_bytes N result.count (drop 48 b.now)) }
{
    let count = usize::from(b[47]);
    let mut rows = [T::of_octets(&[0; N]); 16];
    for i in 0..count {
        rows[i] = read(b, 48 + i * N);
    }
    Rows { rows, count }
}

// 07: header, count, items. That the bytes are a frame is asked here, below and in `play_frame`: a type that says so would be made where they are tested, and taken apart
// in the next line.
fn change(b: &[u8]) -> Command
    requires { (is_frame b.now ≡ true) × (get_or b.now 0 0 ≡ 7) }
    ensures { to_command result ∷ [] ≡ commands_of b.now }
{
    Command::Change(header_at(b), rows_at(b))
}

// 08: header, account id, type.
fn deletion(b: &[u8]) -> Command
    requires { (is_frame b.now ≡ true) × (get_or b.now 0 0 ≡ 8) }
    ensures { to_command result ∷ [] ≡ commands_of b.now }
{
    Command::Deletion(header_at(b), read(b, 47), b[57])
}

// 09: header, count, account ids.
fn query(b: &[u8]) -> Command
    requires { (is_frame b.now ≡ true) × (get_or b.now 0 0 ≡ 9) }
    ensures { to_command result ∷ [] ≡ commands_of b.now }
{
    Command::Query(header_at(b), rows_at(b))
}

// The conditions behind the count of a search.
#[tactic(auto, unfolding(octets::specs::Octets::part))]
fn conditions_at(b: &[u8]) -> Conditions
    requires { (48 ≤ length b.now) × (length b.now ≤ 208) }
    ensures { (result.count ≡ get_or b.now 47 0) × (part 0 (length b.now - 48) result.texts ≡ drop 48 b.now) }
{
    let conditions = &b[48..];
    let mut texts = [0; 160];
    texts[..conditions.len()].copy_from_slice(conditions);
    Conditions {
        texts,
        count: usize::from(b[47]),
    }
}

// 0b: header, count, conditions.
fn search(b: &[u8]) -> Command
    requires { (is_frame b.now ≡ true) × (get_or b.now 0 0 ≡ 11) }
    ensures { to_command result ∷ [] ≡ commands_of b.now }
{
    Command::Search(header_at(b), conditions_at(b))
}

// 06: way, sender, receiver, amount. Public for whoever plays a frame: a payment alone is cheaper than a command with room for the arrays of other kinds.
#[tactic(auto, using(crate::proofs::ByKind::frame_lengths))]
pub fn transfer_at(b: &[u8]) -> Transfer
    requires { (is_frame b.now ≡ true) × (get_or b.now 0 0 ≡ 6) }
    ensures { to_command (Payment result) ∷ [] ≡ commands_of b.now }
{
    Transfer {
        way: b[1],
        sender: code_at(b, 2),
        receiver: code_at(b, 8),
        amount: read(b, 14),
    }
}

// The command that a frame holds, its fields in the frame's order.
#[tactic(auto, using(crate::proofs::ByKind::frame_lengths, crate::proofs::ByKind::frame_some))]
pub fn command_of(b: &[u8]) -> Command
    requires { is_frame b.now ≡ true }
    ensures { to_command result ∷ [] ≡ commands_of b.now }
{
    // The kind byte is matched, the form that the scope names, as in `frame`.
    match b[0] {
        1 => Command::Bank(code_at(b, 1)),
        2 => Command::Branch(code_at(b, 1), code_at(b, 7), b[13], b[14]),
        3 => Command::Funding(code_at(b, 1), read(b, 7)),
        4 => Command::Withdrawal(code_at(b, 1), read(b, 7)),
        5 => Command::BankLimits(code_at(b, 1), read(b, 7), read(b, 15)),
        6 => Command::Payment(transfer_at(b)),
        7 => change(b),
        8 => deletion(b),
        9 => query(b),
        10 => Command::Opening(read(b, 1)),
        11 => search(b),
        12 => Command::Letters(code_at(b, 1), b[7]),
        19 => Command::Mark(code_at(b, 1)),
        _ => unreachable!(),
    }
}

// The same; none where the bytes are no frame.
#[tactic(auto, using(crate::proofs::ByKind::frame_none), unfolding(crate::specs::View::commands))]
pub fn parse(b: &[u8]) -> Option<Command>
    ensures { commands result ≡ commands_of b.now }
{
    if well_formed(b) {
        Some(command_of(b))
    } else {
        None
    }
}
