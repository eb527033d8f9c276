// Frames written from limit messages, queries and searches, kinds 07 to 09 and 0b.
#![tactic(auto)]

ghost use Rattle.std.specs.Prelude.{◌≡◌, true, cond, ◌&&◌, [], ◌∷◌, ◌++◌, flat_map, ◌+◌, ◌*◌, ◌≤◌, length, take, leb};
ghost use Rattle.octets.specs.Octets.{big_endian};
ghost use Rattle.rules.specs.Command.{is_code, is_count};
ghost use Rattle.rules.specs.Command as Rule;
ghost use Rattle.rules.specs.Message.{digits};
ghost use Rattle.frame_fields.specs.Conditions.{conditions_in};
ghost use Rattle.frame.specs.Frame.{command_frame};
ghost use Rattle.command.specs.View.{to_header, items_from, ids_from};
ghost use Rattle.octet_writer.specs.Written.{HasRoom, Moved, MovedAtMost, Wrote};

use command::{ChangeItem, Conditions, Header, Rows, is_header};
use frame_code_writer::code_digits;
use frame_fields::conditions_end;
use octet_writer::Writer;
use octets::Octets;
use rules::is_count;

// Whether a message's header is in range, and the count behind it, at most MOST.
fn is_ranged<const MOST: usize>(h: Header, n: usize) -> bool
    ensures fits { result ≡ ((is_code h.sender && leb h.second 86399) && (leb 1 n && leb n MOST)) }
    ensures count { result ≡ true → n ≤ MOST }
{
    is_header(h) & is_count::<MOST>(n)
}

// The kind, which is the byte that is written, and the header of a message.
fn put_header(w: &mut Writer, kind: u8, h: Header)
    requires { HasRoom 47 w.old }
    ensures moved { Moved 47 w.old w.new }
    ensures wrote { Wrote (kind ∷ (digits 6 h.sender ++ (h.id ++ (big_endian 4 h.day ++ big_endian 4 h.second)))) w.old w.new }
{
    w.put(kind);
    w.put_all(&code_digits(h.sender));
    w.put_all(&h.id);
    w.put(h.day);
    w.put(h.second);
}

// The rows of a change or of a query, one behind the other.
fn put_rows<const N: usize, T: Octets<N> + Copy>(w: &mut Writer, rows: &[T])
    requires { HasRoom (length rows.now * N) w.old }
    ensures moved { Moved (length rows.now * N) w.old w.new }
    ensures wrote { Wrote (flat_map T.bytes rows.now) w.old w.new }
{
    for row in rows {
        w.put(*row);
    }
}

// Kind, header, count, rows: nothing of what is out of range.
fn write_rows<const N: usize, T: Octets<N> + Copy>(
    w: &mut Writer,
    kind: u8,
    h: Header,
    rows: &Rows<T>,
)
    requires { HasRoom (48 + 16 * N) w.old }
    ensures moved { MovedAtMost (48 + 16 * N) w.old w.new }
    ensures wrote { Wrote (cond ((is_code h.sender && leb h.second 86399) && is_count rows.now.count) (kind ∷ (digits 6 h.sender ++ (h.id ++ (big_endian 4 h.day ++ (big_endian 4 h.second ++ (rows.now.count ∷ flat_map T.bytes (take rows.now.count rows.now.rows))))))) []) w.old w.new }
{
    if !is_ranged::<16>(h, rows.count) {
        return;
    }
    put_header(w, kind, h);
    w.put(rows.count as u8);
    put_rows(w, &rows.rows[..rows.count]);
}

// 07: header, count, items. Like the others below, it writes the frame, or nothing of a command that is out of range.
pub fn write_change(w: &mut Writer, h: Header, items: Rows<ChangeItem>)
    requires { HasRoom 352 w.old }
    ensures moved { MovedAtMost 352 w.old w.new }
    ensures wrote { Wrote (command_frame (Rule.Change (to_header h) (items_from 0 items.count items.rows) ∷ [])) w.old w.new }
{
    write_rows(w, 7, h, &items);
}

// 08: header, account id, type.
pub fn write_deletion(w: &mut Writer, h: Header, account: [u8; 10], kind: u8)
    requires { HasRoom 352 w.old }
    ensures moved { MovedAtMost 352 w.old w.new }
    ensures wrote { Wrote (command_frame (Rule.Deletion (to_header h) account kind ∷ [])) w.old w.new }
{
    if !is_header(h) {
        return;
    }
    put_header(w, 8, h);
    w.put_all(&account);
    w.put(kind);
}

// 09: header, count, account ids.
pub fn write_query(w: &mut Writer, h: Header, ids: Rows<[u8; 10]>)
    requires { HasRoom 352 w.old }
    ensures moved { MovedAtMost 352 w.old w.new }
    ensures wrote { Wrote (command_frame (Rule.Query (to_header h) (ids_from 0 ids.count ids.rows) ∷ [])) w.old w.new }
{
    write_rows(w, 9, h, &ids);
}

// 0b: header, count, conditions, which stand in the array as in the frame.
pub fn write_search(w: &mut Writer, h: Header, conditions: Conditions)
    requires { HasRoom 352 w.old }
    ensures moved { MovedAtMost 352 w.old w.new }
    ensures wrote { Wrote (command_frame (Rule.Search (to_header h) (conditions_in conditions.count conditions.texts) ∷ [])) w.old w.new }
{
    if !is_ranged::<8>(h, conditions.count) {
        return;
    }
    let Some(end) = conditions_end(&conditions.texts, 0, conditions.count) else {
        return;
    };
    put_header(w, 11, h);
    w.put(conditions.count as u8);
    w.put_all(&conditions.texts[..end]);
}
