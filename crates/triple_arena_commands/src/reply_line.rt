//! The line of a reply, which is made on the stack, from its end to its start.

ghost use Rattle.std.specs.Prelude.{◌≡◌, ◌+◌, ◌≤◌, ◌++◌, ◌∷◌, [], length, drop, codes};
ghost use Rattle.std.specs.Fmt.{decimal};
ghost use Rattle.triple_arena_commands.specs.ReplyText.{link_text, wrapped_text};
ghost use Rattle.triple_arena_commands.specs.ReplyParts.{numbers_text};

use crate::reply::{Numbers, Parts};
use itoa::write_digits;

/// How many bytes the line of a reply may have, but for that of a text: a word of at most 20, a number, a space
/// and a link, ` wrapped` and a line break.
pub const LINE_ROOM: usize = 70;

/// Puts a line of these parts at the end of the room, and gives its start.
#[inline(always)]
pub(crate) fn put_line(parts: Parts, room: &mut [u8; LINE_ROOM]) -> usize
    requires { length parts.0.now ≤ 20 }
    ensures within { result ≤ 70 }
    ensures line { drop result room.new
        ≡ (parts.0.now ++ numbers_text parts.1 ++ wrapped_text parts.2) ++ 10 ∷ [] }
{
    let Parts(word, numbers, wrapped) = parts;
    let end = LINE_ROOM - 1;
    room[end] = b'\n';
    let end = put_wrapped(wrapped, room, end);
    let end = put_numbers(numbers, room, end);
    put(word, room, end)
}

// Each of these puts a text before the place `end`, and gives the place where it begins.
#[inline(always)]
fn put(text: &str, room: &mut [u8; LINE_ROOM], end: usize) -> usize
    requires { (length text.now ≤ end) × (end ≤ 70) }
    ensures start { result + length text.now ≡ end }
    ensures put { drop result room.new ≡ text.now ++ drop end room.old }
{
    let start = end - text.len();
    room[start..end].copy_from_slice(text.as_bytes());
    start
}

#[inline(always)]
fn put_wrapped(wrapped: bool, room: &mut [u8; LINE_ROOM], end: usize) -> usize
    requires { (8 ≤ end) × (end ≤ 70) }
    ensures start { (end ≤ result + 8) × (result ≤ end) }
    ensures put { drop result room.new ≡ wrapped_text wrapped ++ drop end room.old }
{
    if wrapped {
        put(" wrapped", room, end)
    } else {
        end
    }
}

#[inline(always)]
fn put_numbers(numbers: Numbers, room: &mut [u8; LINE_ROOM], end: usize) -> usize
    requires { (41 ≤ end) × (end ≤ 70) }
    ensures start { (end ≤ result + 41) × (result ≤ end) }
    ensures put { drop result room.new ≡ numbers_text numbers ++ drop end room.old }
{
    match numbers {
        Numbers::Nothing => end,
        Numbers::Number(number) => put_number(number, room, end),
        Numbers::Linked(datum, link) => {
            let end = put_link(link, room, end);
            let end = put(" ", room, end);
            put_number(datum, room, end)
        }
    }
}

#[inline(always)]
fn put_link(link: Option<usize>, room: &mut [u8; LINE_ROOM], end: usize) -> usize
    requires { (20 ≤ end) × (end ≤ 70) }
    ensures start { (end ≤ result + 20) × (result ≤ end) }
    ensures put { drop result room.new ≡ link_text link ++ drop end room.old }
{
    match link {
        Some(name) => put_number(name as u64, room, end),
        None => put("-", room, end),
    }
}

#[inline(always)]
fn put_number(number: u64, room: &mut [u8; LINE_ROOM], end: usize) -> usize
    requires { (20 ≤ end) × (end ≤ 70) }
    ensures start { (end ≤ result + 20) × (result ≤ end) }
    ensures put { drop result room.new ≡ decimal number ++ drop end room.old }
{
    write_digits(number, room, end)
}
