//! The writing of a reply.

ghost use Rattle.std.specs.Prelude.{◌≡◌, ◌<◌, ◌≤◌, ◌++◌, ◌∷◌, [], length, take, OnOk, OnErr, IfErr, IfSome, IfNone};
ghost use Rattle.std.specs.Io.Buffered.{writer_contents};
ghost use Rattle.std.specs.Io.KnownBytes.{Appends, Keeps};
ghost use Rattle.triple_arena_commands.specs.ReplyText.{reply_line};
ghost use Rattle.triple_arena_commands.specs.TextRun.{AppendsCut, IsFlushed};

use crate::reply::{Reply, parts_of};
use crate::reply_line::{LINE_ROOM, put_line};
use crate::text_error::TextError;
use std::io::{BufWriter, ErrorKind, Write};

/// The most times that one write is made which is interrupted each time.
const MOST_TRIES: u64 = 4294967296;

/// Writes the line of a reply, by writes alone. One that was interrupted is made again, up to
/// 4294967296 times.
///
/// The error is `Write`, where a write failed, took no byte, or was interrupted so often; then a front of
/// the line was written, but not all of it. What was written is said of a writer that tells its bytes.
pub fn write_reply<W: Write>(output: &mut W, reply: &Reply<u64>) -> Result<(), TextError>
    ensures ok { OnOk result
        (Appends (W.contents output.old) (W.contents output.new) (reply_line reply.now)) }
    ensures err { OnErr result
        (AppendsCut (W.contents output.old) (W.contents output.new) [] (reply_line reply.now)) }
    ensures write { IfErr result (λ e. e ≡ TextError.Write) }
{
    let mut room = [0; LINE_ROOM];
    write_reply_in(output, reply, &mut room)
}

/// Writes the line of a reply as [`write_reply`] does. The line is made in this room, whatever it held, so one
/// room serves many replies.
#[inline(always)]
pub fn write_reply_in<W: Write>(
    output: &mut W,
    reply: &Reply<u64>,
    room: &mut [u8; LINE_ROOM],
) -> Result<(), TextError>
    ensures ok { OnOk result
        (Appends (W.contents output.old) (W.contents output.new) (reply_line reply.now)) }
    ensures err { OnErr result
        (AppendsCut (W.contents output.old) (W.contents output.new) [] (reply_line reply.now)) }
    ensures write { IfErr result (λ e. e ≡ TextError.Write) }
{
    match parts_of(reply) {
        Ok(parts) => {
            let start = put_line(parts, room);
            write_line(output, &room[start..])
        }
        Err(text) => write_shown(output, text),
    }
}

// Writes all of these bytes, mostly by the one write that stands apart from the loop.
#[inline(always)]
fn write_line<W: Write>(output: &mut W, bytes: &[u8]) -> Result<(), TextError>
    requires { 0 < length bytes.now }
    ensures ok { OnOk result
        (Appends (W.contents output.old) (W.contents output.new) bytes.now) }
    ensures err { OnErr result
        (AppendsCut (W.contents output.old) (W.contents output.new) [] bytes.now) }
    ensures write { IfErr result (λ e. e ≡ TextError.Write) }
{
    match output.write(bytes) {
        Ok(count) if count == bytes.len() => Ok(()),
        Ok(0) => Err(TextError::Write),
        Ok(count) => write_all(output, &bytes[count..]),
        Err(e) if e.kind() == ErrorKind::Interrupted => write_all(output, bytes),
        Err(_) => Err(TextError::Write),
    }
}

// Writes a text of any length, and a line break.
#[tactic(auto, using(crate::proofs::Writes::appended_both, crate::proofs::Writes::cut_more, crate::proofs::Writes::cut_later))]
fn write_shown<W: Write>(output: &mut W, text: &str) -> Result<(), TextError>
    ensures ok { OnOk result
        (Appends (W.contents output.old) (W.contents output.new) (text.now ++ 10 ∷ [])) }
    ensures err { OnErr result
        (AppendsCut (W.contents output.old) (W.contents output.new) [] (text.now ++ 10 ∷ [])) }
    ensures write { IfErr result (λ e. e ≡ TextError.Write) }
{
    write_all(output, text.as_bytes())?;
    write_all(output, b"\n")
}

// Writes all of these bytes.
fn write_all<W: Write>(output: &mut W, bytes: &[u8]) -> Result<(), TextError>
    ensures ok { OnOk result
        (Appends (W.contents output.old) (W.contents output.new) bytes.now) }
    ensures err { OnErr result
        (AppendsCut (W.contents output.old) (W.contents output.new) [] bytes.now) }
    ensures write { IfErr result (λ e. e ≡ TextError.Write) }
{
    let mut written = 0;
    'writes: while written < bytes.len() {
        match write_some(output, &bytes[written..]) {
            Some(count) => written += count,
            None => return Err(TextError::Write),
        }
    }
    Ok(())
}

// How many of these bytes a write took. `None` where it failed, took none, or was interrupted so often
// that it isn't tried again.
#[inline(always)]
fn write_some<W: Write>(output: &mut W, bytes: &[u8]) -> Option<usize>
    ensures some { IfSome result (λ count. 0 < count) }
    ensures within { IfSome result (λ count. count ≤ length bytes.now) }
    ensures took { IfSome result
        (λ count. Appends (W.contents output.old) (W.contents output.new) (take count bytes.now)) }
    ensures failed { IfNone result (Keeps (W.contents output.old) (W.contents output.new)) }
{
    let mut tries = 0;
    'tries: while tries < MOST_TRIES {
        tries += 1;
        match output.write(bytes) {
            Ok(0) => return None,
            Ok(count) => return Some(count),
            Err(e) => {
                if e.kind() != ErrorKind::Interrupted {
                    return None;
                }
            }
        }
    }
    None
}

/// Flushes a buffered writer after a run of this outcome, and gives back the writer below it. A
/// failed flush is the error `Write` whatever the outcome was, and the bytes that it left are let
/// go: a front of what was written stands in the writer below.
#[tactic(auto, using(crate::specs::laws::TextLaws::keeps_emptied))]
pub fn flush_after<W: Write + Drop>(
    outcome: Result<(), TextError>,
    mut output: BufWriter<W>,
) -> (Result<(), TextError>, W)
    ensures { IsFlushed outcome result.0
        (writer_contents W.contents output) (W.contents result.1) }
{
    let flushed = output.flush();
    // A writer that is dropped would try to write once more what a failed flush left.
    let (inner, _left) = output.into_parts();
    match flushed {
        Ok(()) => (outcome, inner),
        Err(_) => (Err(TextError::Write), inner),
    }
}
