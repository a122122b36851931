//! Sessions where indexes or generations end; other commands are cases of the program.

use super::kinds::{Kind, gives, tries};
use super::texts::{Asked, Dialogue, Run, put};
use std::alloc::Global;
use std::process::Abort;
use triple_arena_session::Command;

/// There are 255 indexes of a byte, and room for no more.
#[test]
fn a_byte_index_has_its_greatest_capacity(rt: HostRuntime) {
    gives(
        &rt,
        rt.alloc(),
        Kind::ByteIndexes,
        Some(1),
        255,
        "insert 1 -\nwithin 1 -\ncapacity\nreserve 256\nlen\n",
        "no memory\nfull\ncount 255\nno memory\ncount 255\n",
    );
}

/// A text, and the lines of its replies.
type Row<'a> = (&'a str, &'a str, &'a str);

// Expects a new session of a kind to answer each text so when the byte counter is at its end, after 253
// raises.
fn answers_at_the_end(rt: &impl Abort, alloc: Global, kind: Kind, rows: &[Row<'_>]) {
    let mut raises = Dialogue::new(alloc);
    raises.insert_and_remove(rt, 253);
    for (name, text, lines) in rows {
        let runs = [raises.run(), Run::of(*text, *lines)];
        tries(rt, alloc, kind, &Asked::of(*name, &runs));
    }
}

/// The next raise tells of a wrap, which ends the run.
#[test]
fn each_command_that_raises_the_counter_tells_of_a_wrap(rt: HostRuntime) {
    let rows: &[Row<'_>] = &[
        (
            "invalidate",
            "insert 7 -\ninvalidate 254\nlen\n",
            "given 254\ngiven 255 wrapped\n",
        ),
        (
            "clear",
            "insert 7 -\nclear\nlen\n",
            "given 254\ncleared wrapped\n",
        ),
        (
            "compact",
            "insert 7 -\ncompact\nlen\n",
            "given 254\ncompacted wrapped\n",
        ),
        (
            "remove",
            "insert 7 -\nremove 254\nlen\n",
            "given 254\nremoved 7 - wrapped\n",
        ),
    ];
    answers_at_the_end(&rt, rt.alloc(), Kind::ByteGenerations, rows);
}

/// What would raise the counter is refused where an entry stands, and all else is answered. Without an
/// entry nothing raises it, and nothing is refused so.
#[test]
fn a_strict_session_refuses_what_would_raise_a_counter_at_its_end(rt: HostRuntime) {
    let rows: &[Row<'_>] = &[
        (
            "with an entry",
            "insert 5 -\nremove 254\ninvalidate 254\ncompact\nclear\nremove 1\nget 254\ninsert 6 254\nset 254 7 -\nlen\nshow\n",
            "given 254\nexhausted\nexhausted\nexhausted\nexhausted\ninvalid\nfound 5 -\ngiven 255\ndone\ncount 2\n{B[1](ff): (7, None), B[2](ff): (6, Some(B[1](ff)))}\n",
        ),
        (
            "without an entry",
            "clear\ncompact\ninvalidate 1\n",
            "cleared\ncompacted\ninvalid\n",
        ),
    ];
    answers_at_the_end(&rt, rt.alloc(), Kind::StrictByteGenerations, rows);
}

// Expects so many insertions, each before the removal of its name, to end in one whose removal wraps the
// counter, and a command after it not to be run.
fn ends_at_the_wrap(rt: &impl Abort, alloc: Global, kind: Kind, last: usize) {
    let (mut commands, mut lines) = (Vec::new(alloc), String::new(alloc));
    for name in 1..=last {
        commands.push(Command::Insert(1, None)).expect(rt, "memory");
        commands.push(Command::Remove(name)).expect(rt, "memory");
        let after = if name == last {
            "\nremoved 1 - wrapped\n"
        } else {
            "\nremoved 1 -\n"
        };
        put(rt, &mut lines, "given ", name, after);
    }
    commands.push(Command::Len).expect(rt, "memory");
    let asked = Asked {
        name: "a run up to a wrap",
        commands: commands.as_slice(),
        lines: lines.as_str(),
        runs: &[Run::of("get 255\nlen\n", "nothing\ncount 0\n")],
    };
    tries(rt, alloc, kind, &asked);
}

/// The byte counter begins at 2, so the 254th removal wraps it, and what follows isn't run.
#[test]
fn a_run_ends_at_a_wrap(rt: HostRuntime) {
    ends_at_the_wrap(&rt, rt.alloc(), Kind::ByteGenerations, 254);
}
