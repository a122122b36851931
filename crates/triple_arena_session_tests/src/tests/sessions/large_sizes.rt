//! Sizes at which a session that gives up late would show.

use super::kinds::{Kind, gives, tries};
use super::texts::{Asked, Dialogue, put};
use std::alloc::Global;
use std::fmt::Write as _;
use std::process::Abort;
use triple_arena_session::Command;

// Expects 210,000 commands that take no memory to be answered by as many replies.
fn answers_many(rt: &impl Abort, alloc: Global, kind: Kind) {
    let (mut commands, mut lines) = (Vec::new(alloc), String::new(alloc));
    for _ in 0..210_000 {
        commands.push(Command::Len).expect(rt, "memory");
        put(rt, &mut lines, "count ", 0, "\n");
    }
    let asked = Asked {
        name: "210,000 commands",
        commands: commands.as_slice(),
        lines: lines.as_str(),
        runs: &[],
    };
    tries(rt, alloc, kind, &asked);
}

#[test]
fn a_run_of_hundreds_of_thousands_of_commands_is_answered(rt: HostRuntime) {
    answers_many(&rt, rt.alloc(), Kind::General);
}

#[test]
fn a_strict_run_of_hundreds_of_thousands_of_commands_is_answered(rt: HostRuntime) {
    answers_many(&rt, rt.alloc(), Kind::Strict);
}

/// 210,000 insertions are answered by as many names, and the next text counts their entries.
#[test]
fn a_strict_text_of_hundreds_of_thousands_of_lines_is_answered(rt: HostRuntime) {
    gives(
        &rt,
        rt.alloc(),
        Kind::Strict,
        Some(7),
        210_000,
        "len\n",
        "count 210000\n",
    );
}

// Expects so many insertions to give as many names, each of which finds its entry, and the next one nothing.
fn finds_each(rt: &impl Abort, alloc: Global, count: usize, next: usize) {
    let mut found = Dialogue::new(alloc);
    found.get(rt, None, next);
    let (text, lines) = (found.text.as_str(), found.lines.as_str());
    gives(rt, alloc, Kind::General, None, count, text, lines);
}

#[test]
fn tens_of_thousands_of_names_are_given(rt: HostRuntime) {
    finds_each(&rt, rt.alloc(), 70_000, 70_001);
}

// Expects so many entries to be all shown.
fn shows_each(rt: &impl Abort, alloc: Global, count: usize) {
    let mut line = String::new(alloc);
    for index in 1..=count {
        let before = if index == 1 { "{" } else { ", " };
        let after = if index == count { "}\n" } else { "" };
        write!(line, "{before}P0[{index:x}](2): (7, None){after}").expect(rt, "memory");
    }
    let line = line.as_str();
    gives(rt, alloc, Kind::General, Some(7), count, "show\n", line);
}

#[test]
fn a_thousand_entries_are_shown(rt: HostRuntime) {
    shows_each(&rt, rt.alloc(), 1000);
}
