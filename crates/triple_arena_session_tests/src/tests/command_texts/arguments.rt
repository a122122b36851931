//! The words of arguments, where no case of the program has them.

use triple_arena_session::{Kind, parse_args, parse_mode};
use triple_arena_test_kit::is;

/// The second is the greatest of 64 bits.
#[test]
fn a_number_may_begin_with_zeros(rt: HostRuntime) {
    let rows = [
        ("limited", "007", Kind::Limited(7)),
        ("fixed", "0018446744073709551615", Kind::Fixed(usize::MAX)),
    ];
    for (word, number, kind) in rows {
        let words = [word, number];
        is(parse_args(&words), Some(kind)).expect(&rt, "a kind");
        is(parse_mode(&words), Some((false, kind))).expect(&rt, "a mode");
        let words = ["strict", word, number];
        is(parse_args(&words), None).expect(&rt, "no kind");
        is(parse_mode(&words), Some((true, kind))).expect(&rt, "a strict mode");
    }
}

/// A word of no bytes is a word.
#[test]
fn other_words_are_wrong(rt: HostRuntime) {
    let rows: [&[&str]; 11] = [
        &[""],
        &["2"],
        &["heap "],
        &["2", "limited"],
        &["Limited", "2"],
        &["limited", ""],
        &["limited", "+2"],
        &["limited", " 2"],
        &["fixed", "0x2"],
        &["fixed", "two"],
        &["strict", ""],
    ];
    for words in rows {
        is((words, parse_args(words)), (words, None)).expect(&rt, "no kind");
        is((words, parse_mode(words)), (words, None)).expect(&rt, "no mode");
    }
}
