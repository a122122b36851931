//! Files that are written and read a byte at a time, by writers and readers of which each write and
//! each read fails in turn.

use crate::tests::devices::{Dripping, Trickling};
use crate::tests::files::FILE;
use std::io::ErrorKind;
use std::num::{NonZeroU64, NonZeroUsize};
use std::test::*;
use triple_arena_ptr::{P0, Ptr};
use triple_arena_snapshot::{LoadError, SaveError, load, save};
use triple_arena_test_kit::is;

type Value = (u32, Option<P0>);

/// How often in a row a read or a write is interrupted.
const OFTEN: usize = 1_000;

/// The value of the worked example.
fn value() -> Value {
    match (NonZeroUsize::new(2), NonZeroU64::new(3)) {
        (Some(index), Some(generation)) => (7, Some(P0::_from_raw(index, generation))),
        _ => (0, None),
    }
}

#[test]
fn a_file_is_read_a_byte_at_a_time(rt: HostRuntime) {
    let alloc = rt.alloc();
    let mut reader = Dripping::new(&FILE, 0, ErrorKind::Other, 0);
    let read: Value = load(alloc, &mut reader).expect(&rt, "the file");
    is(read, value()).expect(&rt, "the value");
}

#[test]
fn each_read_may_fail(rt: HostRuntime) {
    let alloc = rt.alloc();
    for reads_before in 0..=FILE.len() {
        let mut reader = Dripping::new(&FILE, reads_before, ErrorKind::TimedOut, 1);
        let refusal = load::<Value, Dripping>(alloc, &mut reader).err();
        is(refusal, Some(LoadError::Read)).expect(&rt, "a read that failed");
        let mut reader = Dripping::new(&FILE, reads_before, ErrorKind::OutOfMemory, 1);
        let refusal = load::<Value, Dripping>(alloc, &mut reader).err();
        is(refusal, Some(LoadError::Memory)).expect(&rt, "a reader without memory");
        let mut reader = Dripping::new(&FILE, reads_before, ErrorKind::Interrupted, OFTEN);
        let read: Value = load(alloc, &mut reader).expect(&rt, "the file");
        is(read, value()).expect(&rt, "the value, where reads were interrupted");
    }
}

#[test]
fn each_write_may_fail(rt: HostRuntime) {
    let alloc = rt.alloc();
    for writes_before in 0..FILE.len() {
        for failure in [Some(ErrorKind::TimedOut), None] {
            let mut writer = Trickling::new(Vec::new(alloc), writes_before, failure, 1);
            let refusal = save(&value(), alloc, &mut writer).err();
            is(refusal, Some(SaveError::Write)).expect(&rt, "a write that failed");
            let front = FILE.split_at(writes_before).0;
            is(writer.bytes.as_slice() == front, true).expect(&rt, "a front of the file");
        }
        let interrupted = Some(ErrorKind::Interrupted);
        let mut writer = Trickling::new(Vec::new(alloc), writes_before, interrupted, OFTEN);
        save(&value(), alloc, &mut writer).expect(&rt, "writes that were interrupted");
        is(writer.bytes.as_slice() == FILE.as_slice(), true).expect(&rt, "the file");
    }
}
