//! Each type once with ample memory, as a body that always refuses is proved too; and bytes that are
//! no value's.

ghost use Rattle.std.specs.Prelude.{codes};

use crate::tests::flip_flop::FlipFlop;
use std::alloc::Global;
use std::num::{NonZeroU8, NonZeroU16, NonZeroU32, NonZeroU64, NonZeroU128, NonZeroUsize};
use std::test::*;
use triple_arena_base::AllocError;
use triple_arena_ptr::{
    NamedPtr, P0, P1, P2, P3, P4, P5, Ptr, PtrKind, PtrName, PtrNoGen, Q2, SmallPtr,
};
use triple_arena_snapshot::{Codec, DecodeError, Fault, from_bytes, to_bytes};

/// The name of pointers of two widths.
#[derive(Hash, Clone, Copy, PartialEq, Eq, PartialOrd, Ord)]
struct Uneven;

impl PtrName for Uneven {
    ghost type_name = { codes "Uneven" };

    fn name() -> &'static str {
        "Uneven"
    }
}

type Short = NamedPtr<Uneven, u16, u8>;

type Bare = NamedPtr<Uneven, u32, ()>;

type Long = NamedPtr<Uneven, u8, u128>;

const WIDE: u128 = 0x0102030405060708090a0b0c0d0e0f10;

const WIDE_BYTES: [u8; 16] = [16, 15, 14, 13, 12, 11, 10, 9, 8, 7, 6, 5, 4, 3, 2, 1];

/// What went otherwise.
#[derive(Debug, Drop)]
pub enum Unlike {
    Refused(AllocError),
    Written(Vec<u8>),
    Unread(DecodeError),
    Read,
}

impl From<AllocError> for Unlike {
    fn from(refusal: AllocError) -> Unlike {
        Unlike::Refused(refusal)
    }
}

impl From<DecodeError> for Unlike {
    fn from(refusal: DecodeError) -> Unlike {
        Unlike::Unread(refusal)
    }
}

/// That the value's bytes are these, and that it is read of them.
pub fn has_bytes<T: Codec + PartialEq + Drop>(
    alloc: Global,
    value: &T,
    bytes: &[u8],
) -> Result<(), Unlike> {
    let written = to_bytes(value, alloc)?;
    if written.as_slice() != bytes {
        return Err(Unlike::Written(written));
    }
    let read: T = from_bytes(alloc, bytes)?;
    if read != *value {
        return Err(Unlike::Read);
    }
    Ok(())
}

/// That bytes are refused for this fault, and how many are left where it is.
pub fn is_refused<T: Codec + Drop>(
    alloc: Global,
    bytes: &[u8],
    fault: Fault,
    left: usize,
) -> Result<(), Unlike> {
    match from_bytes::<T>(alloc, bytes) {
        Ok(_) => Err(Unlike::Read),
        Err(refusal) if refusal == DecodeError::Malformed(fault, left) => Ok(()),
        Err(refusal) => Err(Unlike::Unread(refusal)),
    }
}

#[test]
fn each_number_has_its_bytes(rt: HostRuntime) {
    let alloc = rt.alloc();
    let flags = ((), (false, true));
    has_bytes(alloc, &flags, &[0, 0, 1]).expect(&rt, "(), false and true");
    let short = (0xabu8, (0x0102u16, 0x01020304u32));
    has_bytes(alloc, &short, &[0xab, 2, 1, 4, 3, 2, 1]).expect(&rt, "u8, u16 and u32");
    let long = (0x0102030405060708u64, 0x0201usize);
    has_bytes(
        alloc,
        &long,
        &[8, 7, 6, 5, 4, 3, 2, 1, 1, 2, 0, 0, 0, 0, 0, 0],
    )
    .expect(&rt, "u64 and usize");
    has_bytes(alloc, &WIDE, &WIDE_BYTES).expect(&rt, "u128");
    let short = (NonZeroU8::MIN, (NonZeroU16::MIN, NonZeroU32::MIN));
    has_bytes(alloc, &short, &[1, 1, 0, 1, 0, 0, 0]).expect(&rt, "NonZeroU8, U16 and U32");
    let long = (NonZeroU64::MIN, NonZeroUsize::MIN);
    has_bytes(
        alloc,
        &long,
        &[1, 0, 0, 0, 0, 0, 0, 0, 1, 0, 0, 0, 0, 0, 0, 0],
    )
    .expect(&rt, "NonZeroU64 and NonZeroUsize");
    has_bytes(alloc, &NonZeroU128::MAX, &[255; 16]).expect(&rt, "NonZeroU128");
}

#[test]
fn each_signed_number_has_its_bytes(rt: HostRuntime) {
    let alloc = rt.alloc();
    let short = (-1i8, (i16::MIN, -2i32));
    has_bytes(alloc, &short, &[0xff, 0, 0x80, 0xfe, 0xff, 0xff, 0xff]).expect(
        &rt,
        "i8, i16 and i32",
    );
    let long = (0x0102030405060708i64, -256isize);
    has_bytes(
        alloc,
        &long,
        &[8, 7, 6, 5, 4, 3, 2, 1, 0, 255, 255, 255, 255, 255, 255, 255],
    )
    .expect(&rt, "i64 and isize");
    has_bytes(alloc, &-1i128, &[0xff; 16]).expect(&rt, "i128");
}

#[test]
fn each_pointer_has_its_bytes(rt: HostRuntime) {
    let alloc = rt.alloc();
    let (word, byte) = (NonZeroUsize::MIN, NonZeroU8::MAX);
    let (short, last) = (NonZeroU16::MIN, NonZeroU64::MAX);
    let wide = (P0::_from_raw(word, last), Q2::_from_raw(word, last));
    has_bytes(
        alloc,
        &wide,
        &[
            1, 0, 0, 0, 0, 0, 0, 0, 255, 255, 255, 255, 255, 255, 255, 255, 1, 0, 0, 0, 0, 0, 0, 0,
            255, 255, 255, 255, 255, 255, 255, 255,
        ],
    )
    .expect(&rt, "P0 and Q2");
    let uneven = (
        P1::_from_raw(short, last),
        P2::_from_raw(word, NonZeroU16::MAX),
    );
    has_bytes(
        alloc,
        &uneven,
        &[
            1, 0, 255, 255, 255, 255, 255, 255, 255, 255, 1, 0, 0, 0, 0, 0, 0, 0, 255, 255,
        ],
    )
    .expect(&rt, "P1 and P2");
    let small = (
        P3::_from_raw(short, NonZeroU16::MAX),
        SmallPtr::_from_raw(NonZeroU32::MIN, NonZeroU32::MAX),
    );
    has_bytes(
        alloc,
        &small,
        &[1, 0, 255, 255, 1, 0, 0, 0, 255, 255, 255, 255],
    )
    .expect(&rt, "P3 and SmallPtr");
    let bare = (P4::_from_raw(word, ()), P5::_from_raw(byte, ()));
    has_bytes(alloc, &bare, &[1, 0, 0, 0, 0, 0, 0, 0, 255]).expect(&rt, "P4 and P5");
}

#[test]
fn a_pointer_made_of_others_has_its_bytes(rt: HostRuntime) {
    let alloc = rt.alloc();
    let (inx, generation) = (NonZeroU16::MIN, NonZeroU8::MAX);
    has_bytes(alloc, &Short::_from_raw(inx, generation), &[1, 0, 255]).expect(&rt, "a named one");
    has_bytes(
        alloc,
        &Bare::_from_raw(NonZeroU32::MAX, ()),
        &[255, 255, 255, 255],
    )
    .expect(&rt, "a named one without a generation");
    let long = Long::_from_raw(NonZeroU8::MAX, NonZeroU128::MIN);
    has_bytes(
        alloc,
        &long,
        &[255, 1, 0, 0, 0, 0, 0, 0, 0, 0, 0, 0, 0, 0, 0, 0, 0],
    )
    .expect(&rt, "a named one of a long generation");
    has_bytes(alloc, &PtrNoGen::<P1>::_from_raw(inx, ()), &[1, 0]).expect(
        &rt,
        "one whose generation was left out",
    );
    has_bytes(
        alloc,
        &PtrKind::<P3, 1>::_from_raw(inx, NonZeroU16::MAX),
        &[1, 0, 255, 255],
    )
    .expect(&rt, "one of a kind");
    is_refused::<Short>(alloc, &[1, 0, 0], Fault::Zero, 1).expect(&rt, "no generation");
    is_refused::<PtrNoGen<P1>>(alloc, &[0, 0], Fault::Zero, 2).expect(&rt, "no index");
}

#[test]
fn what_holds_values_has_their_bytes(rt: HostRuntime) {
    let alloc = rt.alloc();
    has_bytes(alloc, &(1u8, Some(true)), &[1, 1, 1]).expect(&rt, "a pair");
    has_bytes(alloc, &None::<u8>, &[0]).expect(&rt, "None");
    let numbers = Vec::from_slice(alloc, &[1u8, 2]).expect(&rt, "memory");
    has_bytes(alloc, &numbers, &[2, 0, 0, 0, 0, 0, 0, 0, 1, 2]).expect(&rt, "a vector");
    let text = String::from_str(alloc, "è").expect(&rt, "memory");
    has_bytes(alloc, &text, &[2, 0, 0, 0, 0, 0, 0, 0, 0xc3, 0xa8]).expect(&rt, "a text");
    let first = P0::_from_raw(NonZeroUsize::MIN, NonZeroU64::MIN);
    let flip_flop = FlipFlop {
        inputs: Vec::from_slice(alloc, &[first]).expect(&rt, "memory"),
        clock: None,
        switched: 7,
    };
    has_bytes(
        alloc,
        &flip_flop,
        &[
            1, 0, 0, 0, 0, 0, 0, 0, 1, 0, 0, 0, 0, 0, 0, 0, 1, 0, 0, 0, 0, 0, 0, 0, 0, 7, 0, 0, 0,
            0, 0, 0, 0,
        ],
    )
    .expect(&rt, "a struct");
}

#[test]
fn bad_bytes_are_refused(rt: HostRuntime) {
    let alloc = rt.alloc();
    is_refused::<()>(alloc, &[], Fault::Cut, 0).expect(&rt, "no bytes");
    is_refused::<()>(alloc, &[1, 0], Fault::Flag, 2).expect(&rt, "() isn't 1");
    is_refused::<bool>(alloc, &[2], Fault::Flag, 1).expect(&rt, "no truth");
    is_refused::<Option<u8>>(alloc, &[2, 0], Fault::Flag, 2).expect(&rt, "no option");
    is_refused::<Option<u8>>(alloc, &[1], Fault::Cut, 0).expect(&rt, "nothing behind the flag");
    is_refused::<u32>(alloc, &[1, 2, 3], Fault::Cut, 3).expect(&rt, "three bytes of four");
    is_refused::<u8>(alloc, &[1, 2, 3], Fault::Trailing, 2).expect(&rt, "two more");
    is_refused::<P5>(alloc, &[0], Fault::Zero, 1).expect(&rt, "no index");
    is_refused::<P3>(alloc, &[1, 0, 0, 0], Fault::Zero, 2).expect(&rt, "no generation");
    is_refused::<Vec<u8>>(
        alloc,
        &[255, 255, 255, 255, 255, 255, 255, 255, 1],
        Fault::Cut,
        0,
    )
    .expect(&rt, "fewer than the count");
    is_refused::<String>(alloc, &[2, 0, 0, 0, 0, 0, 0, 0, 0xc3], Fault::Cut, 1).expect(
        &rt,
        "half a letter",
    );
    is_refused::<String>(alloc, &[1, 0, 0, 0, 0, 0, 0, 0, 0xc3, 1], Fault::Text, 2).expect(
        &rt,
        "no letter",
    );
}
