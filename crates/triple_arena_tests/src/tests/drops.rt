//! Values that are counted: each is dropped once, so that there are always as many as arenas hold. Stacks drop their own
//! items, as tests of stacks count; what an arena does itself is the same over each of them.

ghost use Rattle.std.specs.Prelude.{◌≡◌, ⊤};

use std::alloc::{AllocError, Global};
use std::cell::Cell;
use std::marker::Model;
use std::process::Abort;
use std::rc::Rc;
use triple_arena::{
    Arena, ArenaCloneFromWith, ArenaDirectInsertEntryTrait, ArenaInsertTrait, ArenaSlot,
    ArenaTrait, CompactArenaTrait,
};
use triple_arena_direct::{StrictArena, retain};
use triple_arena_direct_arena::DirectArena;
use triple_arena_ptr::{P0, Ptr, PtrGen};
use triple_arena_stack::NonZeroInxLimitedVec;
use triple_arena_test_kit::{inx, is, pointer};

// How many values there are.
type Live = Rc<Cell<u64>>;

// A value that is counted; where a clone has no count it is missed in the numbers.
struct Value {
    live: Option<Live>,
}

// Clauses see nothing of a value, so that a clone equals its original.
impl Model for Value {
    ghost Value = { ⊤ };

    ghost view = { λ _. tt };
}

impl Drop for Value {
    fn drop(self) {
        let Value { live } = self;
        if let Some(live) = live {
            live.set(live.get().wrapping_sub(1));
        }
    }
}

impl Clone for Value {
    ghost is_clone = { λ t u. u ≡ t };

    fn clone(&self) -> Result<Value, AllocError> {
        let live = self.live.clone()?;
        if let Some(live) = &live {
            live.set(live.get().wrapping_add(1));
        }
        Ok(Value { live })
    }
}

type Values = Arena<P0, Value>;

// No value, which is counted.
fn no_values(rt: &impl Abort, alloc: Global) -> Live {
    Rc::new(alloc, Cell::new(0)).expect(rt, "memory")
}

// A new value, which is counted.
fn new_value(live: &Live) -> Value {
    live.set(live.get().wrapping_add(1));
    Value {
        live: live.clone().ok(),
    }
}

// Takes one value out by a drain, which is let go then: whether that one wasn't dropped before.
fn takes_one<A: CompactArenaTrait<P0, Value>>(arena: &mut A, live: &Live) -> bool {
    let before = live.get();
    let mut drain = arena.drain();
    let taken = drain.next();
    let is_held = taken.is_some() && live.get() == before;
    drop(taken);
    is_held && live.get() == before.wrapping_sub(1)
}

// Writes another value over that under a pointer: whether there is one.
fn writes_over<A: CompactArenaTrait<P0, Value>>(arena: &mut A, p: P0, value: Value) -> bool {
    match arena.get_mut(p) {
        Some(held) => {
            *held = value;
            true
        }
        None => false,
    }
}

// Each call that ends or replaces a value, of an arena with values at its first four indexes under the
// generation 2, which is without values then.
fn each_ending<A: CompactArenaTrait<P0, Value>>(rt: &impl Abort, arena: &mut A, live: &Live) {
    is(live.get(), 4).expect(rt, "the count");
    is(arena.len(), 4).expect(rt, "the length");
    let is_written = writes_over(arena, pointer(1, 2), new_value(live));
    is(is_written, true).expect(rt, "whether the first is there");
    is(arena.remove(pointer(1, 1)).is_invalid(), true).expect(rt, "whether a pointer is refused");
    arena.reallocate_min_capacity(4).expect(rt, "memory");
    is(live.get(), 4).expect(rt, "the count");
    // a value that is taken out isn't dropped before
    let taken = arena.remove(pointer(3, 2));
    is(taken.is_success(), true).expect(rt, "whether the third is taken");
    is(live.get(), 4).expect(rt, "the count");
    drop(taken);
    drop(arena.remove_inx(inx(4)));
    let renewed = arena.invalidate(pointer(2, 2));
    is(renewed.is_success(), true).expect(rt, "whether the second is there");
    is(live.get(), 2).expect(rt, "the count");
    drop(arena.compress(false));
    is(live.get(), 2).expect(rt, "the count");
    is(takes_one(arena, live), true).expect(rt, "whether what is held stays");
    is(live.get(), 0).expect(rt, "the count");
}

// An arena of four places with four values, of which a fifth is refused.
fn four(rt: &impl Abort, alloc: Global, live: &Live) -> Values {
    let mut arena: Values = Arena::on_heap(alloc);
    arena.reallocate_min_capacity(4).expect(rt, "memory");
    for _ in 0..2 {
        arena.insert(new_value(live)).expect(rt, "a place");
    }
    is(arena.try_insert(new_value(live)).is_ok(), true).expect(rt, "a place");
    for is_refused in [false, true] {
        let told = arena.insert_within_capacity(new_value(live));
        is(told.is_err(), is_refused).expect(rt, "whether the capacity refuses it");
    }
    arena
}

// Ends four values, and then all of three but the second by `retain`: whether that wrapped no counter.
fn end_each(rt: &impl Abort, arena: &mut Values, live: &Live) -> bool {
    each_ending(rt, arena, live);
    for _ in 0..3 {
        arena.insert(new_value(live)).expect(rt, "a place");
    }
    retain(arena, |p, _value| p.inx() == inx(2)).is_success()
}

#[test]
fn each_value_of_an_arena_is_dropped_once(rt: HostRuntime) {
    let live = no_values(&rt, rt.alloc());
    let mut arena = four(&rt, rt.alloc(), &live);
    is(end_each(&rt, &mut arena, &live), true).expect(&rt, "whether no counter wrapped");
    is([arena.len() as u64, live.get()], [1, 1]).expect(&rt, "the length and the count");
    drop(arena.clear());
    is(live.get(), 0).expect(&rt, "the count");
    arena.insert(new_value(&live)).expect(&rt, "a place");
    drop(arena);
    is(live.get(), 0).expect(&rt, "the count");
}

// An arena that has no way to grow.
type Limited = Arena<P0, Value, NonZeroInxLimitedVec<ArenaSlot<P0, Value>>>;

// Whether it refuses each insertion, and how many values there are behind each; the last one comes back.
fn refusals(alloc: Global, live: &Live) -> ([bool; 3], [u64; 3]) {
    let mut arena: Limited = Arena::new(alloc);
    let first = arena.insert(new_value(live)).is_err();
    let behind_first = live.get();
    let second = arena.insert_reallocating(new_value(live)).is_err();
    let behind_second = live.get();
    let given_back = arena.try_insert(new_value(live));
    let counts = [behind_first, behind_second, live.get()];
    ([first, second, given_back.is_err()], counts)
}

#[test]
fn a_value_that_growth_refuses_is_dropped_once(rt: HostRuntime) {
    let live = no_values(&rt, rt.alloc());
    let told = refusals(rt.alloc(), &live);
    is(told, ([true; 3], [0, 0, 1])).expect(&rt, "the refusals and the counts");
    is(live.get(), 0).expect(&rt, "the count without the value that came back");
}

type Direct = DirectArena<P0, Value>;

// Inserts by an entry, and writes another value over it: whether there was a place.
fn is_placed(arena: &mut Direct, p: P0, live: &Live) -> bool {
    match arena.direct_insert_within_capacity(p) {
        Ok(entry) => {
            *entry.insert(new_value(live)) = new_value(live);
            true
        }
        Err(_) => false,
    }
}

// A direct arena of so many places, all taken, the last one first.
fn placed(rt: &impl Abort, alloc: Global, places: usize, live: &Live) -> Direct {
    let mut arena: Direct = DirectArena::with_min_capacity(alloc, places).expect(rt, "memory");
    is(is_placed(&mut arena, pointer(places, 2), live), true).expect(rt, "the last place");
    for index in 1..places {
        is(is_placed(&mut arena, pointer(index, 2), live), true).expect(rt, "a place");
    }
    arena
}

// A clone of a value, unless it stands at the second index.
fn clone_unless_second(p: P0, value: &Value) -> Result<Value, AllocError> {
    if p.inx() == inx(2) {
        return Err(AllocError);
    }
    value.clone()
}

// Ends four values of a direct arena, and has an arena mirror a value that is put in then, under the generation 9. There
// come another and a direct arena of one value. Both values are cloned to that one, then but the first of them, and last
// they go over. Whether each copy was made, and how many values there are behind it.
fn end_and_copy(
    rt: &impl Abort,
    alloc: Global,
    arena: &mut Direct,
    mirror: &mut Values,
    live: &Live,
) -> [(bool, u64); 4] {
    each_ending(rt, arena, live);
    is(is_placed(arena, pointer(1, 9), live), true).expect(rt, "the first place");
    let told = mirror.clone_from_with(&*arena, |_p, value: &Value| value.clone());
    let mirrored = (told.is_ok(), live.get());
    is(is_placed(arena, pointer(2, 9), live), true).expect(rt, "the second place");
    let mut target = placed(rt, alloc, 1, live);
    let told = target.clone_from_with(&*arena, |_p, value: &Value| value.clone());
    let cloned = (told.is_ok(), live.get());
    let told = target.clone_from_with(&*arena, |p, value: &Value| clone_unless_second(p, value));
    let cloned_in_part = (told.is_ok(), live.get());
    let two = <P0 as Ptr>::Gen::two();
    let told = target.transfer_reallocating(two, arena, |_old, taken, _new| taken.allow());
    [mirrored, cloned, cloned_in_part, (told.is_ok(), live.get())]
}

// Of two values, the last goes with the free slots at the end, and the other as all are cleared: how many are left each
// time.
fn clear(arena: &mut Direct, live: &Live) -> [u64; 2] {
    drop(arena.remove(pointer(4, 2)));
    arena.pop_free_end_slots(2);
    let left = live.get();
    drop(arena.clear());
    [left, live.get()]
}

#[test]
fn each_value_of_a_direct_arena_is_dropped_once(rt: HostRuntime) {
    let live = no_values(&rt, rt.alloc());
    let mut arena = placed(&rt, rt.alloc(), 4, &live);
    let mut mirror: Values = Arena::on_heap(rt.alloc());
    let told = end_and_copy(&rt, rt.alloc(), &mut arena, &mut mirror, &live);
    is(told, [(true, 2), (true, 5), (false, 4), (true, 3)]).expect(&rt, "the copies");
    // the values that went over are dropped with their arena
    drop(mirror);
    is(live.get(), 0).expect(&rt, "the count");
    for index in [4, 2] {
        is(is_placed(&mut arena, pointer(index, 2), &live), true).expect(&rt, "a place");
    }
    is(clear(&mut arena, &live), [1, 0]).expect(&rt, "the counts");
    is(is_placed(&mut arena, pointer(3, 2), &live), true).expect(&rt, "a place");
    drop(arena);
    is(live.get(), 0).expect(&rt, "the count");
}

#[test]
fn an_arena_that_is_cloned_from_a_direct_one_begins_at_two(rt: HostRuntime) {
    let live = no_values(&rt, rt.alloc());
    let mut arena = placed(&rt, rt.alloc(), 4, &live);
    let mut mirror: Values = Arena::on_heap(rt.alloc());
    drop(end_and_copy(&rt, rt.alloc(), &mut arena, &mut mirror, &live));
    is(mirror.contains(pointer(1, 9)), true).expect(&rt, "whether the pointer is the same");
    is([mirror.len(), mirror.capacity()], [1, 1]).expect(&rt, "the length and the capacity");
    is(mirror.insert(new_value(&live)), Ok(pointer(2, 2))).expect(&rt, "the next pointer");
}

type Strict = StrictArena<P0, Value>;

// Of four values the second is taken out by `retain`, and the first of the others by a drain, which is let go then:
// whether each is dropped then, and not before.
fn end_strictly(arena: &mut Strict, live: &Live) -> bool {
    let told = arena.retain(|p, _value| p.inx() != inx(2));
    let is_retained = told.is_ok() && live.get() == 3;
    match arena.drain() {
        Ok(mut drain) => {
            let taken = drain.next();
            let is_held = taken.is_some() && live.get() == 3;
            drop(taken);
            is_retained && is_held && live.get() == 2
        }
        Err(_refusal) => false,
    }
}

#[test]
fn each_value_of_a_strict_arena_is_dropped_once(rt: HostRuntime) {
    let live = no_values(&rt, rt.alloc());
    let mut arena: Strict = StrictArena::new(rt.alloc());
    for _ in 0..4 {
        arena.insert(new_value(&live)).expect(&rt, "memory");
    }
    is(end_strictly(&mut arena, &live), true).expect(&rt, "whether what is held stays");
    is(live.get(), 0).expect(&rt, "the count");
}
