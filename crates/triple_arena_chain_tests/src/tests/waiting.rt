//! Waiting lists of users.

use triple_arena::Arena;
use triple_arena_base::InvalidationOption;
use triple_arena_chain::{ChainError, Chains, Link};
use triple_arena_chain_uses::waiting::{enqueue, serve};
use triple_arena_ptr::P0;
use triple_arena_test_kit::is;

type Lists = Chains<P0, u64, Arena<P0, Link<P0, u64>>>;

// What is behind the entries of a list of two, before and after the first is served, and the number that it had.
#[test]
fn numbers_wait_and_are_served(rt: HostRuntime) {
    let mut lists: Lists = Chains::new(rt.alloc());
    let first = enqueue(&mut lists, None, 7).expect(&rt, "memory");
    let second = enqueue(&mut lists, Some(first), 8).expect(&rt, "memory");
    let between = enqueue(&mut lists, Some(first), 9);
    is(between, Err(ChainError::Taken)).expect(&rt, "a place that is taken");
    let behind = [lists.after(first), lists.after(second)];
    is(behind, [Some(second), None]).expect(&rt, "what is behind both");
    let served = [serve(&mut lists, first), serve(&mut lists, first)];
    let wanted = [Ok(InvalidationOption::Success(7)), Err(ChainError::NoEntry)];
    is(served, wanted).expect(&rt, "what is served");
    let behind_none = enqueue(&mut lists, Some(first), 9);
    is(behind_none, Err(ChainError::NoEntry)).expect(&rt, "behind one that is gone");
    is(lists.get(second).copied(), Some(8)).expect(&rt, "the number that waits");
}
