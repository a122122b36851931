//! Copies of an arena into another.

ghost use Rattle.std.specs.Prelude.{◌≡◌};

use crate::on_heap::OnHeap;
use crate::state::State;
use std::alloc::{AllocError, Global};
use triple_arena::{Arena, ArenaCloneFromWith, CompactArenaTrait};
use triple_arena_base::{CloneFromError, ReallocationError};
use triple_arena_direct::DirectArena;
use triple_arena_ptr::{P0, Ptr, PtrGen};

/// A copy.
#[derive(Clone, Copy)]
pub enum Copying {
    /// By `clone_from`.
    Cloned,
    /// By `clone_from_with`, whose closure clones each value.
    ByClosure,
    /// By `transfer_reallocating`, under the second generation.
    Transferred,
}

/// What refuses a copy.
#[derive(Clone, Copy, PartialEq)]
pub enum Refusal {
    Room,
    Value,
    Limit,
}

/// What refuses a copy, if something does, and how often its closure was called.
pub type Copied = (Option<Refusal>, usize);

/// An arena to which another is copied. It has no clauses, so that what is generic over it is quick to prove.
pub trait Goal {
    /// What a copy into it tells.
    fn take(&mut self, source: &mut OnHeap, copying: Copying) -> Copied;

    /// The state of a clone, or what refuses it.
    fn state_of_clone(&self, alloc: Global) -> Result<State, Refusal>;
}

fn refusal_of_room(refused: ReallocationError) -> Refusal {
    match refused {
        ReallocationError::AllocError => Refusal::Room,
        ReallocationError::BeyondMaxCapacity => Refusal::Limit,
    }
}

/// What refuses a clone.
pub fn refusal_of<E: Drop>(refused: CloneFromError<E>) -> Refusal {
    match refused {
        CloneFromError::Reallocation(refused) => refusal_of_room(refused),
        CloneFromError::Map(_refused) => Refusal::Value,
    }
}

// What refused a clone, if something did.
fn refusal_in<E: Drop>(done: Result<(), CloneFromError<E>>) -> Option<Refusal> {
    match done {
        Ok(()) => None,
        Err(refused) => Some(refusal_of(refused)),
    }
}

// What a transfer tells.
fn told_transferred(done: Result<(), ReallocationError>) -> Copied {
    match done {
        Ok(()) => (None, 0),
        Err(refused) => (Some(refusal_of_room(refused)), 0),
    }
}

// A clone by a closure.
fn clone_by_closure<T: Clone + Drop, A: ArenaCloneFromWith<P0, T>, B: CompactArenaTrait<P0, T>>(
    target: &mut A,
    source: &B,
) -> Copied {
    let mut calls = 0usize;
    let done = target.clone_from_with(source, |_p, value: &T| -> Result<T, AllocError> {
        calls = calls.saturating_add(1);
        value.clone()
    });
    (refusal_in(done), calls)
}

// What a clone into any arena tells.
fn clone_into<T: Clone + Drop, A: ArenaCloneFromWith<P0, T>, B: CompactArenaTrait<P0, T>>(
    target: &mut A,
    source: &B,
    copying: Copying,
) -> Copied
    requires { (x y : T) → T.is_clone x y → y ≡ x }
{
    match copying {
        Copying::ByClosure => clone_by_closure(target, source),
        _ => (refusal_in(target.clone_from(source)), 0),
    }
}

/// What a copy tells.
pub fn copy<T: Clone + Drop>(
    target: &mut Arena<P0, T>,
    source: &mut Arena<P0, T>,
    copying: Copying,
) -> Copied
    requires { (x y : T) → T.is_clone x y → y ≡ x }
{
    match copying {
        Copying::Transferred => {
            let second = <P0 as Ptr>::Gen::two();
            let done = target.transfer_reallocating(
                second,
                source,
                |_old, taken, _new| taken.allow(),
            );
            told_transferred(done)
        }
        _ => clone_into(target, &*source, copying),
    }
}

/// What one into a direct arena tells.
pub fn copy_directly<T: Clone + Drop>(
    target: &mut DirectArena<P0, T>,
    source: &mut Arena<P0, T>,
    copying: Copying,
) -> Copied
    requires { (x y : T) → T.is_clone x y → y ≡ x }
{
    match copying {
        Copying::Transferred => {
            let second = <P0 as Ptr>::Gen::two();
            let done = target.transfer_reallocating(
                second,
                source,
                |_old, taken, _new| taken.allow(),
            );
            told_transferred(done)
        }
        _ => clone_into(target, &*source, copying),
    }
}
