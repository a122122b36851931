//! A book of guests, which names each by a pointer that it never gave before.

ghost use Rattle.std.specs.Prelude.{◌≡◌, ◌≢◌, ◌++◌, ◌∷◌, ◌&&◌, ◌||◌, [], false, map, None, Some, is_some, IfOk, OnErr, option_copied};
ghost use Rattle.triple_arena_ptr.specs.Pointers.{Pointer};
ghost use Rattle.triple_arena.specs.Entries.{look_up};
ghost use Rattle.triple_arena.specs.Histories.{has, AreDistinct};
ghost use Rattle.triple_arena_uses.specs.Entities.{p0_numbers};
ghost use Rattle.triple_arena_uses.specs.Guests.{BookState, is_before_wrap};

use std::alloc::Global;
use std::marker::Model;
use triple_arena::Arena;
use triple_arena_base::{InvalidationResult, ReallocationError};
use triple_arena_ptr::P0;

/// A book of guests: who is there, and the pointer of everyone who ever came.
///
/// Until the counter of generations wraps, no pointer stands in it twice.
#[derive(Drop)]
pub struct GuestBook {
    guests: Arena<P0, u32>,
    // The pointer of each guest who came, in their order.
    came: Vec<P0>,
    // Whether the counter wrapped.
    wrapped: bool,
}

impl Model for GuestBook {
    ghost use Rattle.std.specs.Prelude.{map};
    ghost use Rattle.triple_arena_uses.specs.Entities.{p0_numbers};
    ghost use Rattle.triple_arena_uses.specs.Guests.{BookState, ListsAll};

    ghost Value = { BookState };

    ghost view = { λ book. record {
      guests = book.guests;
      came = map p0_numbers book.came.items;
      wrapped = book.wrapped;
    } };

    ghost invariant = { λ book. ListsAll (record {
      guests = book.guests;
      came = map p0_numbers book.came.items;
      wrapped = book.wrapped;
    }) };
}

impl GuestBook {
    /// A book without guests.
    pub fn new(alloc: Global) -> Self
        ensures came { result.came ≡ [] }
        ensures wrapped { result.wrapped ≡ false }
    {
        GuestBook {
            guests: Arena::on_heap(alloc),
            came: Vec::new(alloc),
            wrapped: false,
        }
    }

    /// A guest comes, and gets a pointer. No guest before had it, unless the counter wrapped.
    ///
    /// Refused where memory is, and as an insertion into an arena is; then nobody came.
    pub fn arrive(&mut self, guest: u32) -> Result<P0, ReallocationError>
        ensures new { self.old.wrapped ≡ false
            → IfOk result (λ p. has self.old.came (p0_numbers p) ≡ false) }
        ensures found { IfOk result (λ p. look_up self.new.guests.slots (p0_numbers p)
            ≡ Some guest) }
        ensures others { IfOk result (λ p. (q : Pointer) → q ≢ p0_numbers p
            → look_up self.new.guests.slots q ≡ look_up self.old.guests.slots q) }
        ensures came { IfOk result (λ p. self.new.came ≡ self.old.came ++ p0_numbers p ∷ []) }
        ensures refused { OnErr result (self.new ≡ self.old) }
        ensures wrapped { self.new.wrapped ≡ self.old.wrapped }
    {
        if self.came.reserve(1).is_err() {
            return Err(ReallocationError::AllocError);
        }
        let p = self.guests.insert(guest)?;
        self.came.push_reserved(p);
        Ok(p)
    }

    /// A guest leaves, if there is one of this pointer. The pointer stays in the book. The counter
    /// wraps where it stood at the greatest generation, and only there.
    pub fn leave(&mut self, p: P0) -> Option<u32>
        ensures guest { result ≡ look_up self.old.guests.slots (p0_numbers p) }
        ensures gone { look_up self.new.guests.slots (p0_numbers p) ≡ None }
        ensures others { (q : Pointer) → q ≢ p0_numbers p
            → look_up self.new.guests.slots q ≡ look_up self.old.guests.slots q }
        ensures came { self.new.came ≡ self.old.came }
        ensures wrapped { self.new.wrapped
            ≡ self.old.wrapped || (is_some result && is_before_wrap self.old) }
    {
        match self.guests.remove(p) {
            InvalidationResult::Success(guest) => Some(guest),
            InvalidationResult::GenerationOverflow(guest) => {
                self.wrapped = true;
                Some(guest)
            }
            InvalidationResult::InvalidPtr => None,
        }
    }

    /// The guest of a pointer, who is there exactly if he came and has not left.
    pub fn get(&self, p: P0) -> Option<&u32>
        ensures { option_copied result ≡ look_up self.now.guests.slots (p0_numbers p) }
    {
        self.guests.get(p)
    }

    /// The pointers of all who came, in their order: each once, unless the counter wrapped.
    pub fn came(&self) -> &[P0]
        ensures value { map p0_numbers result.now ≡ self.now.came }
        ensures once { self.now.wrapped ≡ false → AreDistinct (map p0_numbers result.now) }
    {
        &self.came
    }

    /// Whether the counter wrapped, so that pointers may come again.
    pub fn wrapped(&self) -> bool
        ensures { result ≡ self.now.wrapped }
    {
        self.wrapped
    }
}
