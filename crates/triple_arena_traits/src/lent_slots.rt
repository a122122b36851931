//! Slots that are lent so that their values alone can be written.

ghost use Rattle.std.specs.Prelude.{◌≡◌, ◌<◌, List, ◌∷◌, length};
ghost use Rattle.std.specs.Borrow.{GName};
ghost use Rattle.std.specs.Option.{option_map, option_copied_mut};
ghost use Rattle.triple_arena_traits.specs.DisjointEntries.{value_of};
ghost use Rattle.triple_arena_traits.specs.Kept.{kept_at};

use crate::entry_slot::EntrySlot;
use std::marker::{Model, PhantomData};
use triple_arena_ptr::Ptr;

/// The right to write the values of slots that lie in a row, and no more.
///
/// An arena makes it of the slots that it lends. What makes it, or writes a field, is proved by
/// hand, since it owns these slots; so the fields can be public.
#[derive(Drop)]
pub struct LentSlots<'a, P: Ptr, T, L: EntrySlot<P, T>> {
    /// The first slot.
    pub at: *mut L,
    /// How long the slots are lent.
    pub mark: PhantomData<&'a mut (P, T, L)>,
    // The name under which the slots are lent.
    ghost name: { GName },
    // The name of the loan that the lender follows.
    ghost tie: { GName },
    // The slots.
    ghost now: { List L },
}

impl<'a, P: Ptr, T, L: EntrySlot<P, T>> Model for LentSlots<'a, P, T, L> {
    // the slots are lent, whatever their values
    ghost also_owns = { λ l. kept_at L.row L.with_value L.entry 'a l.name l.at l.now };
}

impl<'a, P: Ptr, T, L: EntrySlot<P, T>> LentSlots<'a, P, T, L> {
    /// The generation of the first slot's entry, if it has one. There has to be a slot.
    pub fn generation(&mut self) -> Option<P::Gen>
        requires { 0 < length self.old.now }
        ensures { (x : L) × (xs : List L) × (self.old.now ≡ x ∷ xs) × (self.new ≡ self.old)
            × (option_map P.Gen.number result ≡ option_map (λ e. e.0) (L.entry x)) }
    {
        let first = unsafe { &*self.at };
        first.generation()
    }

    /// The value of the first slot's entry, if it has one; the slot isn't held any longer. There
    /// has to be a slot.
    pub fn pass(&mut self) -> Option<&'a mut T>
        requires { 0 < length self.old.now }
        ensures { (x : L) × (self.old.now ≡ x ∷ self.new.now)
            × (option_copied_mut result ≡ value_of (L.entry x)) }
    {
        let first = unsafe {
            let p = self.at;
            self.at = p.add(1);
            &mut *p
        };
        first.live_value_mut()
    }
}
