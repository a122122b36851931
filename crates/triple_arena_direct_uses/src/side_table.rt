//! A side table: a note beside each entity, under the entity's own pointer.
//!
//! The notes lie in a direct arena that mirrors the arena of the entities: it is given each
//! insertion and each removal. So a note stands under a pointer exactly where an entity does.

ghost use Rattle.std.specs.Prelude.{◌≡◌, ◌≢◌, ◌<◌, ◌≤◌, ℕ, List, Option, None, Some, Result, IsOk, IfOk, OnOk, OnErr, is_some};
ghost use Rattle.triple_arena_ptr.specs.Pointers.{Pointer};
ghost use Rattle.triple_arena.specs.ArenaState.{arena_len, capacity};
ghost use Rattle.triple_arena.specs.Entries.{look_up, KeepsEntries};
ghost use Rattle.triple_arena.specs.FreeList.{last_index};
ghost use Rattle.triple_arena.specs.Walks.{entries};
ghost use Rattle.triple_arena.specs.Copying.{Copies};
ghost use Rattle.triple_arena.specs.Cloning.{IsCloneAnswer, IsRoomRefusal};
ghost use Rattle.triple_arena.specs.Insertion.{next_pointer};
ghost use Rattle.triple_arena_direct.specs.DirectState.{direct_capacity};
ghost use Rattle.triple_arena_direct.specs.Mirrors.{IsMirror};
ghost use Rattle.triple_arena_uses.specs.Entities.{p0_numbers};
ghost use Rattle.triple_arena_direct_uses.specs.Notes.{Noted};

use std::alloc::Global;
use std::marker::Model;
use triple_arena::{
    Arena, ArenaCloneFromWith, ArenaDirectInsertTrait, ArenaInsertTrait, ArenaTrait,
};
use triple_arena_base::{AllocError, CloneFromError, NotWithinCapacityError};
use triple_arena_direct::{DirectArena, laws};
use triple_arena_ptr::P0;
use triple_arena_uses::Entity;

/// Entities, each with a note beside it.
#[derive(Drop)]
pub struct NotedEntities {
    entities: Arena<P0, Entity>,
    notes: DirectArena<P0, u64>,
}

impl Model for NotedEntities {
    ghost use Rattle.triple_arena_direct.specs.Mirrors.{IsMirror};
    ghost use Rattle.triple_arena_direct_uses.specs.Notes.{Noted};

    ghost Value = { Noted };

    ghost view = { λ table. record { entities = table.entities; notes = table.notes } };

    // an entity stands under a pointer exactly where a note does
    ghost invariant = { λ table. IsMirror table.entities.slots table.notes.slots };
}

impl NotedEntities {
    /// Room for so many entities, and as many notes, and none of either yet.
    pub fn with_room(alloc: Global, room: usize) -> Result<Self, AllocError>
        ensures none { IfOk result (λ table. (q : Pointer) → look_up table.notes.slots q ≡ None) }
        ensures room { IfOk result (λ table. (room ≤ capacity table.entities)
            × (room ≤ direct_capacity table.notes)) }
    {
        let entities = Arena::with_min_capacity(alloc, room)?;
        let notes = DirectArena::with_min_capacity(alloc, room)?;
        Ok(NotedEntities { entities, notes })
    }

    /// A new entity of this health, with a note. No note stood under its pointer. No clause says which
    /// health the entity has.
    ///
    /// Refused only where there is no room for one of the two; then nothing changes.
    pub fn spawn(&mut self, health: u32, note: u64) -> Result<P0, NotWithinCapacityError>
        ensures noted { IfOk result
            (λ p. look_up self.new.notes.slots (p0_numbers p) ≡ Some note) }
        ensures free { IfOk result
            (λ p. look_up self.old.notes.slots (p0_numbers p) ≡ None) }
        ensures others { IfOk result (λ p. (q : Pointer) → q ≢ p0_numbers p
            → look_up self.new.notes.slots q ≡ look_up self.old.notes.slots q) }
        ensures refused { OnErr result (self.new ≡ self.old) }
        ensures succeeds { arena_len self.old.entities < capacity self.old.entities
            → (next_pointer self.old.entities).0 ≤ direct_capacity self.old.notes → IsOk result }
    {
        laws::mirror_keeps_pointers::<Entity, u64>();
        if self.entities.len() >= self.entities.capacity() {
            return Err(NotWithinCapacityError);
        }
        let p = self.entities.next_ptr();
        if !self.notes.can_direct_insert(p) {
            return Err(NotWithinCapacityError);
        }
        self.entities.insert_reserved(Entity {
            health,
            parent: None,
        });
        self.notes.direct_insert_reserved(p, note);
        Ok(p)
    }

    /// Takes an entity away, and its note, which it gives; none where there is no such entity. It tells of no
    /// wrap of the counter.
    pub fn despawn(&mut self, p: P0) -> Option<u64>
        ensures answer { result ≡ look_up self.old.notes.slots (p0_numbers p) }
        ensures gone { look_up self.new.notes.slots (p0_numbers p) ≡ None }
        ensures others { (q : Pointer) → q ≢ p0_numbers p
            → look_up self.new.notes.slots q ≡ look_up self.old.notes.slots q }
    {
        drop(self.entities.remove(p));
        self.notes.remove(p).allow()
    }

    /// The note on an entity; none exactly where there is no such entity.
    pub fn note(&self, p: P0) -> Option<u64>
        ensures value { result ≡ look_up self.now.notes.slots (p0_numbers p) }
        ensures exactly { is_some result
            ≡ is_some (look_up self.now.entities.slots (p0_numbers p)) }
    {
        self.notes.get(p).copied()
    }
}

/// Puts a note beside each entity, in the place of whatever notes there were: then a note stands
/// under a pointer exactly where an entity does. Each is what `note_of` gave at its entity, which
/// is called at them in the order of their indexes.
///
/// Refused as `clone_from_with` is: where there is no room for so many notes, which comes only
/// where the last index is above the capacity, or with what refused one; then those that were given
/// before stand.
pub fn note_each<E, M: FnMut(P0, &Entity) -> Result<u64, E>>(
    entities: &Arena<P0, Entity>,
    notes: &mut DirectArena<P0, u64>,
    note_of: M,
) -> Result<(), CloneFromError<E>>
    requires { M.IsAlwaysCallable note_of }
    ensures mirror { OnOk result (IsMirror entities.now.slots notes.new.slots) }
    ensures noted { (answer : Result (Unit {0}) E) → IsCloneAnswer answer result
        → (given : List (Option (ℕ × ℕ)))
        × Copies p0_numbers M.step note_of (entries entities.now.slots) answer given
        × KeepsEntries given notes.new.slots }
    ensures short { IsRoomRefusal result
        → direct_capacity notes.old < last_index entities.now.slots }
{
    laws::clone_has_the_pointers::<P0, Entity, u64, E, M>();
    notes.clone_from_with(entities, note_of)
}
