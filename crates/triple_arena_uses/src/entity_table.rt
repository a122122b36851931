//! A table of entities, each with its health and perhaps a parent, over any stack.
//!
//! The clauses speak of look-ups alone: what each pointer finds before a call, and after it.

ghost use Rattle.std.specs.Prelude.{◌≡◌, ◌≢◌, ◌<◌, ◌↔◌, ◌+◌, ◌*◌, ◌-◌, None, Some, Err, IsOk, IfOk, OnErr, IsSome, is_some, false, option_copied};
ghost use Rattle.std.specs.Option.{option_map, option_and_then};
ghost use Rattle.triple_arena_ptr.specs.Pointers.{Pointer};
ghost use Rattle.triple_arena_stack.specs.Capacity.{IsFullAtLimit};
ghost use Rattle.triple_arena.specs.Items.{item};
ghost use Rattle.triple_arena.specs.Entries.{look_up};
ghost use Rattle.triple_arena.specs.ArenaState.{entry, arena_len, capacity, slot_count, is_free};
ghost use Rattle.triple_arena.specs.SlotSteps.{RisesByAtMost};
ghost use Rattle.triple_arena.specs.Values.{SamePointers};
ghost use Rattle.triple_arena_uses.specs.Entities.{p0_numbers, spawned, damaged, healed};

use std::alloc::Global;
use std::marker::Model;
use triple_arena::{Arena, ArenaInsertTrait, ArenaSlot, ArenaTrait};
use triple_arena_base::ReallocationError;
use triple_arena_ptr::P0;
use triple_arena_stack::{NonZeroInxGenericStack, NonZeroInxVec};

/// An entity: its health, and the one that spawned it.
#[derive(Clone, Copy, PartialEq, Eq, Debug)]
pub struct Entity {
    pub health: u32,
    pub parent: Option<P0>,
}

/// A table of entities, each named by the pointer that its spawning gave.
#[derive(Drop)]
pub struct EntityTable<
    S: NonZeroInxGenericStack<ArenaSlot<P0, Entity>> = NonZeroInxVec<ArenaSlot<P0, Entity>>,
> {
    entities: Arena<P0, Entity, S>,
}

impl<S: NonZeroInxGenericStack<ArenaSlot<P0, Entity>>> Model for EntityTable<S> {
    ghost use Rattle.triple_arena.specs.ArenaState.{ArenaState};
    ghost use Rattle.triple_arena_uses.specs.declared.entity_table.Entity.{Entity};

    ghost Value = { ArenaState Entity };

    ghost view = { λ table. table.entities };
}

impl<S: NonZeroInxGenericStack<ArenaSlot<P0, Entity>>> EntityTable<S> {
    /// A table without entities.
    pub fn new(alloc: Global) -> Self
        ensures { (q : Pointer) → look_up result.slots q ≡ None }
    {
        EntityTable {
            entities: Arena::new(alloc),
        }
    }

    /// A new entity of health 100. No entity stood at its index.
    ///
    /// Refused as an insertion into an arena is; then nothing changes.
    pub fn spawn(&mut self, parent: Option<P0>) -> Result<P0, ReallocationError>
        ensures found { IfOk result (λ p. look_up self.new.slots (p0_numbers p)
            ≡ Some (spawned parent)) }
        ensures free { IfOk result (λ p. entry self.old (p0_numbers p).0 ≡ None) }
        ensures others { IfOk result (λ p. (q : Pointer) → q ≢ p0_numbers p
            → look_up self.new.slots q ≡ look_up self.old.slots q) }
        ensures refused { OnErr result (self.new ≡ self.old) }
        ensures beyond { (result ≡ Err ReallocationError.BeyondMaxCapacity)
            ↔ IsFullAtLimit (capacity self.old) self.old.limit (arena_len self.old) }
        ensures had_place { arena_len self.old < capacity self.old → IsOk result }
    {
        self.entities.insert(Entity {
            health: 100,
            parent,
        })
    }

    /// Takes an entity away, and tells whether there was one. Its children keep its pointer, which
    /// finds nothing then. However many entities there are, at most 6 slots are touched. It tells of no
    /// wrap of the counter.
    pub fn despawn(&mut self, p: P0) -> bool
        ensures answer { result ≡ is_some (look_up self.old.slots (p0_numbers p)) }
        ensures gone { look_up self.new.slots (p0_numbers p) ≡ None }
        ensures others { (q : Pointer) → q ≢ p0_numbers p
            → look_up self.new.slots q ≡ look_up self.old.slots q }
        ensures bounded { RisesByAtMost 6 self.old.steps self.new.steps }
    {
        self.entities.remove(p).allow().is_some()
    }

    /// Gives up the slots past the last entity, and touches at most 6 slots for each of these, and 2
    /// more. Each entity stays under its pointer.
    pub fn trim(&mut self)
        ensures kept { (q : Pointer) → look_up self.new.slots q ≡ look_up self.old.slots q }
        ensures trimmed { is_free (item self.new.slots (slot_count self.new)) ≡ false }
        ensures bounded { RisesByAtMost (6 * (slot_count self.old - slot_count self.new) + 2)
            self.old.steps self.new.steps }
    {
        self.entities.remove_free_end_slots();
    }

    /// Takes health from an entity, and tells what is left; none where there is no such entity.
    pub fn damage(&mut self, p: P0, by: u32) -> Option<u32>
        ensures answer { result
            ≡ option_map (λ e. e.health - by) (look_up self.old.slots (p0_numbers p)) }
        ensures damaged { look_up self.new.slots (p0_numbers p)
            ≡ option_map (damaged by) (look_up self.old.slots (p0_numbers p)) }
        ensures others { (q : Pointer) → q ≢ p0_numbers p
            → look_up self.new.slots q ≡ look_up self.old.slots q }
    {
        let entity = self.entities.get_mut(p)?;
        entity.health = entity.health.saturating_sub(by);
        Some(entity.health)
    }

    /// Takes health from each entity. Who is there stays, each under its pointer; that no health is
    /// forgotten, no clause says, as of any loop that writes.
    pub fn damage_all(&mut self, by: u32)
        ensures { SamePointers self.old self.new }
    {
        for (_p, Entity { health, .. }) in &mut self.entities {
            *health = health.saturating_sub(by);
        }
    }

    /// Gives an entity back its whole health. There must be such an entity, which `get` tells.
    pub fn heal(&mut self, p: P0)
        requires { IsSome (look_up self.old.slots (p0_numbers p)) }
        ensures healed { look_up self.new.slots (p0_numbers p)
            ≡ option_map healed (look_up self.old.slots (p0_numbers p)) }
        ensures others { (q : Pointer) → q ≢ p0_numbers p
            → look_up self.new.slots q ≡ look_up self.old.slots q }
    {
        self.entities[p].health = 100;
    }

    /// The entity under a pointer.
    pub fn get(&self, p: P0) -> Option<&Entity>
        ensures { option_copied result ≡ look_up self.now.slots (p0_numbers p) }
    {
        self.entities.get(p)
    }

    /// The pointer of an entity's parent, which may be gone.
    pub fn parent_of(&self, p: P0) -> Option<P0>
        ensures { result ≡ option_and_then (λ e. e.parent) (look_up self.now.slots (p0_numbers p)) }
    {
        self.entities.get(p)?.parent
    }
}
