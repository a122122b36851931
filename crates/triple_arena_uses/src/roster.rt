//! A roster of players, each under a pointer: an arena in a struct of one's own.

ghost use Rattle.std.specs.Prelude.{◌≡◌, ◌≢◌, ◌<◌, None, Some, IfOk, OnErr, IsOk, option_copied};
ghost use Rattle.triple_arena.specs.ArenaState.{arena_len, capacity};
ghost use Rattle.triple_arena.specs.Entries.{look_up};
ghost use Rattle.triple_arena.specs.Pointers.{Pointer};

use std::alloc::Global;
use std::marker::Model;
use triple_arena::{Arena, Ptr, ReallocationError};

/// The players who are there.
#[derive(Drop)]
pub struct Roster<P: Ptr> {
    players: Arena<P, u32>,
}

/// Clauses see a roster as its arena.
impl<P: Ptr> Model for Roster<P> {
    ghost use Rattle.std.specs.Prelude.{ℕ};
    ghost use Rattle.triple_arena.specs.ArenaState.{ArenaState};

    ghost Value = { ArenaState ℕ };

    ghost view = { λ roster. roster.players };
}

impl<P: Ptr> Roster<P> {
    /// A roster without players.
    pub fn new(alloc: Global) -> Self
        ensures { (q : Pointer) → look_up result.slots q ≡ None }
    {
        Roster {
            players: Arena::on_heap(alloc),
        }
    }

    /// A player joins, and has a pointer. Refused where there is no place left and no memory for more; then
    /// nothing changes.
    pub fn join(&mut self, player: u32) -> Result<P, ReallocationError>
        ensures found { IfOk result (λ p. look_up self.new.slots (P.numbers p) ≡ Some player) }
        ensures others { IfOk result (λ p. (q : Pointer) → q.0 ≢ (P.numbers p).0
            → look_up self.new.slots q ≡ look_up self.old.slots q) }
        ensures refused { OnErr result (self.new ≡ self.old) }
        ensures had_place { arena_len self.old < capacity self.old → IsOk result }
    {
        self.players.insert(player)
    }

    /// The player of a pointer leaves, if there is one; the pointer finds nothing then.
    pub fn leave(&mut self, p: P) -> Option<u32>
        ensures player { result ≡ look_up self.old.slots (P.numbers p) }
        ensures gone { look_up self.new.slots (P.numbers p) ≡ None }
        ensures others { (q : Pointer) → q ≢ P.numbers p
            → look_up self.new.slots q ≡ look_up self.old.slots q }
    {
        self.players.remove(p).allow() // even if the counter wraps
    }

    /// The player of a pointer.
    pub fn get(&self, p: P) -> Option<&u32>
        ensures { option_copied result ≡ look_up self.now.slots (P.numbers p) }
    {
        self.players.get(p)
    }
}
