//! Arenas as clauses on loans name them.

ghost use Rattle.std.specs.Borrow.{RattleType};

/// An arena as what is borrowed from: its type, as clauses on loans name it.
pub trait LendingArena {
    ghost arena_row: { RattleType };
}
