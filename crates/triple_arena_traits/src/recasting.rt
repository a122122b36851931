//! Recasting the values of any compact arena.

ghost use Rattle.std.specs.Prelude.{◌≡◌, []};
ghost use Rattle.triple_arena_base.specs.Held.{recast_answer, held_all};
ghost use Rattle.triple_arena_traits.specs.Histories.{Continues};
ghost use Rattle.triple_arena_traits.specs.Walks.{keys, values};
ghost use Rattle.triple_arena_traits.specs.Recasting.{written, recast_values};

use crate::arena_trait::ArenaTrait;
use crate::compact_arena_trait::CompactArenaTrait;
use triple_arena_base::{Advancer, Recast, Recaster};
use triple_arena_ptr::Ptr;

/// Replaces the items that the values hold by their images, in the order of the indexes of the
/// entries. Refuses with the first one that has no image: the items before it are replaced then, and
/// it and all behind it stay. Pointers, limit and capacity stay.
pub fn recast_entries<I, P: Ptr, T: Recast<I>, A: CompactArenaTrait<P, T>, R: Recaster<Item = I>>(
    arena: &mut A,
    recaster: &R,
) -> Result<(), I>
    ensures after { arena.new ≡ written A.with_value (keys (A.slots arena.old))
        (recast_values T.held T.refill (R.image recaster.now) (values (A.slots arena.old)))
        arena.old }
    ensures answer { result ≡ recast_answer (R.image recaster.now)
        (held_all T.held (values (A.slots arena.old))) }
    ensures keys { keys (A.slots arena.new) ≡ keys (A.slots arena.old) }
    ensures limit { A.limit arena.new ≡ A.limit arena.old }
    ensures capacity { A.capacity arena.new ≡ A.capacity arena.old }
    ensures history { Continues A.fits arena.old [] arena.new }
{
    let mut advancer = arena.advancer();
    'walk: while let Some(p) = advancer.advance(arena) {
        let value = arena.get_mut(p).unwrap();
        value.recast(recaster)?;
    }
    Ok(())
}
