//! The text of a direct arena.

ghost use Rattle.std.specs.Prelude.{None};
ghost use Rattle.std.specs.Fmt.{DisplaysOnOk};

use crate::direct_arena::DirectArena;
use crate::slot::DirectSlot;
use std::fmt;
use triple_arena_base::Advancer;
use triple_arena_ptr::Ptr;
use triple_arena_stack::NonZeroInxGenericStack;
use triple_arena_traits::ArenaTrait;

impl<P: Ptr, T: fmt::Debug, S: NonZeroInxGenericStack<DirectSlot<P, T>>> fmt::Debug
    for DirectArena<P, T, S> {
    /// Writes `{pointer: value, ..}`, by index.
    // The trait's clause is written out, since inheriting it makes each call dearer to prove.
    fn fmt<W: fmt::Write>(&self, f: &mut fmt::Formatter<W>) -> fmt::Result
        ensures writes { DisplaysOnOk W.write_str_gives f.old result None f.new }
    {
        let mut entries = f.debug_map();
        let mut advancer = self.advancer();
        'walk: while let Some(p) = advancer.advance(self) {
            entries.entry(&p, self.get(p).unwrap());
        }
        entries.finish()
    }
}
