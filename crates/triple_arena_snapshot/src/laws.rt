//! What holds of arenas that were written and read back.

ghost use Rattle.std.specs.Prelude.{◌≡◌, ◌≤◌, ℕ, List, Option, [], map, length};
ghost use Rattle.std.specs.Option.{option_map};
ghost use Rattle.triple_arena_ptr.specs.Numbers.{greatest_index};
ghost use Rattle.triple_arena_ptr.specs.Pointers.{Pointer};
ghost use Rattle.triple_arena_traits.specs.ArenaState.{ArenaState, map_entry};
ghost use Rattle.triple_arena_traits.specs.Entries.{look_up};
ghost use Rattle.triple_arena_traits.specs.Histories.{Fits, Continues};
ghost use Rattle.triple_arena_traits.specs.Insertion.{next_pointer};
ghost use Rattle.triple_arena_direct_arena.specs.DirectState.{DirectState};
ghost use Rattle.triple_arena_snapshot.specs.ArenaCodings.{arena_content, most_slots};
ghost use Rattle.triple_arena_snapshot.specs.ArenaLayouts.{arena_coding, direct_arena_coding};

use crate::codec::Codec;
use crate::generations::GenerationCodec;
use triple_arena_ptr::Ptr;

/// An arena with the contents of another answers as it does: each pointer finds a value of the same
/// content, or nothing in both, the next insertion gives the same pointer, and each history of pointers
/// that fitted the other fits it. So does an arena that was read, beside the one that was written.
pub fn read_answers_as_written<T: Codec>()
    ensures look_ups { (written read : ArenaState T) (p : Pointer)
        → arena_content T.content read ≡ arena_content T.content written
        → option_map T.content (look_up read.slots p)
        ≡ option_map T.content (look_up written.slots p) }
    ensures next { (written read : ArenaState T)
        → arena_content T.content read ≡ arena_content T.content written
        → next_pointer read ≡ next_pointer written }
    ensures history { (written read : ArenaState T)
        → arena_content T.content read ≡ arena_content T.content written
        → Continues Fits written [] read }
    ensures direct_look_ups { (written read : DirectState T) (p : Pointer)
        → map (option_map (map_entry T.content)) read.slots
        ≡ map (option_map (map_entry T.content)) written.slots
        → option_map T.content (look_up read.slots p)
        ≡ option_map T.content (look_up written.slots p) }
{}

/// What fits in a file under one limit fits under another that allows as many slots, and has the same
/// bytes: so an arena that was saved over one stack is loaded over another (`again` of
/// [`crate::load_arena`]).
pub fn fits_under_another_limit<P: Ptr, T: Codec>()
where
    P::Gen: GenerationCodec,
    ensures arena { (one other : Option ℕ) (k : List (Option (ℕ × T.Content)) × (ℕ × List ℕ))
        → (arena_coding P.Inx.greatest P.Gen.width one P.Gen.numbered T.coding).fits k
        → length k.0 ≤ most_slots other (greatest_index P.Inx.greatest)
        → (arena_coding P.Inx.greatest P.Gen.width other P.Gen.numbered T.coding).fits k }
    ensures arena_bytes { (one other : Option ℕ) (k : List (Option (ℕ × T.Content)) × (ℕ × List ℕ))
        → (arena_coding P.Inx.greatest P.Gen.width one P.Gen.numbered T.coding).encoding k
        ≡ (arena_coding P.Inx.greatest P.Gen.width other P.Gen.numbered T.coding).encoding k }
    ensures direct_arena { (one other : Option ℕ) (k : List (Option (ℕ × T.Content)))
        → (direct_arena_coding P.Inx.greatest P.Gen.width one P.Gen.numbered T.coding).fits k
        → length k ≤ most_slots other (greatest_index P.Inx.greatest)
        → (direct_arena_coding P.Inx.greatest P.Gen.width other P.Gen.numbered T.coding).fits k }
    ensures direct_arena_bytes { (one other : Option ℕ) (k : List (Option (ℕ × T.Content)))
        → (direct_arena_coding P.Inx.greatest P.Gen.width one P.Gen.numbered T.coding).encoding k
        ≡ (direct_arena_coding P.Inx.greatest P.Gen.width other P.Gen.numbered T.coding).encoding k }
{}
