//! Set points of a controller, which are edited in an arena on the heap, and loaded where there is none: over
//! an array, under the same pointers.

ghost use Rattle.std.specs.Prelude.{◌≡◌, ◌≤◌, ℕ, Option, Some, Ok, length, IfOk, IfSome, OnOk};
ghost use Rattle.std.specs.Io.KnownBytes.{IsAtEnd};
ghost use Rattle.triple_arena_ptr.specs.Pointers.{Pointer};
ghost use Rattle.triple_arena.specs.ArenaState.{ArenaState};
ghost use Rattle.triple_arena.specs.Entries.{look_up};
ghost use Rattle.triple_arena.specs.Insertion.{next_pointer};
ghost use Rattle.triple_arena_snapshot.specs.Files.{LoadsFrom};
ghost use Rattle.triple_arena_snapshot_uses.specs.SetPoints.{set_points_content, set_points_reading, FitUnder, file_of_set_points};

use std::alloc::Global;
use std::io::Read;
use triple_arena::{Arena, ArenaSlot, NonZeroInxArray, NonZeroInxGenericStack};
use triple_arena_ptr::P0;
use triple_arena_snapshot::{LoadError, laws, load_arena};

/// How many places the controller has.
pub const PLACES: usize = 16;

/// Set points in an array.
pub type SetPoints = Arena<P0, u64, NonZeroInxArray<ArenaSlot<P0, u64>, PLACES>>;

/// The set points whose file the reader has left, wherever they were saved, on the heap or under another
/// limit: where they have no more slots than there are places, each pointer finds what it found, and the
/// next insertion gives the same one.
///
/// Refused as `load_arena`; with `Slots` where there are more.
pub fn load_set_points<R: Read>(alloc: Global, input: &mut R) -> Result<SetPoints, LoadError>
    ensures read { IfSome (R.remaining input.old)
        (λ bytes. LoadsFrom set_points_content result (set_points_reading bytes)) }

    // What was saved is loaded, unless memory is refused or the reader fails.
    ensures again { (saved : ArenaState ℕ) → FitUnder saved.limit saved → length saved.slots ≤ 16
        → R.remaining input.old ≡ Some (file_of_set_points saved)
        → LoadsFrom set_points_content result (Ok (set_points_content saved)) }
    ensures found { (saved : ArenaState ℕ) → FitUnder saved.limit saved → length saved.slots ≤ 16
        → R.remaining input.old ≡ Some (file_of_set_points saved)
        → IfOk result (λ points. (q : Pointer)
        → look_up points.slots q ≡ look_up saved.slots q) }
    ensures next { (saved : ArenaState ℕ) → FitUnder saved.limit saved → length saved.slots ≤ 16
        → R.remaining input.old ≡ Some (file_of_set_points saved)
        → IfOk result (λ points. next_pointer points ≡ next_pointer saved) }

    // Done: the reader is at its end.
    ensures end { OnOk result (IsAtEnd (R.remaining input.new)) }
{
    // What fits under one limit fits under another, and what is read answers as what was written.
    laws::fits_under_another_limit::<P0, u64>();
    laws::read_answers_as_written::<u64>();
    load_arena(NonZeroInxArray::new(alloc), alloc, input)
}
