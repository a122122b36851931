//! Nets of a circuit: pins, and wires that merge them. Pairs of pins come in, classes go out, which have names.

ghost use Rattle.std.specs.Prelude.{◌≡◌, ◌↔◌, ◌⊎◌, true, false, None, Ok, Err, IsSome, OnOk, OnErr};
ghost use Rattle.triple_arena_ptr.specs.Pointers.{Pointer};
ghost use Rattle.triple_arena_surject.specs.Surject.{found_at, key_at, AreTogether, AreOfBoth, IsValued};

use triple_arena::{ArenaInsertTrait, CompactArenaTrait};
use triple_arena_chain::Link;
use triple_arena_ptr::Ptr;
use triple_arena_surject::{Member, Shared, SurjectArena, SurjectError};

/// A wire between two pins, which are on one net from then on; tells whether those were two nets before. Pins that
/// were on one net are on one still, and pins of two nets stay apart, but for the pins of the nets of these two. Where
/// they were one net, nothing changes.
///
/// `NoEntry` exactly where one of the pins isn't there; then nothing changes.
pub fn wire<
    P: Ptr,
    A: CompactArenaTrait<P, Link<P, Member<P, u64>>> + ArenaInsertTrait<P, Link<P, Member<P, u64>>>,
    B: ArenaInsertTrait<P, Shared<u64>>,
>(pins: &mut SurjectArena<P, u64, u64, A, B>, p: P, q: P) -> Result<bool, SurjectError>
    ensures wired { OnOk result (AreTogether pins.new (P.numbers p) (P.numbers q)) }
    ensures kept { (r t : Pointer) → AreTogether pins.old r t → AreTogether pins.new r t }
    ensures apart { (r t : Pointer) → AreTogether pins.new r t → AreTogether pins.old r t
        ⊎ AreOfBoth pins.old (P.numbers p) (P.numbers q) r t }
    ensures pins { (r : Pointer) → key_at pins.new r ≡ key_at pins.old r }
    ensures one { (result ≡ Ok false) ↔ AreTogether pins.old (P.numbers p) (P.numbers q) }
    ensures stays { result ≡ Ok false → pins.new ≡ pins.old }
    ensures no_entry { (result ≡ Err SurjectError.NoEntry)
        ↔ ((found_at pins.old (P.numbers p) ≡ None) ⊎ (found_at pins.old (P.numbers q) ≡ None)) }
    ensures refused { OnErr result (pins.new ≡ pins.old) }
{
    match pins.union(p, q) {
        Ok(Some(_name)) => Ok(true),
        Ok(None) => Ok(false),
        Err(refusal) => Err(refusal),
    }
}

/// Names the net of a pin, which all pins of that net find then, and no others; tells whether the pin is there. Where
/// it isn't, nothing changes.
pub fn name_net<
    P: Ptr,
    A: CompactArenaTrait<P, Link<P, Member<P, u64>>> + ArenaInsertTrait<P, Link<P, Member<P, u64>>>,
    B: ArenaInsertTrait<P, Shared<u64>>,
>(pins: &mut SurjectArena<P, u64, u64, A, B>, p: P, name: u64) -> bool
    ensures there { (result ≡ true) ↔ IsSome (found_at pins.old (P.numbers p)) }
    ensures named { result ≡ true → IsValued pins.old (P.numbers p) name pins.new }
    ensures nothing { result ≡ false → pins.new ≡ pins.old }
{
    match pins.get_val_mut(p) {
        Some(at) => {
            *at = name;
            true
        }
        None => false,
    }
}
