//! Coupons that outlive their process: one that was redeemed is never valid again, here or where their
//! file is loaded.

ghost use Rattle.std.specs.Prelude.{◌≡◌, ◌≢◌, ◌<◌, ℕ, None, Some, Ok, IsOk, OnOk, OnErr, IfOk, IfErr, IfSome};
ghost use Rattle.std.specs.Io.KnownBytes.{Appends, IsAtEnd};
ghost use Rattle.triple_arena_ptr.specs.Pointers.{Pointer};
ghost use Rattle.triple_arena.specs.ArenaState.{ArenaState, arena_len, capacity};
ghost use Rattle.triple_arena.specs.Entries.{look_up};
ghost use Rattle.triple_arena.specs.Insertion.{next_pointer};
ghost use Rattle.triple_arena.specs.SlotSteps.{IsTouched};
ghost use Rattle.triple_arena_direct.specs.Gone.{IsGoneForGood};
ghost use Rattle.triple_arena_direct.specs.StrictAnswers.{strict_of};
ghost use Rattle.triple_arena_snapshot.specs.Files.{SaveFails, LoadsFrom};
ghost use Rattle.triple_arena_snapshot_uses.specs.Coupons.{coupon_numbers, are_used_up, coupons_content, coupons_reading, FitInFile, file_of_coupons};

use std::alloc::Global;
use std::io::{Read, Write};
use std::marker::Model;
use triple_arena::{NonZeroInxGenericStack, NonZeroInxVec};
use triple_arena_base::ReallocationError;
use triple_arena_direct::{StrictArena, StrictError};
use triple_arena_ptr::P3;
use triple_arena_snapshot::{LoadError, SaveError, load_strict_arena, save_strict_arena};

/// Coupons, each for so many cents. Whoever keeps a coupon that was redeemed gets nothing by it, in this
/// process or in one that goes on with the file: rather than give a coupon twice, none is redeemed any
/// more.
#[derive(Drop)]
pub struct Coupons {
    coupons: StrictArena<P3, u64>,
}

impl Model for Coupons {
    ghost use Rattle.std.specs.Prelude.{ℕ};
    ghost use Rattle.triple_arena.specs.ArenaState.{ArenaState};

    ghost Value = { ArenaState ℕ };

    ghost view = { λ c. c.coupons };

    ghost inverse = { λ coupons. record { coupons = coupons } };
}

impl Coupons {
    /// No coupons.
    pub fn new(alloc: Global) -> Self
        ensures { (q : Pointer) → look_up result.slots q ≡ None }
    {
        Coupons {
            coupons: StrictArena::new(alloc),
        }
    }

    /// A new coupon: none is it that was redeemed, and none that can be.
    ///
    /// Refused only where there is no place, and memory is refused or each index has a coupon; then
    /// nothing changes.
    pub fn issue(&mut self, cents: u64) -> Result<P3, ReallocationError>
        // Done: the coupon is for so many cents, and new.
        ensures found { IfOk result
            (λ coupon. look_up self.new.slots (coupon_numbers coupon) ≡ Some cents) }
        ensures free { IfOk result
            (λ coupon. look_up self.old.slots (coupon_numbers coupon) ≡ None) }
        ensures new { IfOk result
            (λ coupon. (q : Pointer) → IsGoneForGood self.old q → coupon_numbers coupon ≢ q) }
        ensures others { IfOk result (λ coupon. (q : Pointer) → q ≢ coupon_numbers coupon
            → look_up self.new.slots q ≡ look_up self.old.slots q) }

        // Refused: nothing has changed, and there was no place.
        ensures refused { OnErr result (self.new ≡ self.old) }
        ensures had_place { arena_len self.old < capacity self.old → IsOk result }

        // In each case what was redeemed stays so.
        ensures stays_gone { (q : Pointer) → IsGoneForGood self.old q → IsGoneForGood self.new q }
    {
        self.coupons.insert(cents)
    }

    /// Redeems a coupon, and tells for how many cents it was.
    ///
    /// `InvalidPtr` exactly where it is none, or was redeemed; else `Exhausted` exactly where it could be
    /// given again (`are_used_up`). Then nothing changes but how many slots were touched.
    pub fn redeem(&mut self, coupon: P3) -> Result<u64, StrictError>
        ensures answer { result
            ≡ strict_of (are_used_up self.old) (look_up self.old.slots (coupon_numbers coupon)) }
        ensures gone_for_good { OnOk result (IsGoneForGood self.new (coupon_numbers coupon)) }
        ensures others { (q : Pointer) → q ≢ coupon_numbers coupon
            → look_up self.new.slots q ≡ look_up self.old.slots q }
        ensures stays_gone { (q : Pointer) → IsGoneForGood self.old q → IsGoneForGood self.new q }
        ensures refused { OnErr result (IsTouched self.old self.new) }
    {
        self.coupons.remove(coupon)
    }

    /// Writes the file in which the coupons go on. Here they end, so that none is redeemed twice.
    ///
    /// Refused where memory is refused or the writer fails; then they come back as they were.
    pub fn close<W: Write>(self, alloc: Global, output: &mut W) -> Result<(), (Coupons, SaveError)>
        ensures written { OnOk result
            (Appends (W.contents output.old) (W.contents output.new) (file_of_coupons self)) }
        ensures fit { OnOk result (FitInFile self) }
        ensures refused { IfErr result (λ old. old.0 ≡ self) }
        ensures cut { IfErr result (λ old. SaveFails old.1 (W.contents output.old)
            (W.contents output.new) (file_of_coupons self)) }
    {
        let Coupons { coupons } = self;
        match save_strict_arena(coupons, alloc, output) {
            Ok(_arena) => Ok(()),
            Err((coupons, refusal)) => Err((Coupons { coupons }, refusal)),
        }
    }

    /// The coupons whose file the reader has left: each that could be redeemed can be, and each that was
    /// redeemed never can, where the file is opened this once.
    ///
    /// Refused as a file of a strict arena is, by the first fault and its offset.
    pub fn open<R: Read>(alloc: Global, input: &mut R) -> Result<Coupons, LoadError>
        ensures read { IfSome (R.remaining input.old)
            (λ bytes. LoadsFrom coupons_content result (coupons_reading bytes)) }
        ensures again { (saved : ArenaState ℕ) → FitInFile saved
            → R.remaining input.old ≡ Some (file_of_coupons saved)
            → LoadsFrom coupons_content result (Ok (coupons_content saved)) }
        ensures found { (saved : ArenaState ℕ) → FitInFile saved
            → R.remaining input.old ≡ Some (file_of_coupons saved)
            → IfOk result (λ coupons. (q : Pointer)
            → look_up coupons.slots q ≡ look_up saved.slots q) }
        ensures gone { (saved : ArenaState ℕ) → FitInFile saved
            → R.remaining input.old ≡ Some (file_of_coupons saved)
            → IfOk result (λ coupons. (q : Pointer)
            → IsGoneForGood saved q → IsGoneForGood coupons q) }
        ensures next { (saved : ArenaState ℕ) → FitInFile saved
            → R.remaining input.old ≡ Some (file_of_coupons saved)
            → IfOk result (λ coupons. next_pointer coupons ≡ next_pointer saved) }
        ensures end { OnOk result (IsAtEnd (R.remaining input.new)) }
    {
        match load_strict_arena(NonZeroInxVec::new(alloc), alloc, input) {
            Ok(coupons) => Ok(Coupons { coupons }),
            Err(refusal) => Err(refusal),
        }
    }
}
