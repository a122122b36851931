//! A circuit that outlives its process: cells in one arena and nets in another, which point at each
//! other, and one file of both.
//!
//! Its clauses say what is read under each pointer. Once a circuit is loaded, each pointer that was
//! given finds what it found when it was saved, and the next cell and the next net get the pointers
//! that they would have got.

ghost use Rattle.std.specs.Prelude.{◌≡◌, ◌≢◌, ◌<◌, ◌∷◌, ◌-◌, ◌^◌, [], true, false, Option, None, Some, Ok, IsOk, IfOk, IfErr, IfSome, IsSome, OnOk, OnErr, option_copied};
ghost use Rattle.std.specs.Io.KnownBytes.{Appends, IsAtEnd};
ghost use Rattle.std.specs.Option.{option_map};
ghost use Rattle.triple_arena_ptr.specs.Numbers.{counting_to, wraps};
ghost use Rattle.triple_arena_ptr.specs.Pointers.{Pointer};
ghost use Rattle.triple_arena.specs.ArenaState.{arena_len, capacity};
ghost use Rattle.triple_arena.specs.Entries.{look_up};
ghost use Rattle.triple_arena.specs.Insertion.{next_pointer};
ghost use Rattle.triple_arena.specs.Histories.{insertion, removal, Fits, Continues};
ghost use Rattle.triple_arena.specs.SlotSteps.{IsTouched};
ghost use Rattle.triple_arena_snapshot.specs.Files.{file_reading, LoadsFrom, SaveFails};
ghost use Rattle.triple_arena_snapshot_uses.specs.Circuit.{Parts, p0_numbers, q2_numbers, cell_at, net_at, circuit_content, circuit_coding, circuit_shape, file_of_circuit, IsAdded};

use std::alloc::Global;
use std::io::{Read, Write};
use triple_arena::{Arena, ArenaInsertTrait, ArenaTrait};
use triple_arena_base::{AllocError, ReallocationError};
use triple_arena_ptr::{P0, Q2};
use triple_arena_snapshot::{
    Codec, DecodeError, LoadError, SaveError, laws, load, save, shape_over,
};

/// A cell: its kind, and the nets that it reads.
#[derive(Debug, PartialEq, Drop)]
pub struct Cell {
    pub kind: u32,
    pub reads: Vec<Q2>,
}

/// A net: its label, and the cell that drives it, if one does.
#[derive(Debug, PartialEq, Drop)]
pub struct Net {
    pub label: u64,
    pub driver: Option<P0>,
}

/// The kind, and then the nets.
impl Codec for Cell {
    ghost use Rattle.triple_arena_snapshot_uses.specs.Circuit.{CellRead, cell_read, cell_coding, cell_shape};

    ghost Content = { CellRead };

    ghost content = { cell_read };

    ghost coding = { cell_coding };

    ghost shape = { cell_shape };

    ghost asks = { true };

    fn shape_at(at: usize) -> Result<u8, usize> {
        shape_over::<(u32, Vec<Q2>)>(128, at)
    }

    fn encode(&self, out: &mut Vec<u8>) -> Result<(), AllocError> {
        self.kind.encode(out)?;
        self.reads.encode(out)
    }

    fn decode(alloc: Global, bytes: &[u8]) -> Result<(Self, &[u8]), DecodeError> {
        match <(u32, Vec<Q2>) as Codec>::decode(alloc, bytes) {
            Ok(((kind, reads), rest)) => Ok((Cell { kind, reads }, rest)),
            Err(refusal) => Err(refusal),
        }
    }
}

/// The label, and then the driver.
impl Codec for Net {
    ghost use Rattle.triple_arena_snapshot_uses.specs.Circuit.{NetRead, net_read, net_coding, net_shape};

    ghost Content = { NetRead };

    ghost content = { net_read };

    ghost coding = { net_coding };

    ghost shape = { net_shape };

    ghost asks = { false };

    fn shape_at(at: usize) -> Result<u8, usize> {
        shape_over::<(u64, Option<P0>)>(129, at)
    }

    fn encode(&self, out: &mut Vec<u8>) -> Result<(), AllocError> {
        self.label.encode(out)?;
        self.driver.encode(out)
    }

    fn decode(alloc: Global, bytes: &[u8]) -> Result<(Self, &[u8]), DecodeError> {
        match <(u64, Option<P0>) as Codec>::decode(alloc, bytes) {
            Ok(((label, driver), rest)) => Ok((Net { label, driver }, rest)),
            Err(refusal) => Err(refusal),
        }
    }
}

/// A circuit. The pointers of cells and those of nets are of two types, so that neither is taken for
/// the other.
#[derive(Drop)]
pub struct Circuit {
    pub parts: (Arena<P0, Cell>, Arena<Q2, Net>),
}

impl Circuit {
    /// A circuit without cells and nets.
    pub fn new(alloc: Global) -> Self
        ensures cells { (c : Pointer) → cell_at result.parts c ≡ None }
        ensures nets { (n : Pointer) → net_at result.parts n ≡ None }
    {
        Circuit {
            parts: (Arena::new(alloc), Arena::new(alloc)),
        }
    }

    /// A new cell that reads one net, whether there is such a net or not.
    ///
    /// `AllocError` where memory is refused, or each index has a cell; then nothing changes.
    /// `BeyondMaxCapacity` never comes, as the heap has no limit.
    pub fn add_cell(&mut self, kind: u32, net: Q2, alloc: Global) -> Result<P0, ReallocationError>
        // Done: the cell is read under its pointer, and all else as before.
        ensures added { IfOk result (λ c. IsAdded (cell_at self.old.parts)
            (next_pointer self.old.parts.0) (p0_numbers c) (kind, q2_numbers net ∷ [])
            (cell_at self.new.parts)) }
        ensures nets { self.new.parts.1 ≡ self.old.parts.1 }
        ensures history { IfOk result (λ c. Continues Fits self.old.parts.0
            (insertion (p0_numbers c) ∷ []) self.new.parts.0) }

        // Refused: nothing has changed, and there is no limit.
        ensures refused { OnErr result (self.new ≡ self.old) }
        ensures refusal { IfErr result (λ e. e ≡ ReallocationError.AllocError) }
    {
        // There is no limit.
        let _limit = self.parts.0.max_capacity();
        let reads = Vec::from_slice(alloc, &[net])?;
        self.parts.0.insert(Cell { kind, reads })
    }

    /// A new net, which a cell drives, or none, whether there is such a cell or not.
    ///
    /// `AllocError`, and nothing changes, only where there is no place, and memory is refused or each index
    /// has a net. `BeyondMaxCapacity` never comes, as the heap has no limit.
    pub fn add_net(&mut self, label: u64, driver: Option<P0>) -> Result<Q2, ReallocationError>
        // Done: the net is read under its pointer, and all else as before.
        ensures added { IfOk result (λ n. IsAdded (net_at self.old.parts)
            (next_pointer self.old.parts.1) (q2_numbers n) (label, option_map p0_numbers driver)
            (net_at self.new.parts)) }
        ensures cells { self.new.parts.0 ≡ self.old.parts.0 }
        ensures history { IfOk result (λ n. Continues Fits self.old.parts.1
            (insertion (q2_numbers n) ∷ []) self.new.parts.1) }

        // Refused: nothing has changed, there was no place, and there is no limit.
        ensures refused { OnErr result (self.new ≡ self.old) }
        ensures had_place { arena_len self.old.parts.1 < capacity self.old.parts.1 → IsOk result }
        ensures refusal { IfErr result (λ e. e ≡ ReallocationError.AllocError) }
    {
        // There is no limit.
        let _limit = self.parts.1.max_capacity();
        self.parts.1.insert(Net { label, driver })
    }

    /// The cell under a pointer.
    pub fn cell(&self, c: P0) -> Option<&Cell>
        ensures { option_copied result ≡ look_up self.now.parts.0.slots (p0_numbers c) }
    {
        self.parts.0.get(c)
    }

    /// The net under a pointer.
    pub fn net(&self, n: Q2) -> Option<&Net>
        ensures { option_copied result ≡ look_up self.now.parts.1.slots (q2_numbers n) }
    {
        self.parts.1.get(n)
    }

    /// Takes a net away, even if the counter of nets wraps. A cell that reads it keeps its pointer, which
    /// finds nothing then. Where there is no such net, nothing changes but how many slots were touched.
    pub fn remove_net(&mut self, n: Q2) -> Option<Net>
        ensures taken { result ≡ look_up self.old.parts.1.slots (q2_numbers n) }
        ensures gone { net_at self.new.parts (q2_numbers n) ≡ None }
        ensures others { (q : Pointer) → q ≢ q2_numbers n → net_at self.new.parts q ≡ net_at self.old.parts q }
        ensures cells { self.new.parts.0 ≡ self.old.parts.0 }
        ensures history { IsSome result → wraps (counting_to (2 ^ 64 - 1)) self.old.parts.1.counter ≡ false
            → Continues Fits self.old.parts.1 (removal (q2_numbers n) ∷ []) self.new.parts.1 }
        ensures unchanged { result ≡ None → IsTouched self.old.parts.1 self.new.parts.1 }
    {
        self.parts.1.remove(n).allow()
    }

    /// Writes both arenas as one file, by writes alone: who passes a writer with a buffer flushes it.
    ///
    /// `Memory`, and no byte is written, or `Write`, where the writer failed: then a front of the file is,
    /// and not all of it.
    pub fn save<W: Write>(&self, alloc: Global, output: &mut W) -> Result<(), SaveError>
        ensures written { OnOk result (Appends (W.contents output.old) (W.contents output.new)
            (file_of_circuit self.now.parts)) }
        ensures fits { OnOk result (circuit_coding.fits (circuit_content self.now.parts)) }
        ensures refused { IfErr result (λ e. SaveFails e (W.contents output.old)
            (W.contents output.new) (file_of_circuit self.now.parts)) }
    {
        save(&self.parts, alloc, output)
    }

    /// The circuit whose file the reader has left, which is read to its end.
    ///
    /// `Memory` or `Read`, where memory is refused or the reader fails; or `Malformed`, with the first
    /// fault in the file and its offset.
    pub fn load<R: Read>(alloc: Global, input: &mut R) -> Result<Circuit, LoadError>
        ensures read { IfSome (R.remaining input.old) (λ bytes. LoadsFrom (λ circuit. circuit_content circuit.parts) result
            (file_reading circuit_shape circuit_coding.decoding bytes)) }
        // Of the file of a circuit that was saved: each pointer finds what it found, the next ones are the
        // same, and each history that fitted fits.
        ensures again { (saved : Parts) → circuit_coding.fits (circuit_content saved)
            → R.remaining input.old ≡ Some (file_of_circuit saved)
            → LoadsFrom (λ circuit. circuit_content circuit.parts) result (Ok (circuit_content saved)) }
        ensures cells { (saved : Parts) → circuit_coding.fits (circuit_content saved)
            → R.remaining input.old ≡ Some (file_of_circuit saved)
            → IfOk result (λ loaded. (c : Pointer) → cell_at loaded.parts c ≡ cell_at saved c) }
        ensures nets { (saved : Parts) → circuit_coding.fits (circuit_content saved)
            → R.remaining input.old ≡ Some (file_of_circuit saved)
            → IfOk result (λ loaded. (n : Pointer) → net_at loaded.parts n ≡ net_at saved n) }
        ensures next { (saved : Parts) → circuit_coding.fits (circuit_content saved)
            → R.remaining input.old ≡ Some (file_of_circuit saved)
            → IfOk result (λ loaded. (next_pointer loaded.parts.0 ≡ next_pointer saved.0)
            × (next_pointer loaded.parts.1 ≡ next_pointer saved.1)) }
        ensures history { (saved : Parts) → circuit_coding.fits (circuit_content saved)
            → R.remaining input.old ≡ Some (file_of_circuit saved)
            → IfOk result (λ loaded. Continues Fits saved.0 [] loaded.parts.0
            × Continues Fits saved.1 [] loaded.parts.1) }
        ensures end { OnOk result (IsAtEnd (R.remaining input.new)) }
    {
        laws::read_answers_as_written::<Cell>();
        laws::read_answers_as_written::<Net>();
        match load(alloc, input) {
            Ok(parts) => Ok(Circuit { parts }),
            Err(refusal) => Err(refusal),
        }
    }
}
