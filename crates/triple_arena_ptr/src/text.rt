//! The text of a pointer: its name, its index and, where that counts, its generation.

ghost use Rattle.std.specs.Prelude.{Some};
ghost use Rattle.std.specs.Fmt.{WritesOnOk};
ghost use Rattle.triple_arena_ptr.specs.PointerText.{hex, generation_hex, pointer_text};

use crate::generation::PtrGen;
use crate::inx::PtrInx;
use std::fmt;

/// Writes the text of the pointer of a name, an index and a generation: the name, the index in
/// square brackets and, where generations count, the generation in round brackets, both in
/// lower-case hexadecimal.
///
/// It takes the parts and not a pointer, so that the `Debug` and `Display` of a pointer type can
/// call it: `Ptr` itself asks for `Debug`.
pub fn fmt_pointer<I: PtrInx, G: PtrGen, W: fmt::Write>(
    name: &str,
    inx: I,
    generation: G,
    f: &mut fmt::Formatter<W>,
) -> fmt::Result
    ensures { WritesOnOk W.write_str_gives f.old result
        (pointer_text name.now (I.number inx) G.generations.counting (G.number generation)) f.new }
{
    let inx = InxHex(inx);
    if G::counts() {
        let generation = GenerationHex(generation);
        write!(f, "{name}[{inx}]({generation})")
    } else {
        write!(f, "{name}[{inx}]")
    }
}

/// An index, written in hexadecimal.
#[derive(Drop)]
struct InxHex<I>(I);

impl<I: PtrInx> fmt::Display for InxHex<I> {
    ghost output = { λ x. Some (hex (I.number x.0)) };

    fn fmt<W: fmt::Write>(&self, f: &mut fmt::Formatter<W>) -> fmt::Result {
        I::fmt_hex(self.0, f)
    }
}

/// A generation, written in hexadecimal.
#[derive(Drop)]
struct GenerationHex<G>(G);

impl<G: PtrGen> fmt::Display for GenerationHex<G> {
    ghost output = { λ x. Some (generation_hex G.generations.counting (G.number x.0)) };

    fn fmt<W: fmt::Write>(&self, f: &mut fmt::Formatter<W>) -> fmt::Result {
        G::fmt_hex(self.0, f)
    }
}
