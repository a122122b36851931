//! An enum of one's own, whose variants hold pointers or none.

ghost use Rattle.triple_arena_uses.specs.Ports.{port_held, port_refill, port_held_refill, port_refill_held, port_refill_refill};

use triple_arena_base::{Recast, Recaster};

/// A port of a gate: it is fed by one pin, or drives one, if it is wired, or is left open.
#[derive(Clone, Copy, PartialEq, Eq, Debug, Drop)]
pub enum Port<P> {
    /// Fed by this pin.
    Input(P),
    /// Drives this pin, if it is wired, under a load.
    Output { to: Option<P>, load: u32 },
    /// Not in use.
    Open,
}

/// Holds what the pin holds that it is wired to, if there is one.
impl<I, P: Recast<I>> Recast<I> for Port<P> {
    ghost held = { port_held P.held P.refill };

    ghost refill = { port_refill P.held P.refill };

    fn recast<R: Recaster<Item = I>>(&mut self, recaster: &R) -> Result<(), I> {
        match self {
            Port::Input(from) => from.recast(recaster),
            Port::Output { to, .. } => to.recast(recaster),
            Port::Open => Ok(()),
        }
    }

    ghost held_refill = { port_held_refill P.held P.refill P.held_refill };

    ghost refill_held = { port_refill_held P.held P.refill P.refill_held };

    ghost refill_refill = { port_refill_refill P.held P.refill P.refill_refill };
}
