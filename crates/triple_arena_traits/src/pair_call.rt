//! Calls at two values, for arenas that lend two of their values at once.

ghost use Rattle.triple_arena_stack.specs.Disjoint.{FnOnceTakesAtPairMut, FnOnceReturnsAtPairMut};
ghost use Rattle.triple_arena_traits.specs.DisjointEntries.{PairOnce, after_generations};

/// What may be called once, at two values.
///
/// The closures of the two calls on pairs differ in their arguments; the slots ask for this alone.
pub trait PairCall<T, R> {
    // what a call asks, and what it gives and leaves
    ghost calls: { PairOnce Self T R };

    /// Makes the call.
    fn at(self, first: &mut T, second: &mut T) -> R
        requires { FnOnceTakesAtPairMut calls self first.old second.old }
        ensures { FnOnceReturnsAtPairMut calls self first.old second.old result first.new second.new };
}

/// A closure that takes the values alone.
pub struct ValuesCall<F> {
    /// The closure.
    pub f: F,
}

impl<T, R, F: FnOnce(&mut T, &mut T) -> R> PairCall<T, R> for ValuesCall<F> {
    ghost calls = { record {
      pre = λ call. F.FnOnce.pre call.f;
      post = λ call. F.FnOnce.post call.f;
    } };

    fn at(self, first: &mut T, second: &mut T) -> R {
        let ValuesCall { f } = self;
        f(first, second)
    }
}

/// A closure that takes each value after its generation.
pub struct EntriesCall<F, G> {
    /// The closure.
    pub f: F,
    /// The generation of the first value.
    pub a: G,
    /// The generation of the second value.
    pub b: G,
}

impl<T, R, G, F: FnOnce(G, &mut T, G, &mut T) -> R> PairCall<T, R> for EntriesCall<F, G> {
    ghost calls = { record {
      pre = λ call. (after_generations F.FnOnce call.a call.b).pre call.f;
      post = λ call. (after_generations F.FnOnce call.a call.b).post call.f;
    } };

    fn at(self, first: &mut T, second: &mut T) -> R {
        let EntriesCall { f, a, b } = self;
        f(a, first, b, second)
    }
}
