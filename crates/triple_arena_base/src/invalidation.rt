//! What calls answer that may raise a generation counter to its end.

ghost use Rattle.std.specs.Prelude.{◌≡◌, true, false, Some, None, Ok, Err, not};
ghost use Rattle.triple_arena_base.specs.Invalidation.{is_success_option, allowed_option, strict_option, overflowing_option, MapsOption, is_success, is_overflow, is_invalid, allowed, strict, overflowing, MapsResult, as_option, ForValue};

/// What a call answers that always succeeds, and may have wrapped the generation counter.
#[must_use]
#[derive(Debug, Clone, Copy, Hash, PartialEq, Eq, Drop)]
pub enum InvalidationOption<T> {
    /// The call was done, and the counter did not wrap.
    Success(T),
    /// The call was done, and the counter wrapped.
    GenerationOverflow(T),
}

impl<T> InvalidationOption<T> {
    /// True exactly for `Success`.
    pub fn is_success(&self) -> bool
        ensures { result ≡ is_success_option self.now }
    {
        matches!(self, InvalidationOption::Success(_))
    }

    /// True exactly for `GenerationOverflow`.
    pub fn is_overflow(&self) -> bool
        ensures { result ≡ not (is_success_option self.now) }
    {
        matches!(self, InvalidationOption::GenerationOverflow(_))
    }

    /// The value of either variant, for those who need not know of a wrap.
    pub fn allow(self) -> T
        ensures { result ≡ allowed_option self }
    {
        match self {
            InvalidationOption::Success(t) => t,
            InvalidationOption::GenerationOverflow(t) => t,
        }
    }

    /// The value: `Ok` for `Success`, `Err` for `GenerationOverflow`.
    pub fn strict(self) -> Result<T, T>
        ensures { result ≡ strict_option self }
    {
        match self {
            InvalidationOption::Success(t) => Ok(t),
            InvalidationOption::GenerationOverflow(t) => Err(t),
        }
    }

    /// This variant with `f` of the value, which is called once, on the condition that `f` may be
    /// called with it.
    pub fn map<U, F: FnOnce(T) -> U>(self, f: F) -> InvalidationOption<U>
        requires callable { F.pre f (allowed_option self) }
        ensures { MapsOption (F.post f) self result }
    {
        match self {
            InvalidationOption::Success(t) => InvalidationOption::Success(f(t)),
            InvalidationOption::GenerationOverflow(t) => {
                InvalidationOption::GenerationOverflow(f(t))
            }
        }
    }

    /// The value, and whether the counter wrapped.
    pub fn overflowing(self) -> (T, bool)
        ensures { result ≡ overflowing_option self }
    {
        match self {
            InvalidationOption::Success(t) => (t, false),
            InvalidationOption::GenerationOverflow(t) => (t, true),
        }
    }
}

/// What a call on a pointer answers: it may be invalid, and the call may have wrapped the
/// generation counter.
#[must_use]
#[derive(Debug, Clone, Copy, Hash, PartialEq, Eq, Drop)]
pub enum InvalidationResult<T> {
    /// The call was done, and the counter did not wrap.
    Success(T),
    /// The call was done, and the counter wrapped.
    GenerationOverflow(T),
    /// The pointer was invalid, and nothing was done.
    InvalidPtr,
}

impl<T> InvalidationResult<T> {
    /// True exactly for `Success`.
    pub fn is_success(&self) -> bool
        ensures { result ≡ is_success self.now }
    {
        matches!(self, InvalidationResult::Success(_))
    }

    /// True exactly for `GenerationOverflow`.
    pub fn is_overflow(&self) -> bool
        ensures { result ≡ is_overflow self.now }
    {
        matches!(self, InvalidationResult::GenerationOverflow(_))
    }

    /// True exactly for `InvalidPtr`.
    pub fn is_invalid(&self) -> bool
        ensures { result ≡ is_invalid self.now }
    {
        matches!(self, InvalidationResult::InvalidPtr)
    }

    /// The value of either variant that has one; `None` exactly for `InvalidPtr`.
    pub fn allow(self) -> Option<T>
        ensures { result ≡ allowed self }
    {
        match self {
            InvalidationResult::Success(t) => Some(t),
            InvalidationResult::GenerationOverflow(t) => Some(t),
            InvalidationResult::InvalidPtr => None,
        }
    }

    /// The value: `Ok` for `Success`, `Err(Some(..))` for `GenerationOverflow`, and `Err(None)` for
    /// `InvalidPtr`.
    pub fn strict(self) -> Result<T, Option<T>>
        ensures { result ≡ strict self }
    {
        match self {
            InvalidationResult::Success(t) => Ok(t),
            InvalidationResult::GenerationOverflow(t) => Err(Some(t)),
            InvalidationResult::InvalidPtr => Err(None),
        }
    }

    /// This variant with `f` of the value, on the condition that `f` may be called with it. For
    /// `InvalidPtr`, `f` is not called.
    pub fn map<U, F: FnOnce(T) -> U>(self, f: F) -> InvalidationResult<U>
        requires callable { ForValue self (F.pre f) }
        ensures { MapsResult (F.post f) self result }
    {
        match self {
            InvalidationResult::Success(t) => InvalidationResult::Success(f(t)),
            InvalidationResult::GenerationOverflow(t) => {
                InvalidationResult::GenerationOverflow(f(t))
            }
            InvalidationResult::InvalidPtr => InvalidationResult::InvalidPtr,
        }
    }

    /// The value, or none for `InvalidPtr`, and whether the counter wrapped.
    pub fn overflowing(self) -> (Option<T>, bool)
        ensures { result ≡ overflowing self }
    {
        match self {
            InvalidationResult::Success(t) => (Some(t), false),
            InvalidationResult::GenerationOverflow(t) => (Some(t), true),
            InvalidationResult::InvalidPtr => (None, false),
        }
    }

    /// The answer of a pointer that was valid, on the condition that this is not `InvalidPtr`,
    /// which `is_invalid` tells.
    pub fn unwrap(self) -> InvalidationOption<T>
        requires { is_invalid self ≡ false }
        ensures { Some result ≡ as_option self }
    {
        match self {
            InvalidationResult::Success(t) => InvalidationOption::Success(t),
            InvalidationResult::GenerationOverflow(t) => InvalidationOption::GenerationOverflow(t),
            InvalidationResult::InvalidPtr => unreachable!(),
        }
    }
}
