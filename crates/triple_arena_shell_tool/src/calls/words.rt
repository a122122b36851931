//! The words of a line: values, sizes, indexes, generations and pointers.

use crate::calls::numbered::Numbered;
use crate::calls::stop::Stop;
use std::num::NonZeroUsize;
use triple_arena_ptr::{Ptr, PtrInx};

/// What the arenas of the shell hold.
pub type Value = u64;

/// A value, in decimal.
pub fn value(word: &str) -> Result<Value, Stop> {
    match word.parse() {
        Ok(number) => Ok(number),
        Err(_) => Err(Stop::Malformed),
    }
}

/// The value that words give, if they give one.
pub fn given(words: &[&str]) -> Result<Option<Value>, Stop> {
    match *words {
        [] => Ok(None),
        [v] => Ok(Some(value(v)?)),
        _ => Err(Stop::Malformed),
    }
}

/// A size, in decimal.
pub fn size(word: &str) -> Result<usize, Stop> {
    Ok(value(word)? as usize)
}

/// `true` or `false`.
pub fn truth(word: &str) -> Result<bool, Stop> {
    match word {
        "true" => Ok(true),
        "false" => Ok(false),
        _ => Err(Stop::Malformed),
    }
}

/// An index, in decimal.
pub fn inx<I: PtrInx>(word: &str) -> Result<I, Stop> {
    inx_of(size(word)?)
}

fn inx_of<I: PtrInx>(index: usize) -> Result<I, Stop> {
    let Some(index) = NonZeroUsize::new(index) else {
        return Err(Stop::Malformed);
    };
    I::try_from_usize(index).ok_or(Stop::Malformed)
}

/// A generation, in decimal.
pub fn generation<G: Numbered>(word: &str) -> Result<G, Stop> {
    G::of_number(value(word)?).ok_or(Stop::Malformed)
}

fn hexadecimal(word: &str) -> Result<u64, Stop> {
    match u64::from_str_radix(word, 16) {
        Ok(number) => Ok(number),
        Err(_) => Err(Stop::Malformed),
    }
}

// The parts of a pointer: its name, its index, and its generation in round brackets, if it has one.
fn parts(word: &str) -> Option<(&str, &str, &str)> {
    let (name, numbers) = word.split_once('[')?;
    let (index, generation) = numbers.split_once(']')?;
    Some((name, index, generation))
}

// A generation in round brackets, or nothing where generations don't count.
fn generation_in_brackets<G: Numbered>(word: &str) -> Result<G, Stop> {
    match word.strip_prefix('(') {
        Some(rest) => {
            let digits = rest.strip_suffix(')').ok_or(Stop::Malformed)?;
            G::of_number(hexadecimal(digits)?).ok_or(Stop::Malformed)
        }
        None if word.is_empty() => G::of_number(0).ok_or(Stop::Malformed),
        None => Err(Stop::Malformed),
    }
}

fn pointer_of<P: Ptr>(name: &str, index: &str, generation: &str) -> Result<P, Stop>
where
    P::Gen: Numbered,
{
    if name != P::name() {
        return Err(Stop::Malformed);
    }
    let inx = inx_of(hexadecimal(index)? as usize)?;
    Ok(P::_from_raw(inx, generation_in_brackets(generation)?))
}

/// A pointer as it is shown, such as `P0[1](2)`, its numbers in hexadecimal; or `invalid`.
pub fn pointer<P: Ptr>(word: &str) -> Result<P, Stop>
where
    P::Gen: Numbered,
{
    match parts(word) {
        Some((name, index, generation)) => pointer_of(name, index, generation),
        None if word == "invalid" => Ok(P::invalid()),
        None => Err(Stop::Malformed),
    }
}
