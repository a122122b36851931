//! Assertions as calls, each to be followed by `.expect(&rt, "what was looked at")`: a failure names
//! the line of the test, and tells what was there.

use std::alloc::Global;
use std::fmt::{Debug, Display};

/// A value in the place of the wanted one.
#[derive(Debug, Drop)]
pub struct Unequal<T> {
    told: T,
    wanted: T,
}

/// That a value is the wanted one; else both.
pub fn is<T: PartialEq + Debug + Drop>(told: T, wanted: T) -> Result<(), Unequal<T>> {
    if told == wanted {
        Ok(())
    } else {
        Err(Unequal { told, wanted })
    }
}

/// What Debug writes in the place of the wanted text.
#[derive(Debug, Drop)]
pub enum Unlike {
    Written(String),
    NoMemory,
}

/// That Debug writes this text; else what it writes.
pub fn is_shown<T: Debug>(alloc: Global, value: &T, text: &str) -> Result<(), Unlike> {
    match format!(in alloc; "{value:?}") {
        Ok(shown) if shown.as_str() == text => Ok(()),
        Ok(shown) => Err(Unlike::Written(shown)),
        Err(_) => Err(Unlike::NoMemory),
    }
}

/// That Display and Debug write these texts, in this order, of the value beside them; else what they write.
pub fn are_written<T: Display + Debug>(
    alloc: Global,
    texts: &[(T, &str, &str)],
) -> Result<(), Unlike> {
    for (value, displayed, shown) in texts {
        match format!(in alloc; "{value}") {
            Ok(text) if text.as_str() == *displayed => is_shown(alloc, value, shown)?,
            Ok(text) => return Err(Unlike::Written(text)),
            Err(_) => return Err(Unlike::NoMemory),
        }
    }
    Ok(())
}
