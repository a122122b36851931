//! What was refused, and what is wrong.

use crate::wrong::Wrong;
use std::fmt;
use std::fmt::{Display, Formatter, Write};

/// What something ended with that was tried.
#[derive(Clone, Copy, PartialEq)]
pub enum End {
    /// All was as with ample memory.
    Ample,
    /// A call was refused memory, left what it must, and succeeded when it was made again.
    Refused,
    /// A part of a call that asks for memory by itself was refused it, left what it must, and
    /// succeeded when it was made again.
    PartRefused(&'static str),
}

/// What was refused, and what is wrong, of all that was tried.
#[derive(Drop)]
pub struct Report {
    // the part, if it was one, the call, and the kind of what it was made on
    refused: Option<(Option<&'static str>, &'static str, &'static str)>,
    wrong: Option<(&'static str, &'static str, Wrong)>,
    has_unmade: bool,
}

impl Report {
    pub fn new() -> Report {
        Report {
            refused: None,
            wrong: None,
            has_unmade: false,
        }
    }

    // Takes down what was refused. One request is refused in a run, so that a second refusal is
    // wrong.
    fn refuse(&mut self, part: Option<&'static str>, call: &'static str, kind: &'static str) {
        if self.refused.is_some() {
            self.wrong = Some((call, kind, Wrong::NoMemory));
        }
        self.refused = Some((part, call, kind));
    }

    /// Takes down how a call ended on something of this kind. Where there was no memory for that,
    /// it is what was refused.
    pub fn note(&mut self, call: &'static str, kind: &'static str, ended: Result<End, Wrong>) {
        match ended {
            Ok(End::Ample) => {}
            Ok(End::Refused) => self.refuse(None, call, kind),
            Ok(End::PartRefused(part)) => self.refuse(Some(part), call, kind),
            Err(Wrong::NoMemory) => {
                self.has_unmade = true;
                self.refuse(None, "made", kind);
            }
            Err(wrong) => self.wrong = Some((call, kind, wrong)),
        }
    }

    /// Whether there was no memory to make something since this was last asked.
    pub fn had_unmade(&mut self) -> bool {
        let had_unmade = self.has_unmade;
        self.has_unmade = false;
        had_unmade
    }
}

/// One line.
impl Display for Report {
    fn fmt<W: Write>(&self, f: &mut Formatter<W>) -> fmt::Result {
        match (&self.wrong, &self.refused) {
            (Some((call, kind, wrong)), _) => write!(f, "WRONG {call} of {kind}: {wrong:?}"),
            (None, Some((Some(part), call, kind))) => {
                write!(f, "refused {part} in {call} of {kind}")
            }
            (None, Some((None, call, kind))) => write!(f, "refused {call} of {kind}"),
            (None, None) => write!(f, "nothing was refused"),
        }
    }
}
