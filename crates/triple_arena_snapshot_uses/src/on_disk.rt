//! Notes in an arena, saved to a file of the disk and loaded from it.

use std::alloc::Global;
use std::rt::Files;
use std::{fs, io};
use triple_arena::Arena;
use triple_arena_ptr::P0;
use triple_arena_snapshot::{LoadError, SaveError, load, save};

/// Why notes weren't saved or loaded.
#[derive(Debug, Drop)]
pub enum NotesError {
    /// The system opened no file under the path.
    Open(io::Error),
    /// The file wasn't written whole.
    Save(SaveError),
    /// The file couldn't be read, or has no notes.
    Load(LoadError),
}

/// Saves the notes under a path, in the place of what stood there. No clause says what a disk holds.
pub fn save_notes<R: Files>(
    rt: &R,
    path: &str,
    notes: &Arena<P0, u64>,
    alloc: Global,
) -> Result<(), NotesError> {
    let mut file = match fs::create(rt, path) {
        Ok(file) => file,
        Err(refusal) => return Err(NotesError::Open(refusal)),
    };
    match save(notes, alloc, &mut file) {
        Ok(()) => Ok(()),
        Err(refusal) => Err(NotesError::Save(refusal)),
    }
}

/// The notes that were saved under a path: each pointer finds what it found.
pub fn load_notes<R: Files>(
    rt: &R,
    path: &str,
    alloc: Global,
) -> Result<Arena<P0, u64>, NotesError> {
    let mut file = match fs::open(rt, path) {
        Ok(file) => file,
        Err(refusal) => return Err(NotesError::Open(refusal)),
    };
    match load(alloc, &mut file) {
        Ok(notes) => Ok(notes),
        Err(refusal) => Err(NotesError::Load(refusal)),
    }
}
