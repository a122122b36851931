//! Tickets in a strict arena that outlives its process, under a path of the disk.

use std::alloc::Global;
use std::fs::OpenFile;
use std::rt::Files;
use std::{fs, io};
use triple_arena_direct::{NonZeroInxGenericStack, NonZeroInxVec, P0, StrictArena};
use triple_arena_snapshot::{LoadError, SaveError, load_strict_arena, save_strict_arena};

/// Tickets, each for so many cents.
pub type Tickets = StrictArena<P0, u64>;

/// Why tickets weren't loaded or saved.
#[derive(Debug, Drop)]
pub enum TicketsError {
    /// The system refused a call.
    System(io::Error),
    /// The file couldn't be read, or has no tickets.
    Load(LoadError),
    /// The new file wasn't written whole.
    Save(SaveError),
    /// A process took the tickets and ended without saving them.
    Unsaved,
}

/// The paths of the tickets, all in one folder.
#[derive(Clone, Copy)]
pub struct Paths<'a> {
    pub folder: &'a str,
    /// The file of the tickets, while no process has them.
    pub saved: &'a str,
    /// The file that was loaded last, while a process has its tickets.
    pub taken: &'a str,
    /// A file that may not be whole yet.
    pub new: &'a str,
}

/// The tickets that were saved last, and none at the first start. Their file is moved away, so that no
/// other process goes on with it, nor this one again after a crash: that would give tickets twice.
pub fn load_tickets<R: Files>(
    rt: &R,
    paths: Paths<'_>,
    alloc: Global,
) -> Result<Tickets, TicketsError> {
    let mut file = match fs::open(rt, paths.saved) {
        Ok(file) => file,
        Err(refusal) if refusal.kind() == io::ErrorKind::NotFound => {
            return first_tickets(rt, paths, alloc);
        }
        Err(refusal) => return Err(TicketsError::System(refusal)),
    };
    let tickets = match load_strict_arena(NonZeroInxVec::new(alloc), alloc, &mut file) {
        Ok(tickets) => tickets,
        Err(refusal) => return Err(TicketsError::Load(refusal)),
    };
    match move_file(rt, paths.saved, paths.taken, paths.folder) {
        Ok(()) => Ok(tickets),
        Err(refusal) => Err(TicketsError::System(refusal)),
    }
}

// No tickets, where no process had any before. From then on a file says that one has them.
fn first_tickets<R: Files>(
    rt: &R,
    paths: Paths<'_>,
    alloc: Global,
) -> Result<Tickets, TicketsError> {
    match fs::exists(rt, paths.taken) {
        Ok(false) => {}
        Ok(true) => return Err(TicketsError::Unsaved),
        Err(refusal) => return Err(TicketsError::System(refusal)),
    }
    match fs::create(rt, paths.new) {
        Ok(_empty) => {}
        Err(refusal) => return Err(TicketsError::System(refusal)),
    }
    match move_file(rt, paths.new, paths.taken, paths.folder) {
        Ok(()) => Ok(StrictArena::new(alloc)),
        Err(refusal) => Err(TicketsError::System(refusal)),
    }
}

/// Saves the tickets, and ends them here. A crash or a power cut leaves the file that was loaded or the
/// new one, each whole, as far as the disk does what it is asked for; no clause says what a disk holds.
///
/// Refused before the new file is written, the tickets come back. Refused later, by the system, they
/// are in the new file, as far as that was written.
pub fn save_tickets<R: Files>(
    rt: &R,
    paths: Paths<'_>,
    tickets: Tickets,
    alloc: Global,
) -> Result<(), (Option<Tickets>, TicketsError)> {
    let mut file = match fs::create(rt, paths.new) {
        Ok(file) => file,
        Err(refusal) => return Err((Some(tickets), TicketsError::System(refusal))),
    };
    match save_strict_arena(tickets, alloc, &mut file) {
        Ok(_inside) => {}
        Err((tickets, refusal)) => return Err((Some(tickets), TicketsError::Save(refusal))),
    }
    match put_in_place(rt, &file, paths) {
        Ok(()) => Ok(()),
        Err(refusal) => Err((None, TicketsError::System(refusal))),
    }
}

// The new file is on the disk before it has the path of the saved one; then the old one goes.
fn put_in_place<R: Files>(rt: &R, file: &R::File, paths: Paths<'_>) -> io::Result<()> {
    file.sync_all()?;
    move_file(rt, paths.new, paths.saved, paths.folder)?;
    fs::remove_file(rt, paths.taken)
}

// Gives a file another path, and has the folder on the disk.
fn move_file<R: Files>(rt: &R, from: &str, to: &str, folder: &str) -> io::Result<()> {
    fs::rename(rt, from, to)?;
    fs::open(rt, folder)?.sync_all()
}
