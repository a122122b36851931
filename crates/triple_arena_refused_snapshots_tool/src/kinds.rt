//! What is saved and loaded: texts, an arena, a direct arena, and a strict one.

use crate::files::{ARENA, DIRECT, Held, STRICT, TEXTS};
use std::alloc::Global;
use triple_arena::{
    Arena, ArenaInsertTrait, ArenaTrait, NonZeroInxGenericStack, NonZeroInxVec, P3, Ptr,
};
use triple_arena_direct::StrictArena;
use triple_arena_direct_arena::DirectArena;
use triple_arena_refused_kit::{End, Report, Wrong};
use triple_arena_snapshot::{
    GenerationCodec, LoadError, SaveError, from_file_bytes, load, load_arena, load_direct_arena,
    load_strict_arena, save, save_arena, save_direct_arena, save_strict_arena, to_file_bytes,
};

/// What can be saved and loaded, each by its own calls.
trait Kept: Sized {
    /// As it stands in its file.
    fn make(alloc: Global) -> Result<Self, Wrong>;

    /// Writes its file; refused, it comes back.
    fn save(self, alloc: Global, output: &mut Held) -> Result<(), (Self, SaveError)>;

    fn load(alloc: Global, input: &mut &[u8]) -> Result<Self, LoadError>;
}

impl Kept for Vec<String> {
    fn make(alloc: Global) -> Result<Self, Wrong> {
        let mut texts = Vec::new(alloc);
        for text in ["a", "bc"] {
            let text = String::from_str(alloc, text)?;
            if texts.push(text).is_err() {
                return Err(Wrong::NoMemory);
            }
        }
        Ok(texts)
    }

    fn save(self, alloc: Global, output: &mut Held) -> Result<(), (Self, SaveError)> {
        match save(&self, alloc, output) {
            Ok(()) => Ok(()),
            Err(refusal) => Err((self, refusal)),
        }
    }

    fn load(alloc: Global, input: &mut &[u8]) -> Result<Self, LoadError> {
        load(alloc, input)
    }
}

/// The same texts, whose file is made as bytes, and read of them.
#[derive(Drop)]
struct InBytes {
    texts: Vec<String>,
}

impl Kept for InBytes {
    fn make(alloc: Global) -> Result<Self, Wrong> {
        let texts = Kept::make(alloc)?;
        Ok(InBytes { texts })
    }

    fn save(self, alloc: Global, output: &mut Held) -> Result<(), (Self, SaveError)> {
        match to_file_bytes(&self.texts, alloc) {
            Ok(file) => {
                output.hold(&file);
                Ok(())
            }
            Err(refusal) => Err((self, SaveError::from(refusal))),
        }
    }

    fn load(alloc: Global, input: &mut &[u8]) -> Result<Self, LoadError> {
        let texts = from_file_bytes(alloc, input)?;
        Ok(InBytes { texts })
    }
}

impl<P: Ptr> Kept for Arena<P, u8>
where
    P::Gen: GenerationCodec,
{
    fn make(alloc: Global) -> Result<Self, Wrong> {
        let mut arena = Arena::new(alloc);
        let first = put(&mut arena, 7)?;
        let second = put(&mut arena, 8)?;
        put(&mut arena, 9)?;
        drop(arena.remove(first));
        drop(arena.remove(second));
        Ok(arena)
    }

    fn save(self, alloc: Global, output: &mut Held) -> Result<(), (Self, SaveError)> {
        match save_arena(&self, alloc, output) {
            Ok(()) => Ok(()),
            Err(refusal) => Err((self, refusal)),
        }
    }

    fn load(alloc: Global, input: &mut &[u8]) -> Result<Self, LoadError> {
        load_arena(NonZeroInxVec::new(alloc), alloc, input)
    }
}

impl<P: Ptr> Kept for DirectArena<P, u8>
where
    P::Gen: GenerationCodec,
{
    fn make(alloc: Global) -> Result<Self, Wrong> {
        of_load(Self::load(alloc, &mut DIRECT))
    }

    fn save(self, alloc: Global, output: &mut Held) -> Result<(), (Self, SaveError)> {
        match save_direct_arena(&self, alloc, output) {
            Ok(()) => Ok(()),
            Err(refusal) => Err((self, refusal)),
        }
    }

    fn load(alloc: Global, input: &mut &[u8]) -> Result<Self, LoadError> {
        load_direct_arena(NonZeroInxVec::new(alloc), alloc, input)
    }
}

// What was loaded to begin with.
fn of_load<K>(loaded: Result<K, LoadError>) -> Result<K, Wrong> {
    match loaded {
        Ok(kept) => Ok(kept),
        Err(LoadError::Memory) => Err(Wrong::NoMemory),
        Err(_) => Err(Wrong::Answer(2)),
    }
}

// A new entry.
fn put<P: Ptr>(arena: &mut Arena<P, u8>, value: u8) -> Result<P, Wrong> {
    match arena.insert(value) {
        Ok(p) => Ok(p),
        Err(_) => Err(Wrong::NoMemory),
    }
}

// A save that was refused memory has written no byte, and leaves what it was to save.
fn writes<K: Kept + Drop>(kept: K, alloc: Global, file: &[u8]) -> Result<End, Wrong> {
    let mut held = Held::new();
    let end = match kept.save(alloc, &mut held) {
        Ok(()) => End::Ample,
        Err((kept, SaveError::Memory)) => {
            if !held.is(&[]) || kept.save(alloc, &mut held).is_err() {
                return Err(Wrong::Answer(1));
            }
            End::Refused
        }
        Err(_) => return Err(Wrong::Answer(0)),
    };
    holds(&held, file, end)
}

// That the writer holds the file.
fn holds(held: &Held, file: &[u8], end: End) -> Result<End, Wrong> {
    if held.is(file) {
        Ok(end)
    } else {
        Err(Wrong::State(0))
    }
}

fn saves<K: Kept + Drop>(alloc: Global, file: &[u8]) -> Result<End, Wrong> {
    writes(K::make(alloc)?, alloc, file)
}

// A load that was refused memory has made nothing. What is loaded is saved again.
fn loads<K: Kept + Drop>(alloc: Global, file: &[u8]) -> Result<End, Wrong> {
    match K::load(alloc, &mut &*file) {
        Ok(kept) => writes(kept, alloc, file),
        Err(LoadError::Memory) => match K::load(alloc, &mut &*file) {
            Ok(kept) => {
                writes(kept, alloc, file)?;
                Ok(End::Refused)
            }
            Err(_) => Err(Wrong::Answer(4)),
        },
        Err(_) => Err(Wrong::Answer(3)),
    }
}

// The same of a strict arena: it has no proved drop of its own, so it is of no type parameter.
fn writes_strictly<P: Ptr>(
    strict: StrictArena<P, u8>,
    alloc: Global,
    file: &[u8],
) -> Result<End, Wrong>
where
    P::Gen: GenerationCodec,
{
    let mut held = Held::new();
    match save_strict_arena(strict, alloc, &mut held) {
        Ok(_arena) => holds(&held, file, End::Ample),
        Err((strict, SaveError::Memory)) => {
            let was_empty = held.is(&[]);
            match save_strict_arena(strict, alloc, &mut held) {
                Ok(_arena) => {
                    if !was_empty {
                        return Err(Wrong::Answer(1));
                    }
                    holds(&held, file, End::Refused)
                }
                Err(_refused) => Err(Wrong::Answer(1)),
            }
        }
        Err(_refused) => Err(Wrong::Answer(0)),
    }
}

fn load_strictly<P: Ptr>(alloc: Global, file: &[u8]) -> Result<StrictArena<P, u8>, LoadError>
where
    P::Gen: GenerationCodec,
{
    load_strict_arena(NonZeroInxVec::new(alloc), alloc, &mut &*file)
}

fn saves_strictly<P: Ptr>(alloc: Global, file: &[u8]) -> Result<End, Wrong>
where
    P::Gen: GenerationCodec,
{
    match load_strictly::<P>(alloc, file) {
        Ok(strict) => writes_strictly(strict, alloc, file),
        Err(LoadError::Memory) => Err(Wrong::NoMemory),
        Err(_) => Err(Wrong::Answer(2)),
    }
}

fn loads_strictly<P: Ptr>(alloc: Global, file: &[u8]) -> Result<End, Wrong>
where
    P::Gen: GenerationCodec,
{
    match load_strictly::<P>(alloc, file) {
        Ok(strict) => writes_strictly(strict, alloc, file),
        Err(LoadError::Memory) => match load_strictly::<P>(alloc, file) {
            Ok(strict) => {
                writes_strictly(strict, alloc, file)?;
                Ok(End::Refused)
            }
            Err(_) => Err(Wrong::Answer(4)),
        },
        Err(_) => Err(Wrong::Answer(3)),
    }
}

/// Saves each.
pub fn save_each(alloc: Global, report: &mut Report) {
    report.note("save", "texts", saves::<Vec<String>>(alloc, TEXTS));
    report.note("save", "texts as bytes", saves::<InBytes>(alloc, TEXTS));
    report.note("save", "an arena", saves::<Arena<P3, u8>>(alloc, ARENA));
    report.note(
        "save",
        "a direct arena",
        saves::<DirectArena<P3, u8>>(alloc, DIRECT),
    );
    report.note(
        "save",
        "a strict arena",
        saves_strictly::<P3>(alloc, STRICT),
    );
}

/// Loads each.
pub fn load_each(alloc: Global, report: &mut Report) {
    report.note("load", "texts", loads::<Vec<String>>(alloc, TEXTS));
    report.note("load", "texts as bytes", loads::<InBytes>(alloc, TEXTS));
    report.note("load", "an arena", loads::<Arena<P3, u8>>(alloc, ARENA));
    report.note(
        "load",
        "a direct arena",
        loads::<DirectArena<P3, u8>>(alloc, DIRECT),
    );
    report.note(
        "load",
        "a strict arena",
        loads_strictly::<P3>(alloc, STRICT),
    );
}
