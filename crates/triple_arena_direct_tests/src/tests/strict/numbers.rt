//! A strict arena of numbers: calls by entries, by index and on two, and those that end many entries or tidy.

use crate::tests::shown::strict_is_shown;
use crate::tests::tables::{Answer, Call, Tabled};
use std::alloc::Global;
use triple_arena::ArenaInsertEntryTrait;
use triple_arena_base::GetDisjointMutError;
use triple_arena_direct::{StrictArena, StrictError};
use triple_arena_stack::NonZeroInxGenericStack;
use triple_arena_test_kit::{B, Unlike, inx, numbers_of, pointer};

/// A strict arena of numbers.
#[derive(Drop)]
pub struct Numbers {
    arena: StrictArena<B, u64>,
}

impl Numbers {
    /// A new one.
    pub fn new(alloc: Global) -> Numbers {
        Numbers {
            arena: StrictArena::new(alloc),
        }
    }

    // The answer of a call that inserts.
    fn entering(&mut self, call: Call<'_>) -> Option<Answer> {
        match call {
            Call::Insert(number) => Some(match self.arena.entry_insert() {
                Ok(place) => {
                    *place.insert(0) = number;
                    Answer::Done
                }
                Err(_refused) => Answer::NoPlace,
            }),
            Call::LetEntryGo(_at) => Some(match self.arena.entry_insert_reallocating() {
                Ok(place) => Answer::Given(numbers_of(place.ptr())),
                Err(_refused) => Answer::NoPlace,
            }),
            Call::InsertWithin(number) => {
                Some(match self.arena.entry_insert_within_capacity() {
                    Ok(place) => {
                        let had_place = place.has_place();
                        *place.insert(number) = number;
                        if had_place {
                            Answer::Done
                        } else {
                            Answer::Nothing
                        }
                    }
                    Err(_refused) => Answer::NoPlace,
                })
            }
            Call::InsertReserved(number) => {
                if self.arena.len() < self.arena.capacity() {
                    let next = self.arena.next_ptr();
                    let p = self.arena.insert_reserved(number);
                    if p == next {
                        Some(Answer::Given(numbers_of(p)))
                    } else {
                        Some(Answer::Nothing)
                    }
                } else {
                    Some(Answer::NoPlace)
                }
            }
            _ => None,
        }
    }

    // The answer of a call that reads or tidies.
    fn reading(&mut self, call: Call<'_>) -> Option<Answer> {
        match call {
            Call::GetInx(index) => Some(match self.arena.get_inx(inx(index)) {
                Some((_generation, number)) => Answer::Is(*number),
                None => Answer::Nothing,
            }),
            Call::GenerationAt(index) => Some(
                match (
                    self.arena.get_inx(inx(index)),
                    self.arena.generation_at(inx(index)),
                ) {
                    (Some((generation, _number)), Some(told)) => {
                        if generation == told {
                            Answer::Is(told.get() as u64)
                        } else {
                            Answer::Nothing
                        }
                    }
                    _ => Answer::Nothing,
                },
            ),
            Call::Ends => Some(
                match (
                    self.arena.find_first_inx_ptr(),
                    self.arena.find_last_inx_ptr(),
                ) {
                    (Some(first), Some(last)) => Answer::Pointers(
                        numbers_of(first),
                        numbers_of(last),
                    ),
                    _ => Answer::Nothing,
                },
            ),
            Call::Tidy => {
                self.arena.remove_free_end_slots();
                self.arena.canonicalize_freelist();
                Some(Answer::Done)
            }
            Call::Slots => Some(Answer::Is(self.arena.arena().backing().len() as u64)),
            _ => None,
        }
    }

    // The answer of a call that writes.
    fn writing(&mut self, call: Call<'_>) -> Option<Answer> {
        match call {
            Call::WriteInx(index, number) => Some(match self.arena.get_inx_mut(inx(index)) {
                Some(value) => {
                    *value = number;
                    Answer::Done
                }
                None => Answer::Nothing,
            }),
            Call::WriteIndex(at, number) => {
                let p = pointer(at.0, at.1);
                if self.arena.contains(p) {
                    self.arena[p] = number;
                    Some(Answer::Done)
                } else {
                    Some(Answer::Nothing)
                }
            }
            Call::AddOne => {
                self.arena
                    .for_each_mut(|_p, number| *number = number.wrapping_add(1));
                Some(Answer::Done)
            }
            Call::Exchange(first, second) => {
                let (p, q) = (pointer(first.0, first.1), pointer(second.0, second.1));
                Some(exchanged(
                    self.arena
                        .with_disjoint_mut(p, q, |x, y| { std::mem::swap(x, y) }),
                ))
            }
            Call::ExchangeInx(i, j) => Some(exchanged(
                self.arena
                    .with_disjoint_inx_mut(inx(i), inx(j), |_a, x, _b, y| std::mem::swap(x, y)),
            )),
            _ => None,
        }
    }

    // The answer of a call that ends entries.
    fn ending(&mut self, call: Call<'_>) -> Option<Answer> {
        match call {
            Call::RemoveInx(index) => Some(match self.arena.remove_inx(inx(index)) {
                Ok((_generation, number)) => Answer::Is(number),
                Err(refusal) => Answer::Refused(refusal),
            }),
            Call::Drain => Some(match self.arena.drain() {
                Ok(mut drain) => {
                    let before = drain.len();
                    let taken = drain.next();
                    let left = drain.len();
                    Answer::Drained(before, taken.map(|(_p, number)| number), left)
                }
                Err(refusal) => Answer::Refused(refusal),
            }),
            Call::Retain(least) => {
                let mut asked: u64 = 0;
                let told = self.arena.retain(|_p, number| {
                    asked = asked.saturating_add(1);
                    least <= *number
                });
                Some(match told {
                    Err(refusal) if asked == 0 => Answer::Refused(refusal),
                    _ => Answer::Asked(asked),
                })
            }
            _ => None,
        }
    }
}

impl Tabled for Numbers {
    fn answer(&mut self, call: Call<'_>) -> Option<Answer> {
        self.entering(call)
            .or(self.reading(call))
            .or(self.writing(call))
            .or(self.ending(call))
    }

    fn shows(&mut self, alloc: Global, call: Call<'_>) -> Option<Result<(), Unlike>> {
        match call {
            Call::Text(text) => Some(strict_is_shown(alloc, &self.arena, text)),
            _ => None,
        }
    }
}

fn exchanged(told: Result<(), GetDisjointMutError>) -> Answer {
    match told {
        Ok(()) => Answer::Done,
        Err(refusal) => Answer::NotTwo(refusal),
    }
}
