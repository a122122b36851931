//! The texts of refusals.

use triple_arena_chain::ChainError;
use triple_arena_surject::SurjectError;
use triple_arena_test_kit::are_written;

const NO_ROOM: &str = "there is no room";

const NO_MEMORY: &str = "memory was refused";

const OF_CHAINS: &[(ChainError, &str, &str)] = &[
    (ChainError::NoEntry, "there is no such entry", "NoEntry"),
    (ChainError::Taken, "the place is taken", "Taken"),
    (ChainError::NoRoom, NO_ROOM, "NoRoom"),
    (ChainError::NoMemory, NO_MEMORY, "NoMemory"),
];

const OF_SETS: &[(SurjectError, &str, &str)] = &[
    (SurjectError::NoEntry, "there is no such key", "NoEntry"),
    (SurjectError::NoRoom, NO_ROOM, "NoRoom"),
    (SurjectError::NoMemory, NO_MEMORY, "NoMemory"),
];

#[test]
fn refusals_have_their_texts(rt: HostRuntime) {
    are_written(rt.alloc(), OF_CHAINS).expect(&rt, "the texts of ChainError");
    are_written(rt.alloc(), OF_SETS).expect(&rt, "the texts of SurjectError");
}
