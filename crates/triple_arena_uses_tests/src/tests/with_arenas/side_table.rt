use triple_arena::{Arena, ArenaTrait};
use triple_arena_base::AllocError;
use triple_arena_direct::DirectArena;
use triple_arena_direct_uses::side_table::{NotedEntities, note_each};
use triple_arena_ptr::P0;
use triple_arena_test_kit::is;
use triple_arena_uses::Entity;

// A table for two is full with two entities; what is told of both, and of one that comes after a despawn.
#[test]
fn a_note_goes_with_its_entity(rt: HostRuntime) {
    let mut table = NotedEntities::with_room(rt.alloc(), 2).expect(&rt, "memory");
    let first = table.spawn(100, 7).expect(&rt, "a place");
    let second = table.spawn(100, 8).expect(&rt, "a place");
    is(table.spawn(100, 9).is_err(), true).expect(&rt, "no room for a third");
    let of_first = table.note(first);
    let left = table.despawn(first);
    let fourth = table.spawn(100, 9).expect(&rt, "a place");
    let found = [
        of_first,
        left,
        table.note(first),
        table.note(second),
        table.note(fourth),
    ];
    let wanted = [Some(7), Some(7), None, Some(8), Some(9)];
    is(found, wanted).expect(&rt, "notes by pointers");
}

fn entity(health: u32) -> Entity {
    Entity {
        health,
        parent: None,
    }
}

// Of three entities the first is gone.
#[test]
fn a_note_is_put_beside_each_entity(rt: HostRuntime) {
    let mut entities: Arena<P0, Entity> = Arena::on_heap(rt.alloc());
    let gone = entities.insert(entity(10)).expect(&rt, "memory");
    let second = entities.insert(entity(20)).expect(&rt, "memory");
    let third = entities.insert(entity(30)).expect(&rt, "memory");
    drop(entities.remove(gone));
    let mut notes: DirectArena<P0, u64> = DirectArena::new(rt.alloc());
    let noted = note_each(&entities, &mut notes, |_p, entity: &Entity| {
        Ok::<u64, AllocError>(u64::from(entity.health) + 1)
    });
    noted.expect(&rt, "memory");
    let found = [
        notes.get(gone).copied(),
        notes.get(second).copied(),
        notes.get(third).copied(),
    ];
    is(found, [None, Some(21), Some(31)]).expect(&rt, "notes by pointers");
}
