use std::num::NonZeroUsize;
use triple_arena_ptr::{P0, Ptr, PtrGen};
use triple_arena_test_kit::is;
use triple_arena_uses::{Entity, EntityTable};

fn heal_if_there(table: &mut EntityTable, p: P0) {
    if table.get(p).is_some() {
        table.heal(p);
    }
}

// A mother and her child, the child after she is gone, and a sister that comes then: no other entity is
// taken for the mother.
#[test]
fn a_child_outlives_its_parent(rt: HostRuntime) {
    let mut table: EntityTable = EntityTable::new(rt.alloc());
    let mother = table.spawn(None).expect(&rt, "memory");
    let child = table.spawn(Some(mother)).expect(&rt, "memory");
    let hurt = table.damage(child, 30);
    let gone = [table.despawn(mother), table.despawn(mother)];
    is(gone, [true, false]).expect(&rt, "that the mother goes once");
    let sister = table.spawn(Some(mother)).expect(&rt, "memory");
    let of_mother = table.damage(mother, 1);
    let found = [table.get(mother).copied(), table.get(child).copied()];
    let first = P0::_from_raw(NonZeroUsize::MIN, PtrGen::two());
    let left = Entity {
        health: 70,
        parent: Some(first),
    };
    is(found, [None, Some(left)]).expect(&rt, "the mother and her child");
    let dead = table.damage(child, 100);
    heal_if_there(&mut table, child);
    let whole = table.damage(child, 0);
    let of_sister = table.damage(sister, 0);
    let health = [hurt, of_mother, dead, whole, of_sister];
    let wanted = [Some(70), None, Some(0), Some(100), Some(100)];
    is(health, wanted).expect(&rt, "the health of each");
}

// Of three entities the second is gone when all are damaged.
#[test]
fn each_entity_is_damaged(rt: HostRuntime) {
    let mut table: EntityTable = EntityTable::new(rt.alloc());
    let first = table.spawn(None).expect(&rt, "memory");
    let second = table.spawn(None).expect(&rt, "memory");
    let third = table.spawn(None).expect(&rt, "memory");
    let hurt = table.damage(third, 80);
    let _gone = table.despawn(second);
    table.damage_all(30);
    let health = [
        hurt,
        table.damage(first, 0),
        table.damage(second, 0),
        table.damage(third, 0),
    ];
    let wanted = [Some(20), Some(70), None, Some(0)];
    is(health, wanted).expect(&rt, "the health of each");
}
