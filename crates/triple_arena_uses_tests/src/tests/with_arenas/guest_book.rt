use triple_arena_test_kit::is;
use triple_arena_uses::guest_book::GuestBook;

// What is found of a guest who left and of one who came then; and the book has both, with pointers
// that differ, and no wrap.
#[test]
fn nobody_gets_the_pointer_of_one_who_left(rt: HostRuntime) {
    let mut book = GuestBook::new(rt.alloc());
    let first = book.arrive(7).expect(&rt, "memory");
    let left = book.leave(first);
    let second = book.arrive(8).expect(&rt, "memory");
    let found = [left, book.get(first).copied(), book.get(second).copied()];
    is(found, [Some(7), None, Some(8)]).expect(&rt, "who is there");
    let has_both = book.came() == [first, second].as_slice();
    let told = [has_both, first != second, !book.wrapped()];
    is(told, [true; 3]).expect(&rt, "who came");
}
