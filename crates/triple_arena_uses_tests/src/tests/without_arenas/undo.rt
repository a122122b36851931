use std::alloc::Global;
use std::process::Abort;
use triple_arena_stack::{NonZeroInxArray, NonZeroInxGenericStack, NonZeroInxVec};
use triple_arena_test_kit::is;
use triple_arena_uses::undo::move_last;

// How many steps are done and undone, after two undos where one fits, and after it is done again.
fn undone<A: NonZeroInxGenericStack<u32> + Drop, B: NonZeroInxGenericStack<u32> + Drop>(
    rt: &impl Abort,
    alloc: Global,
) -> ([(usize, usize); 3], bool) {
    let mut done = A::new(alloc);
    let mut undone = B::new(alloc);
    done.push(1).expect(rt, "memory");
    done.push(2).expect(rt, "memory");
    move_last(&mut done, &mut undone);
    let first = (done.len(), undone.len());
    move_last(&mut done, &mut undone);
    let second = (done.len(), undone.len());
    move_last(&mut undone, &mut done);
    let third = (done.len(), undone.len());
    ([first, second, third], done.as_slice() == [1, 2].as_slice())
}

#[test]
fn a_step_is_undone_and_done_again(rt: HostRuntime) {
    let told = undone::<NonZeroInxVec<u32>, NonZeroInxArray<u32, 1>>(&rt, rt.alloc());
    is(told, ([(1, 1), (1, 1), (2, 0)], true)).expect(&rt, "steps done and undone");
}
