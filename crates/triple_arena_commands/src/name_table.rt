//! The table of the pointers that were given, by name.

ghost use Rattle.std.specs.Prelude.{◌≡◌, ◌+◌, ◌<◌, ◌++◌, ◌∷◌, [], length, map, true, None, Some, IsOk, IfSome, OnOk, OnErr};
ghost use Rattle.std.specs.List.{position};
ghost use Rattle.std.specs.Option.{option_map};
ghost use Rattle.triple_arena_base.specs.Held.{recast_item};
ghost use Rattle.triple_arena_stack.specs.Capacity.{stack_capacity, most_places, room_for_one_more, HasPlace, CanGrow};
ghost use Rattle.triple_arena_traits.specs.Items.{item, with_item};
ghost use Rattle.triple_arena_ptr.specs.Pointers.{is_same};
ghost use Rattle.triple_arena_commands.specs.PointerNames.{name_of};
ghost use Rattle.triple_arena_commands.specs.NameLayout.{pointers_of, RecastsAt};

use std::alloc::Global;
use std::marker::Model;
use std::num::NonZeroUsize;
use triple_arena_base::{AllocError, ReallocationError, Recaster};
use triple_arena_ptr::Ptr;
use triple_arena_stack::{NonZeroInxGenericStack, NonZeroInxStack, NonZeroInxVec};

/// What a table keeps at one number.
#[derive(Drop)]
struct Row<P> {
    // The pointer of the name of this number.
    pointer: P,
    // The name that its entry is said to link to, or 0. A hint: what it tells is tried before it is used.
    link: usize,
}

/// The pointers that were given, that of name 1 first, with room for so many of them.
///
/// The name of a pointer is the least place at which the table has it.
#[derive(Drop)]
pub struct NameTable<P: Ptr> {
    rows: NonZeroInxVec<Row<P>>,
}

impl<P: Ptr> Model for NameTable<P> {
    ghost use Rattle.triple_arena_stack.specs.StackState.{Roomed};
    ghost use Rattle.triple_arena_commands.specs.NameLayout.{pointers_of};

    ghost Value = { Roomed P };

    ghost view = { λ t. record { items = pointers_of t.rows.items; room = t.rows.room } };
}

impl<P: Ptr> NameTable<P> {
    /// A table of no pointers, with no room. It takes no memory.
    pub fn new(alloc: Global) -> Self
        ensures items { result.items ≡ [] }
        ensures room { result.room ≡ 0 }
    {
        NameTable {
            rows: NonZeroInxVec::new(alloc),
        }
    }

    /// Makes room for one more pointer where there is none; the pointers stay. It takes no memory
    /// where there is room.
    ///
    /// Refused only where there is no room and memory is refused; then nothing changes.
    pub fn make_room(&mut self) -> Result<(), AllocError>
        ensures items { self.new.items ≡ self.old.items }
        ensures grown { OnOk result (self.new.room
            ≡ room_for_one_more self.old.room None (length self.old.items)) }
        ensures room { OnOk result (length self.new.items < self.new.room) }
        ensures had_room { length self.old.items < self.old.room → IsOk result }
        ensures refused { OnErr result
            ((length self.old.items ≡ self.old.room) × (self.new ≡ self.old)) }
    {
        if self.rows.len() < self.rows.capacity() {
            return Ok(());
        }
        match make_place(&mut self.rows) {
            Ok(()) => Ok(()),
            Err(_) => Err(AllocError),
        }
    }

    /// Pushes a pointer and gives its name, the number of its place, counted from 1. The table must
    /// have room, as after [`Self::make_room`]. It takes no memory, and the room stays.
    ///
    /// The link is a hint for [`Self::hinted_name`]: the name that the entry of the pointer links to.
    pub fn push(&mut self, p: P, link: Option<usize>) -> usize
        requires { length self.old.items < self.old.room }
        ensures number { result ≡ length self.old.items + 1 }
        ensures items { self.new.items ≡ self.old.items ++ p ∷ [] }
        ensures room { self.new.room ≡ self.old.room }
    {
        let row = Row {
            pointer: p,
            link: link.unwrap_or(0),
        };
        let (inx, _row) = self.rows.push_reserved(row);
        inx.get()
    }

    // Puts a pointer in the place of that of a name, if it was given.
    fn replace(&mut self, name: usize, p: P)
        ensures items { self.new.items ≡ with_item self.old.items name p }
        ensures room { self.new.room ≡ self.old.room }
    {
        let Some(inx) = NonZeroUsize::new(name) else {
            return;
        };
        let Some(row) = self.rows.get_mut(inx) else {
            return;
        };
        row.pointer = p;
    }

    /// Replaces each pointer that has an image by this; the others stay, and so does the room. It
    /// takes no memory, and has no refusal.
    pub fn rename<R: Recaster<Item = P>>(&mut self, recaster: &R)
        ensures items { self.new.items
            ≡ map (λ p. recast_item (R.image recaster.now p) p) self.old.items }
        ensures room { self.new.room ≡ self.old.room }
    {
        'names: for before in 0..self.len() {
            self.rename_at(recaster, before + 1);
        }
    }

    // Replaces the pointer of a name by its image, if it has one.
    fn rename_at<R: Recaster<Item = P>>(&mut self, recaster: &R, name: usize)
        ensures items { RecastsAt (R.image recaster.now) name self.old.items self.new.items }
        ensures room { self.new.room ≡ self.old.room }
    {
        let Some(p) = self.pointer(name) else {
            return;
        };
        let mut image = p;
        match recaster.recast_item(&mut image) {
            Ok(()) => self.replace(name, image),
            Err(_) => {}
        }
    }

    // How many pointers there are.
    fn len(&self) -> usize
        ensures { result ≡ length self.now.items }
    {
        self.rows.len()
    }

    /// Notes the link of the entry of a name, as [`Self::push`] does. Pointers and room stay, and a
    /// name that was never given is passed over.
    pub fn note_link(&mut self, holder: usize, link: Option<usize>)
        ensures { self.new ≡ self.old }
    {
        let Some(inx) = NonZeroUsize::new(holder) else {
            return;
        };
        let Some(row) = self.rows.get_mut(inx) else {
            return;
        };
        row.link = link.unwrap_or(0);
    }

    /// The pointer of a name; none exactly where the name is 0 or was never given.
    pub fn pointer(&self, name: usize) -> Option<P>
        ensures { result ≡ item self.now.items name }
    {
        let row = self.rows.get(NonZeroUsize::new(name)?)?;
        Some(row.pointer)
    }

    /// The name that [`Self::hint`] gives of `holder`, if the table has this pointer at it. Where no pointer
    /// stands twice in the table, that is the name of the pointer.
    pub fn hinted_name(&self, holder: usize, p: P) -> Option<usize>
        ensures { IfSome result (λ name. option_map P.numbers (item self.now.items name) ≡ Some (P.numbers p)) }
    {
        match self.hint(holder) {
            Some(name) if self.has_at(name, p) => Some(name),
            _ => None,
        }
    }

    // Whether the table has a pointer at the place of a name.
    fn has_at(&self, name: usize, p: P) -> bool
        ensures { result ≡ true
            → option_map P.numbers (item self.now.items name) ≡ Some (P.numbers p) }
    {
        match self.pointer(name) {
            Some(q) => q == p,
            None => false,
        }
    }

    /// The name that the entry of a name is said to link to, as [`Self::push`] or
    /// [`Self::note_link`] noted it last. A hint, of which no clause says that it is right.
    pub fn hint(&self, holder: usize) -> Option<usize> {
        let row = self.rows.get(NonZeroUsize::new(holder)?)?;
        if row.link == 0 { None } else { Some(row.link) }
    }

    /// The name of a pointer: the least place at which the table has it, and none exactly where it
    /// hasn't. It is found by looking through the table.
    pub fn name(&self, p: P) -> Option<usize>
        ensures { result ≡ name_of
            (map P.numbers self.now.items)
            (P.numbers p) }
    {
        Some(position_of(self.rows.as_slice(), p)? + 1)
    }
}

// Makes a place for one more item on a stack of any kind; the items stay. Refused only where the
// stack is full and can't grow: its limit is reached, or memory isn't there. So it can't give up
// without asking.
fn make_place<T, K: NonZeroInxGenericStack<T>>(
    stack: &mut NonZeroInxStack<T, K>,
) -> Result<(), ReallocationError>
    ensures items { K.items stack.new ≡ K.items stack.old }
    ensures limit { K.limit stack.new ≡ K.limit stack.old }
    ensures room { OnOk result (K.room stack.new
        ≡ room_for_one_more (K.room stack.old) (K.limit stack.old) (length (K.items stack.old))) }
    ensures place { OnOk result
        (HasPlace (K.room stack.new) (K.limit stack.new) (length (K.items stack.new))) }
    ensures with_memory { CanGrow K.has_memory
        (stack_capacity (K.room stack.old) (K.limit stack.old))
        (K.limit stack.old) most_places → IsOk result }
    ensures refused { OnErr result (stack.new ≡ stack.old) }
{
    match stack.entry_push_reallocating() {
        Ok(_entry) => Ok(()),
        Err(refusal) => Err(refusal),
    }
}

// The first position at which rows have a pointer.
fn position_of<P: Ptr>(rows: &[Row<P>], p: P) -> Option<usize>
    ensures position { result ≡ position
        (λ q. is_same q (P.numbers p))
        (map P.numbers
        (pointers_of rows.now)) }
    ensures within { IfSome result (λ at. at < length rows.now) }
{
    first_row(rows, p)
}

// The first position at which rows have an item that is equal to this one.
fn first_row<T: PartialEq + Copy>(rows: &[Row<T>], item: T) -> Option<usize>
    ensures position { result ≡ position (λ row. T.eq row.pointer item) rows.now }
    ensures within { IfSome result (λ at. at < length rows.now) }
{
    rows.iter().position(|row| row.pointer == item)
}
