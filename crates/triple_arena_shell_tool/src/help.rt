//! What there is to write.

/// The lines that there are, as comments.
pub const HELP: &str = "\
# A line is a call; it is written again with its answer. What stands behind ' ->' in it is not read.
#   P is a pointer as it is shown, such as P0[a](2), in hexadecimal, or `invalid`; an index I, a generation G, a size N
#   and a value V are in decimal; BOOL is true or false. What stands in brackets may be left out.
# pointers P0 | P4 | P5 | B                              all arenas end; those that come have these pointers
# new NAME heap | limited | fixed | array [N]            an arena under a name, with room for N; of P4 and P5 none is
#                                                        `fixed` or `array`
# drop NAME                                              ends it
# NAME insert V                                          also insert_reallocating, insert_within_capacity
# NAME next_ptr                                          where there is a place; so too insert_reserved V
# NAME entry_insert [V]                                  the pointer that an entry tells; V is inserted by it; also
#                                                        entry_insert_reallocating, entry_insert_within_capacity
# NAME get P                                             also contains, get_mut P [V]
# NAME get_inx I                                         also generation_at, get_inx_mut I [V]
# NAME remove P                                          also invalidate, remove_inx I
# NAME clear
# NAME compress BOOL                                     whether the counter begins anew
# NAME drain N                                           what N steps of a drain take out; then it is let go
# NAME len                                               also is_empty, capacity, max_capacity, bounds (all of these)
# NAME reallocate_min_capacity N                         also set_max_capacity, of `limited`
# NAME ptrs                                              also vals, iter, show (the arena)
# NAME advancer                                          also advancer_inx I BOOL (whether it goes downward)
# NAME find_first_inx_ptr                                also find_last_inx_ptr
# NAME with_disjoint_mut P P                             exchanges two values; also with_disjoint_inx_mut I I
# NAME generation                                        also set_generation G, inc_generation, singular_generation
# NAME free                                              the free indexes as insertion takes them; also freelist_root
# NAME slots                                             also canonicalize_freelist, remove_free_end_slots
# NAME state                                             bounds, generation, slots, free indexes and entries
# help";
