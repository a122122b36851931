//! Sessions at several pointers and stacks, and texts that run over memory up to the whole program, which
//! no clause states.

mod begun_sessions;
mod counters;
mod devices;
mod kinds;
mod large_sizes;
mod program;
mod runs;
mod texts;
