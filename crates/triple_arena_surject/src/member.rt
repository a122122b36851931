//! What is kept of a key, and of a set.

/// A key, and the pointer of its set in the arena of values.
#[derive(Drop)]
pub struct Member<P, K> {
    pub(crate) key: K,
    pub(crate) set: P,
}

/// The value that the keys of a set share, and how many those are.
#[derive(Drop)]
pub struct Shared<V> {
    pub(crate) value: V,
    pub(crate) keys: usize,
}
