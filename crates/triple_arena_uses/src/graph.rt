//! A directed graph: nodes in an arena, each with the pointers of its neighbours.
//!
//! No function has a clause. Each is proved all the same to return, whatever pointers it is given,
//! without a panic or an access out of bounds.

use std::alloc::{AllocError, Global};
use std::collections::HashSet;
use triple_arena::Arena;
use triple_arena_base::ReallocationError;
use triple_arena_ptr::P0;

/// A node: its label, and the nodes that its edges lead to.
#[derive(Drop)]
pub struct Node {
    pub label: u64,
    pub neighbours: Vec<P0>,
}

/// A directed graph. An edge to a node that was removed leads nowhere.
#[derive(Drop)]
pub struct Graph {
    nodes: Arena<P0, Node>,
    alloc: Global,
}

impl Graph {
    /// A graph without nodes.
    pub fn new(alloc: Global) -> Self {
        Graph {
            nodes: Arena::on_heap(alloc),
            alloc,
        }
    }

    /// A new node, without edges.
    pub fn add(&mut self, label: u64) -> Result<P0, ReallocationError> {
        self.nodes.insert(Node {
            label,
            neighbours: Vec::new(self.alloc),
        })
    }

    /// A new edge. False, and no edge, where `from` isn't a node.
    pub fn connect(&mut self, from: P0, to: P0) -> Result<bool, AllocError> {
        let Some(node) = self.nodes.get_mut(from) else {
            return Ok(false);
        };
        node.neighbours.push(to)?;
        Ok(true)
    }

    /// Takes a node away, with the edges from it, even if the counter wraps.
    pub fn remove(&mut self, p: P0) -> Option<Node> {
        self.nodes.remove(p).allow()
    }

    /// The node under a pointer.
    pub fn get(&self, p: P0) -> Option<&Node> {
        self.nodes.get(p)
    }

    /// The labels of the nodes that edges lead to from `p`.
    pub fn neighbour_labels(&self, p: P0) -> Result<Vec<u64>, AllocError> {
        let mut labels = Vec::new(self.alloc);
        if let Some(node) = self.get(p) {
            for q in &node.neighbours {
                if let Some(neighbour) = self.get(*q) {
                    labels.push(neighbour.label)?;
                }
            }
        }
        Ok(labels)
    }

    /// The nodes that paths lead to from `start`, each once: itself, and then the nearer first.
    pub fn reachable(&self, start: P0) -> Result<Vec<P0>, AllocError> {
        let mut seen = HashSet::new(self.alloc);
        let mut found = Vec::new(self.alloc);
        if self.get(start).is_some() {
            seen.insert(start)?;
            found.push(start)?;
        }
        // No more nodes are found than there are.
        for place in 0..self.nodes.len() {
            let Some(p) = found.get(place) else {
                break;
            };
            let Some(node) = self.get(*p) else {
                break;
            };
            for q in &node.neighbours {
                if self.get(*q).is_some() && seen.insert(*q)? {
                    found.push(*q)?;
                }
            }
        }
        Ok(found)
    }
}
