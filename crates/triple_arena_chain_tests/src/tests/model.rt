//! Random calls of sets of keys, beside a plain model of them.

use crate::tests::sets::{Answer, Call, Row, follow};
use rand_core::Rng;
use rand_pcg::Pcg64Mcg;
use std::alloc::Global;
use std::process::Abort;

// How many pins there are at most, each at a place.
const PLACES: usize = 200;

// Nets of pins: each place has the number of its pin's net; nets are numbered from 1 on, and 0 is none.
#[derive(Drop)]
struct Plain {
    net_at: [usize; PLACES],
    names: Vec<u64>,
    pins: usize,
    nets: usize,
}

impl Plain {
    fn new(alloc: Global) -> Plain {
        Plain {
            net_at: [0; PLACES],
            names: Vec::new(alloc),
            pins: 0,
            nets: 0,
        }
    }

    fn size(&self, net: usize) -> usize {
        self.net_at.iter().filter(|at| **at == net).count()
    }

    fn at(&self, place: usize) -> usize {
        self.net_at.get(place).copied().unwrap_or(0)
    }

    fn put_on(&mut self, place: usize, net: usize) {
        if let Some(at) = self.net_at.get_mut(place) {
            *at = net;
        }
    }

    fn name(&self, net: usize) -> Option<u64> {
        self.names.get(net.saturating_sub(1)).copied()
    }

    // A pin, alone on a net of this name.
    fn put(&mut self, rt: &impl Abort, place: usize, name: u64) -> Answer {
        self.names.push(name).expect(rt, "memory");
        let net = self.names.len();
        self.put_on(place, net);
        self.pins = self.pins.saturating_add(1);
        self.nets = self.nets.saturating_add(1);
        Answer::Done
    }

    // A pin on the net of another.
    fn put_beside(&mut self, place: usize, other: usize) -> Answer {
        let net = self.at(other);
        self.put_on(place, net);
        self.pins = self.pins.saturating_add(1);
        Answer::Done
    }

    // One net of those of two pins; the name of the net that is no more, if there were two.
    fn merge(&mut self, pin: usize, other: usize) -> Option<u64> {
        let (first, second) = (self.at(pin), self.at(other));
        if first == second {
            return None;
        }
        let keeps = self.size(second) <= self.size(first);
        let (kept, gone) = if keeps {
            (first, second)
        } else {
            (second, first)
        };
        for at in self.net_at.iter_mut() {
            if *at == gone {
                *at = kept;
            }
        }
        self.nets = self.nets.saturating_sub(1);
        self.name(gone)
    }

    // Another name for the net of a pin.
    fn rename(&mut self, pin: usize, name: u64) -> Answer {
        let net = self.at(pin);
        match self.names.get_mut(net.saturating_sub(1)) {
            Some(at) => {
                *at = name;
                Answer::Is(true)
            }
            None => Answer::Is(false),
        }
    }

    // Takes a pin off; its place, and the name of its net, if it was the last.
    fn cut_off(&mut self, pin: usize) -> Answer {
        let net = self.at(pin);
        let last = self.size(net) == 1;
        self.put_on(pin, 0);
        self.pins = self.pins.saturating_sub(1);
        if last {
            self.nets = self.nets.saturating_sub(1);
            Answer::Gone(pin as u64, self.name(net))
        } else {
            Answer::Gone(pin as u64, None)
        }
    }

    // The name of a pin's net, how many pins that has, and whether another pin is on it.
    fn net(&self, pin: usize, other: usize) -> Answer {
        let net = self.at(pin);
        Answer::OnNet(self.name(net), Some(self.size(net)), net == self.at(other))
    }
}

// Random calls, and what the model answers. A pin is the key of its place.
fn random_rows(rt: &impl Abort, alloc: Global, calls: u32) -> Vec<Row> {
    let mut random = Pcg64Mcg::new(0xcafe_f00d_d15e_a5e5);
    let mut model = Plain::new(alloc);
    let mut rows = Vec::new(alloc);
    let mut pins: [Option<usize>; PLACES] = [None; PLACES];
    let mut inserted: usize = 0;
    for i in 0..calls {
        let word = random.next_u64();
        let place = (word >> 32) as usize % PLACES;
        let other = (word >> 16) as usize % PLACES;
        let name = i as u64;
        let (call, answer) = match (pins[place], pins[other]) {
            (None, None) => (Call::Insert(place as u64, name), model.put(rt, place, name)),
            (None, Some(q)) => (
                Call::InsertKey(q, place as u64),
                model.put_beside(place, other),
            ),
            (Some(p), None) => (Call::RemoveKey(p), model.cut_off(place)),
            (Some(p), Some(q)) => match word % 8 {
                0 => (Call::Union(p, q), Answer::United(model.merge(place, other))),
                1 => (
                    Call::Wire(p, q),
                    Answer::Is(model.merge(place, other).is_some()),
                ),
                2 => (Call::NameNet(p, name), model.rename(place, name)),
                _ => (Call::Net(p, q), model.net(place, other)),
            },
        };
        match call {
            Call::Insert(..) | Call::InsertKey(..) => {
                pins[place] = Some(inserted);
                inserted = inserted.wrapping_add(1);
            }
            Call::RemoveKey(_) => pins[place] = None,
            _ => {}
        }
        rows.push((call, answer, model.pins, model.nets))
            .expect(rt, "memory");
    }
    rows
}

#[test]
fn sets_answer_as_a_plain_model_does(rt: HostRuntime) {
    let rows = random_rows(&rt, rt.alloc(), 100_000);
    follow(&rt, rt.alloc(), rows.as_slice()).expect(&rt, "their answers");
}
