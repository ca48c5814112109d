ghost use Rattle.std.specs.Prelude.{◌≡◌, ◌<◌, ◌≤◌};
ghost use Rattle.filtering.specs.Waits.{queue, Orderly, Idle, behind, Pops};

use bits::Set;
use std::marker::Model;

// How many records can wait: as many as a model has at most.
const ROOM: usize = 64;

// The records that wait, first in first out: `len` places of the ring from `head` on, and the set of them. None stands twice.
#[derive(Clone, Copy)]
pub struct WaitingList {
    ring: [u8; 64],
    set: Set,
    head: usize,
    len: usize,
}

impl Model for WaitingList {
    ghost use Rattle.filtering.specs.Rings.{Ring, Orderly};

    ghost Value = { Ring };

    ghost view = { λ l. record { ring = l.ring; set = l.set; head = l.head; len = l.len } };

    ghost invariant = { λ l. Orderly (record { ring = l.ring; set = l.set; head = l.head; len = l.len }) };

    ghost inverse = { λ r. record { ring = r.ring; set = r.set; head = r.head; len = r.len } };
}

impl WaitingList {
    pub fn new() -> WaitingList
        ensures { Idle result }
    {
        WaitingList {
            ring: [0; 64],
            set: Set::empty(),
            head: 0,
            len: 0,
        }
    }

    // No record waits any more.
    pub fn clear(&mut self)
        ensures { Idle self.new }
    {
        self.set = Set::empty();
        self.len = 0;
    }

    // The record waits behind all others, unless it waits already or is none that a model can have.
    pub fn push(&mut self, item: usize)
        ensures order { Orderly self.new }
        ensures waits { item < 64 → queue self.new ≡ behind (queue self.old) item }
        ensures past { 64 ≤ item → self.new ≡ self.old }
    {
        if item >= ROOM || self.set.has(item) {
            return;
        }
        let len = self.len;
        let at = (self.head % ROOM + len) % ROOM;
        self.ring[at] = item as u8;
        self.set = self.set.with(item);
        self.len = len + 1;
    }

    // The record that has waited longest, which waits no more; none where no record waits.
    pub fn pop(&mut self) -> Option<usize>
        ensures order { Orderly self.new }
        ensures pops { Pops (queue self.old) result (queue self.new) }
    {
        if self.len == 0 {
            return None;
        }
        let head = self.head % ROOM;
        let item = self.ring[head] as usize;
        self.head = head + 1;
        self.len -= 1;
        self.set = self.set.without(item);
        Some(item)
    }
}
