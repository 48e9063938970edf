//! A list with a gap before it.
ghost use Rattle.std.specs.Prelude.{◌≡◌, ◌<◌, ◌≤◌, ◌+◌, ◌∷◌, true, false, drop, length, vec_capacity, vec_len};
ghost use Rattle.std.specs.List.{insert, remove};

use std::marker::Model;

/// Places in an order that the caller keeps, with room for so many. It takes no memory once it is
/// made.
///
/// Taking out the first or the last one moves no other, and putting one in before all moves them so
/// rarely that it costs a step or two. Elsewhere either moves those behind it.
pub struct PlaceQueue {
    items: Vec<u32>,
    /// How many of the items are taken out already.
    start: usize,
    room: usize,
}

// Not derived: so it is dropped in one step where it is held.
impl Drop for PlaceQueue {
    fn drop(self) {
        let PlaceQueue {
            items: _,
            start: _,
            room: _,
        } = self;
    }
}

impl Model for PlaceQueue {
    ghost use Rattle.std.specs.Prelude.{drop, length, vec_capacity};
    ghost use Rattle.place_queue.specs.Queues.{Queue, IsLaidOut};

    ghost Value = { Queue };

    ghost view = { λ q. record { items = drop q.start q.items.items; room = q.room } };

    ghost invariant = { λ q. IsLaidOut q.start q.room (length q.items.items)
        (vec_capacity q.items) };
}

/// Makes room behind the items, of which so many are taken out, and answers how many of them are
/// still kept before the others.
fn make_room(items: &mut Vec<u32>, start: usize) -> usize
    requires within { start ≤ length items.old.items }
    requires few { length items.old.items < vec_capacity items.old + start }
    ensures same { drop result items.new.items ≡ drop start items.old.items }
    ensures within { result ≤ length items.new.items }
    ensures room { vec_len items.new < vec_capacity items.new }
    ensures capacity { vec_capacity items.new ≡ vec_capacity items.old }
{
    if items.len() < items.capacity() {
        return start;
    }
    let left = items.len() - start;
    items.rotate_left(start);
    items.truncate(left);
    0
}

/// Makes a gap before the items, half as long as the room behind them, and answers how long it is.
fn make_gap(items: &mut Vec<u32>) -> usize
    ensures same { drop result items.new.items ≡ items.old.items }
    ensures within { result ≤ length items.new.items }
    ensures capacity { vec_capacity items.old ≤ vec_capacity items.new }
{
    let (count, room) = (items.len(), items.capacity() - items.len());
    let gap = room / 2;
    items.resize(count + gap, 0).unwrap();
    items.rotate_left(count);
    gap
}

impl PlaceQueue {
    /// These places, with room for so many. With twice the room in the list, what stands behind the
    /// gap is moved so rarely that it costs a step or two each time.
    pub fn from_vec(items: Vec<u32>, room: usize) -> PlaceQueue
        requires { room ≤ vec_capacity items }
        ensures { result ≡ record { items = items.items; room = room } }
    {
        PlaceQueue {
            items,
            start: 0,
            room,
        }
    }

    /// The places in order.
    pub fn as_slice(&self) -> &[u32]
        ensures { result.now ≡ self.now.items }
    {
        &self.items[self.start..]
    }

    /// Sees to a gap before the first place, if there is room for one.
    fn open_gap(&mut self)
        ensures { self.new ≡ self.old }
    {
        if self.start == 0 && !self.items.is_empty() {
            self.start = make_gap(&mut self.items);
        }
    }

    /// Puts a place before the first one, where there is a gap; says whether there is.
    fn put_first(&mut self, place: u32) -> bool
        ensures put { result ≡ true → self.new ≡ record self.old
            { items = place ∷ self.old.items } }
        ensures full { result ≡ false → self.new ≡ self.old }
    {
        self.open_gap();
        if self.start == 0 {
            return false;
        }
        self.start -= 1;
        self.items[self.start] = place;
        true
    }

    /// Puts a place behind so many, and moves those that follow.
    fn put_behind(&mut self, at: usize, place: u32)
        requires at { at ≤ length self.old.items }
        requires room { length self.old.items < self.old.room }
        ensures { self.new ≡ record self.old { items = insert self.old.items at place } }
    {
        self.start = make_room(&mut self.items, self.start);
        self.items.insert(self.start + at, place).unwrap();
    }

    /// Puts a place before the one that has this number, counted from 0, or behind all.
    pub fn insert(&mut self, at: usize, place: u32)
        requires at { at ≤ length self.old.items }
        requires room { length self.old.items < self.old.room }
        ensures { self.new ≡ record self.old { items = insert self.old.items at place } }
    {
        if at > 0 {
            self.put_behind(at, place);
        } else if !self.put_first(place) {
            self.put_behind(0, place);
        }
    }

    /// Takes out the place that has this number, counted from 0.
    pub fn remove(&mut self, at: usize)
        requires { at < length self.old.items }
        ensures { self.new ≡ record self.old { items = remove self.old.items at } }
    {
        if at == 0 {
            self.start += 1;
            return;
        }
        self.items.remove(self.start + at);
    }
}
