// Pattern values with one part altered; a slot that is not there leaves the value as it is.
use pattern::{Edge, Guard, Kind, Pattern, Place, Test};

pub fn with_header(p: Pattern, channels: u8, clocks: u8, low: u16, high: u16) -> Pattern {
    Pattern {
        channels,
        clocks,
        low,
        high,
        ..p
    }
}

// How many places and edges are in use.
pub fn with_counts(p: Pattern, placecount: u8, edgecount: u8) -> Pattern {
    Pattern {
        placecount,
        edgecount,
        ..p
    }
}

// A slot's new value, if the slot is there.
fn put<T: Copy>(slots: &mut [T], slot: usize, value: T) {
    if let Some(old) = slots.get_mut(slot) {
        *old = value;
    }
}

// A place's kind, and how many of its tests are in use.
pub fn with_place(mut p: Pattern, place: usize, kind: Kind, count: u8) -> Pattern {
    if let Some(l) = p.places.get_mut(place) {
        *l = Place { kind, count, ..*l };
    }
    p
}

// Another field than in `with_guard` and `with_reset`: a function for all would only take a closure that does the same.
pub fn with_test(mut p: Pattern, place: usize, slot: usize, test: Test) -> Pattern {
    if let Some(l) = p.places.get_mut(place) {
        put(&mut l.tests, slot, test);
    }
    p
}

// An edge's ends, and how many of its guards are in use.
pub fn with_edge(mut p: Pattern, edge: usize, from: u8, to: u8, count: u8) -> Pattern {
    if let Some(e) = p.edges.get_mut(edge) {
        *e = Edge {
            from,
            to,
            count,
            ..*e
        };
    }
    p
}

pub fn with_guard(mut p: Pattern, edge: usize, slot: usize, guard: Guard) -> Pattern {
    if let Some(e) = p.edges.get_mut(edge) {
        put(&mut e.guards, slot, guard);
    }
    p
}

// The clock is among the edge's resets.
pub fn with_reset(mut p: Pattern, edge: usize, clock: usize) -> Pattern {
    if let Some(e) = p.edges.get_mut(edge) {
        put(&mut e.resets, clock, true);
    }
    p
}
