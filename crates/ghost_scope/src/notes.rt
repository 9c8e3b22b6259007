//! Where entries stand, as far as it was noted. Nothing rests on a note: who looks there asks whether it is so.
use crate::period::Period;
use tn_types::MAX_SLOTS;

// So many places are noted, each by the last bits of a period's number.
const NOTES: usize = 256;

// More than any place of an entry.
const NO_PLACE: usize = 65_536;

/// Where the items of a list of periods stand, by their numbers, as far as noted: looked at first, and nothing rests on it.
#[derive(Drop)]
pub struct PlaceNotes {
    places: [u16; NOTES],
}

impl PlaceNotes {
    /// No note.
    pub fn new() -> PlaceNotes {
        PlaceNotes { places: [0; NOTES] }
    }

    /// Notes that the item of this number stands at this place.
    pub fn note(&mut self, n: u32, at: usize) {
        self.places[n as usize % NOTES] = (at % NO_PLACE) as u16;
    }

    /// Where the item of this number stands, if it stands as noted.
    pub fn place(&self, n: u32) -> usize {
        self.places[n as usize % NOTES] as usize
    }
}

/// Notes that the entry of the slot's holder stands at this place.
pub(crate) fn note_seat(seats: &mut [u16; MAX_SLOTS], slot: u8, at: usize) {
    seats[slot as usize] = (at % NO_PLACE) as u16;
}

/// Notes where the entries from this place on stand, each by its slot.
pub(crate) fn note_seats(seats: &mut [u16; MAX_SLOTS], entries: &[Period], from: usize) {
    for at in from..entries.len() {
        note_seat(seats, entries[at].slot, at);
    }
}

/// Notes where the entries from this place on stand.
pub(crate) fn note_from(places: &mut PlaceNotes, entries: &[Period], from: usize) {
    for at in from..entries.len() {
        places.note(entries[at].n, at);
    }
}
