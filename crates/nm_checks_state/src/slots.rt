//! Lines of file systems at a server: slots and images, rolls, and journals.
use crate::fault::Fault;
use crate::journals::{Kept, journal_line};
use crate::named::Named;
use crate::places::Places;
use crate::rolls::roll_line;
use crate::words::chosen;
use nm_roll::Roll;
use nm_types::Memory;
use std::alloc::Global;

// What a line is of.
#[derive(Clone, Copy)]
enum Kind {
    Slot,
    Image,
    Roll,
    Journal,
}

const KINDS: [(&str, Kind); 4] = [
    ("slot", Kind::Slot),
    ("image", Kind::Image),
    ("roll", Kind::Roll),
    ("journal", Kind::Journal),
];

/// What the lines so far have left.
#[derive(Drop)]
pub(crate) struct Slots {
    places: Places,
    rolls: Named<Roll>,
    journals: Named<Kept>,
}

impl Slots {
    /// Before the first line.
    pub(crate) fn new(alloc: Global) -> Result<Slots, Memory> {
        Ok(Slots {
            places: Places::new(alloc),
            rolls: Named::new(alloc),
            journals: Named::new(alloc),
        })
    }

    /// What comes of a line.
    pub(crate) fn line(&mut self, words: &[&[u8]], out: &mut Vec<u8>) -> Result<(), Fault> {
        let [kind, words @ ..] = words else {
            return Err(Fault::Word);
        };
        match chosen(&KINDS, kind)? {
            Kind::Slot => self.places.slot_line(words, out),
            Kind::Image => self.places.image_line(words, out),
            Kind::Roll => roll_line(&mut self.rolls, words, out),
            Kind::Journal => journal_line(&mut self.journals, words, out),
        }
    }
}
