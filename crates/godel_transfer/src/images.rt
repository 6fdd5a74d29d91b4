//! What the introduced names of a branch became.

ghost use Rattle.std.specs.Prelude.{◌≡◌, ◌<◌, ◌∷◌, [], ℕ, OnOk, length};
ghost use Rattle.godel_transfer.specs.ImagesView.{AreImages, found, images_of, latest, place_told};

use crate::numbers::{next, place_of};
use cop_base::NoMemory;
use indexmap::IndexMap;
use std::alloc::Global;

/// A name's number and the number that it became. `before` is how many images there were with the
/// last one of the same name that stands before this one, or 0.
#[derive(Clone, Copy)]
pub struct Image {
    pub number: u32,
    pub image: u32,
    pub before: u32,
}

/// Images of names in the order in which they were added, which hide earlier ones of the same name.
/// They are cut back as branches are.
#[derive(Drop)]
pub struct Images {
    pub items: Vec<Image>,
    /// How many images there are with the last one of a name, or 0.
    pub places: IndexMap<u32, u32>,
}

impl Images {
    /// No images.
    pub fn new(alloc: Global) -> Images
        ensures none { images_of result ≡ [] }
        ensures images { AreImages result }
    {
        Images {
            items: Vec::new(alloc),
            places: IndexMap::new(alloc),
        }
    }

    fn place(&self, number: u32) -> u32
        ensures { result ≡ place_told self.now number }
    {
        match self.places.get(&number) {
            Some(place) => *place,
            None => 0,
        }
    }

    /// The latest image of a name.
    pub fn find(&self, number: u32) -> Option<u32>
        requires images { AreImages self.now }
        ensures { result ≡ found (images_of self.now) number }
    {
        let place = self.place(number) as usize;
        if place == 0 {
            return None;
        }
        if place > self.items.len() {
            return None;
        }
        Some(self.items[place - 1].image)
    }

    /// Adds an image.
    pub fn push(&mut self, number: u32, image: u32) -> Result<(), NoMemory>
        requires images { AreImages self.old }
        ensures pushed { OnOk result (images_of self.new ≡ (number, image) ∷ images_of self.old) }
        ensures images { OnOk result (AreImages self.new) }
    {
        let before = self.place(number);
        self.items.push(Image {
            number,
            image,
            before,
        })?;
        let place = place_of(self.items.len())?;
        self.places.insert(number, place)?;
        Ok(())
    }

    // Takes the last image away.
    fn pop(&mut self) -> Result<(), NoMemory>
        requires some { 0 < length (images_of self.old) }
        requires images { AreImages self.old }
        ensures popped { OnOk result ((x : ℕ × ℕ) × (images_of self.old ≡ x ∷ images_of self.new)) }
        ensures images { OnOk result (AreImages self.new) }
    {
        match self.items.pop() {
            Some(last) => {
                self.places.insert(last.number, last.before)?;
                Ok(())
            }
            None => Ok(()),
        }
    }

    /// Keeps the first ones.
    pub fn cut(&mut self, count: usize) -> Result<(), NoMemory>
        requires images { AreImages self.old }
        ensures cut { OnOk result (images_of self.new ≡ latest count (images_of self.old)) }
        ensures images { OnOk result (AreImages self.new) }
    {
        while self.items.len() > count {
            self.pop()?;
        }
        Ok(())
    }
}
