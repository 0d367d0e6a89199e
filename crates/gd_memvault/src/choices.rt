//! The choices of an image.

ghost use Rattle.std.specs.Prelude.{◌≤◌};

/// Choices that are used in turn. Where they are used up the choice is 0.
#[derive(Drop)]
pub struct Choices<'a> {
    pick: &'a [u64],
    next: usize,
}

impl<'a> Choices<'a> {
    pub fn new(pick: &'a [u64]) -> Choices<'a> {
        Choices { pick, next: 0 }
    }

    pub fn next(&mut self) -> u64 {
        match self.pick.get(self.next) {
            Some(choice) => {
                self.next = self.next.saturating_add(1);
                *choice
            }
            None => 0,
        }
    }

    /// A choice up to a number.
    pub fn up_to(&mut self, most: usize) -> usize
        ensures { result ≤ most }
    {
        let choice = self.next();
        if choice < most as u64 {
            choice as usize
        } else {
            most
        }
    }

    /// A choice of a byte.
    pub fn byte(&mut self) -> u8 {
        (self.next() % 256) as u8
    }
}
