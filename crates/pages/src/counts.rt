//! How many texts were looked at.

/// How many texts were compared with what the program writes, and how many of them differ.
#[derive(Clone, Copy)]
pub struct Counts {
    pub compared: u64,
    pub differ: u64,
}

impl Counts {
    /// No texts.
    pub fn new() -> Counts {
        Counts {
            compared: 0,
            differ: 0,
        }
    }

    /// Counts a text.
    pub fn add(&mut self, alike: bool) {
        self.compared = self.compared.saturating_add(1);
        if !alike {
            self.differ = self.differ.saturating_add(1);
        }
    }
}
