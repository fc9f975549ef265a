// A line of a script, as its bytes come.
use text::line::part;

// A line that is too long keeps one byte more than the longest.
const LINE: usize = 1024;

#[derive(Drop)]
pub struct Line {
    array: [u8; LINE],
    length: usize,
}

impl Line {
    pub fn new() -> Line {
        Line {
            array: [0; LINE],
            length: 0,
        }
    }

    // What it has no room for is dropped.
    pub fn push(&mut self, bytes: &[u8]) {
        if let Some(free) = self.array.get_mut(self.length..) {
            let kept = bytes.len().min(free.len());
            free[..kept].copy_from_slice(&bytes[..kept]);
            self.length += kept;
        }
    }

    pub fn clear(&mut self) {
        self.length = 0;
    }

    pub fn bytes(&self) -> &[u8] {
        part(&self.array, 0, self.length)
    }
}
