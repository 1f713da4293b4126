// Sheets, field by field, in a lent memory. What has no room is left out.
use input::tag::{CLOSE, OPEN, TEXT};
use text::buffer::front;

#[derive(Drop)]
pub struct Sheet<'a> {
    memory: &'a mut [u8],
    len: usize,
}

impl<'a> Sheet<'a> {
    pub fn new(memory: &'a mut [u8]) -> Sheet<'a> {
        Sheet { memory, len: 0 }
    }

    pub fn bytes(&self) -> &[u8] {
        front(self.memory, self.len)
    }

    fn put(&mut self, b: u8) {
        if self.len < self.memory.len() {
            self.memory[self.len] = b;
            self.len += 1;
        }
    }

    // A field, of at most 255 bytes.
    pub fn field(&mut self, tag: u8, body: &[u8]) {
        self.put(tag);
        self.put(0);
        self.put((body.len() % 256) as u8);
        for b in body {
            self.put(*b);
        }
    }

    pub fn fields(&mut self, tag: u8, body: &[u8], times: usize) {
        for _ in 0..times {
            self.field(tag, body);
        }
    }

    // An element with one text and no attribute.
    pub fn holding(&mut self, name: &[u8], words: &[u8]) {
        self.field(OPEN, name);
        self.field(TEXT, words);
        self.field(CLOSE, b"");
    }
}
