// The program's text.
ghost use Rattle.std.specs.Prelude.{◌≡◌, [], ◌++◌, replicate, take};

use std::marker::Model;

// One byte more than the longest text has.
const SIZE: usize = program_text::TEXT_LIMIT + 1;

// The bytes of the text so far. What goes beyond its places is left out.
#[derive(Drop)]
pub struct Text {
    bytes: [u8; SIZE],
    length: usize,
}

impl Model for Text {
    ghost use Rattle.std.specs.Prelude.{ℕ, ◌≤◌, List, take};
    ghost use Rattle.case_fields.specs.declared.text.TheConstants.{SIZE};

    ghost Value = { List ℕ };

    ghost view = { λ t. take t.length t.bytes };

    ghost invariant = { λ t. t.length ≤ SIZE };
}

impl Text {
    pub(crate) fn new() -> Text
        ensures { result ≡ [] }
    {
        Text {
            bytes: [0; SIZE],
            length: 0,
        }
    }

    pub fn bytes(&self) -> &[u8]
        ensures { result.now ≡ self.now }
    {
        &self.bytes[..self.length]
    }

    pub(crate) fn add(&mut self, more: &[u8])
        ensures { self.new ≡ take SIZE (self.old ++ more.now) }
    {
        let count = more.len().min(SIZE - self.length);
        self.bytes[self.length..self.length + count].copy_from_slice(&more[..count]);
        self.length += count;
    }

    pub(crate) fn add_zeros(&mut self, most: u64)
        ensures { self.new ≡ take SIZE (self.old ++ replicate most 48) }
    {
        let count = (most as usize).min(SIZE - self.length);
        self.bytes[self.length..self.length + count].fill(b'0');
        self.length += count;
    }
}
