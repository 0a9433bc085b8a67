//! A code table of single bytes.
ghost use Rattle.std.specs.Prelude.{◌≡◌};
ghost use Rattle.sets.specs.Columns.{upper_at, character_at, upper_of, byte_of};

/// A code table of single bytes: ASCII in the lower half, and a table of its own in the upper.
#[derive(Clone, Copy)]
pub struct CodeTable {
    /// Columns 10 to 15 of sixteen rows each, bytes A0 to FF: the code point at each position, 0
    /// where no character stands.
    pub columns: [[u32; 16]; 6],
}

impl CodeTable {
    // The code point at a byte of the upper half.
    fn upper_at(&self, byte: u8) -> Option<u32>
        ensures { result ≡ upper_at self.now.columns byte }
    {
        if byte < 0xA0 {
            return None;
        }
        let position = (byte - 0xA0) as usize;
        let character = self.columns[position / 16][position % 16];
        (character != 0).then_some(character)
    }

    // The first byte from A0 on that codes a code point.
    fn upper_of(&self, character: u32) -> Option<u8>
        ensures { result ≡ upper_of self.now.columns character }
    {
        (0..96u8)
            .map(|position| 0xA0 + position)
            .find(|byte| self.upper_at(*byte) == Some(character))
    }

    /// The code point that a byte codes; `None` where the position is not in use.
    pub fn character_at(&self, byte: u8) -> Option<u32>
        ensures { result ≡ character_at self.now.columns byte }
    {
        match byte {
            0x20..=0x7E => Some(byte as u32),
            _ => self.upper_at(byte),
        }
    }

    /// The byte that codes a code point; `None` if none does.
    pub fn byte_of(&self, character: u32) -> Option<u8>
        ensures { result ≡ byte_of self.now.columns character }
    {
        match character {
            0x20..=0x7E => Some(character as u8),
            _ => self.upper_of(character),
        }
    }
}
