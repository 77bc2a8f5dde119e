//! A short text, held in place.

ghost use Rattle.std.specs.Prelude.{◌≡◌, ◌≤◌, take};

/// How many bytes it has at the most.
const WORD_BYTES: usize = 15;

/// A text of a few bytes.
#[derive(Clone, Copy)]
pub struct Word {
    /// How many bytes it has.
    pub count: u8,
    /// Its bytes, and others after them.
    pub bytes: [u8; WORD_BYTES],
    pub ghost fits: { count ≤ 15 },
}

impl Word {
    /// A text as a word, where it has room.
    pub fn with(text: &[u8]) -> Option<Word> {
        let mut bytes = [0; WORD_BYTES];
        let Some(room) = bytes.get_mut(..text.len()) else {
            return None;
        };
        room.copy_from_slice(text);
        let Ok(count) = u8::try_from(text.len()) else {
            return None;
        };
        Some(Word { count, bytes })
    }

    /// The text.
    pub fn text(&self) -> &[u8]
        ensures { result.now ≡ take self.now.count self.now.bytes }
    {
        &self.bytes[..usize::from(self.count)]
    }
}
