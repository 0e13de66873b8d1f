// Writing into a lent buffer, character by character.
ghost use Rattle.std.specs.Prelude.{[], ◌∷◌};
ghost use Rattle.report.specs.Private.{Writes};

// A buffer that fills from its start, and the position of the next character. Nothing is written behind the buffer's end.
#[derive(Drop)]
pub(crate) struct Page<'a> {
    pub text: &'a mut [u8],
    pub at: usize,
}

impl Page<'_> {
    pub(crate) fn put(&mut self, character: u8)
        ensures { Writes (character ∷ []) self.old self.new }
    {
        if self.at < self.text.len() {
            self.text[self.at] = character;
            self.at += 1;
        }
    }

    pub(crate) fn put_text(&mut self, characters: &[u8])
        ensures { Writes characters.now self.old self.new }
    {
        // Kept: character by character, since `put` cuts where the buffer ends; `copy_from_slice` would need that end worked out again.
        for character in characters {
            self.put(*character);
        }
    }
}
