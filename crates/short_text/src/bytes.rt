// Putting a short text together, comparing two and handing its bytes back.
ghost use Rattle.std.specs.Prelude.{◌≡◌, ◌≤◌, [], ◌∷◌, ◌++◌, length, take};
ghost use Rattle.std.proofs.Common.{rules};
ghost use Rattle.std.specs.Cmp.Rules.{comparing};
ghost use Rattle.short_text.specs.Texts.{text_of, same_text};

use crate::text::ShortText;

impl<const N: usize> ShortText<N> {
    // No bytes.
    pub fn empty() -> Self
        ensures { text_of result ≡ [] }
    {
        ShortText {
            place: [0; N],
            len: 0,
        }
    }

    // The first N bytes of a text.
    pub fn of(text: &[u8]) -> Self
        ensures { text_of result ≡ take N text.now }
    {
        let len = text.len().min(N);
        let mut place = [0; N];
        place[..len].copy_from_slice(&text[..len]);
        ShortText { place, len }
    }

    // One byte more; past the Nth it is passed over.
    pub fn push(&mut self, byte: u8)
        ensures { text_of self.new ≡ take N (text_of self.old ++ byte ∷ []) }
    {
        if self.len < N {
            self.place[self.len] = byte;
            self.len += 1;
        }
    }

    // More bytes; past the Nth they are passed over.
    pub fn extend(&mut self, more: &[u8])
        ensures { text_of self.new ≡ take N (text_of self.old ++ more.now) }
    {
        let count = more.len().min(N - self.len);
        let place = &mut self.place[..];
        place[self.len..self.len + count].copy_from_slice(&more[..count]);
        self.len += count;
    }

    // The bytes.
    pub fn bytes(&self) -> &[u8]
        ensures { result.now ≡ text_of self.now }
    {
        &self.place[..self.len]
    }
}

// Two texts are equal where their bytes are; what lies past them does not count, so this is not derived.
impl<const N: usize> PartialEq for ShortText<N> {
    ghost eq = { same_text };

    ghost laws = { Prim.search (comparing, rules) };

    fn eq(&self, other: &Self) -> bool {
        self.bytes() == other.bytes()
    }
}

impl<const N: usize> Eq for ShortText<N> {
    ghost laws = { Prim.search (comparing, rules) };
}
