//! Bytes that are read by their index, wherever they are kept.
ghost use Rattle.std.specs.Prelude.{◌≡◌, ℕ, ◌<◌, List, length, slice_index};

/// A list of bytes that can be read.
pub trait Bytes {
    /// The bytes that it contains, however they are kept.
    ghost contents: { Self → List ℕ };

    /// How many bytes there are.
    fn len(&self) -> usize
        ensures { result ≡ length (contents self.now) };

    /// The byte at an index.
    fn byte(&self, index: usize) -> u8
        requires { index < length (contents self.now) }
        ensures { result ≡ slice_index (contents self.now) index };
}

impl Bytes for &str {
    ghost contents = { λ text. text.now };

    fn len(&self) -> usize {
        self.as_bytes().len()
    }

    fn byte(&self, index: usize) -> u8 {
        self.as_bytes()[index]
    }
}
