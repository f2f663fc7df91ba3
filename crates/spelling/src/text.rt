// The bytes of a figure's text, kept in place.
ghost use Rattle.std.specs.Prelude.{◌≤◌};

// The first `len` of `bytes`. The longest text of a figure takes 23 of them: two signs, two numbers of ten digits and
// a mark. It is copied as it lies, with no heap, which an `ArrayVec` is not.
#[derive(Clone, Copy)]
pub struct Spelling {
    bytes: [u8; 23],
    len: usize,
    ghost inside: { len ≤ 23 },
}

impl Spelling {
    ghost use Rattle.std.specs.Prelude.{◌≡◌, ◌≤◌, length};
    ghost use Rattle.spelling.specs.Spelled.{text_of};

    // Keeps a text in place.
    pub(crate) fn keep(text: &[u8]) -> Spelling
        requires { length text.now ≤ 23 }
        ensures { text_of result ≡ text.now }
    {
        let len = text.len();
        let mut bytes = [0; 23];
        bytes[..len].copy_from_slice(text);
        Spelling { bytes, len }
    }

    // The text as bytes.
    pub fn as_bytes(&self) -> &[u8]
        ensures text { result.now ≡ text_of self.now }
        ensures len { length result.now ≤ 23 }
    {
        let len = self.len;
        &self.bytes[0..len]
    }
}
