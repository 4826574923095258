// A text of at most a fixed number of bytes.
ghost use Rattle.std.specs.Prelude.{◌≡◌, ◌≤◌, length};

// At most N bytes, in a place for N: fixed memory, and Copy, as what holds a rule's text is; the library's string of fixed place
// can not be copied.
#[derive(Clone, Copy)]
pub struct ShortText<const N: usize> {
    pub place: [u8; N],
    pub len: usize,
    ghost few: { len ≤ N },
    ghost long: { length place ≡ N },
}
