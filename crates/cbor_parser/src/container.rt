//! What is expected in an open container.

ghost use Rattle.std.specs.Prelude.{◌≡◌};
ghost use Rattle.cbor_parser.specs.Expected.{awaits, pairs};

/// What is expected in a container.
#[derive(Clone, Copy)]
pub enum Expected {
    /// A member of an array, or the content of a tag.
    Item,
    /// A key of a map.
    Key,
    /// A value of a map.
    Value,
}

impl Expected {
    /// Whether a key is expected.
    #[inline(always)]
    pub fn is_key(self) -> bool
        ensures { result ≡ awaits self }
    {
        matches!(self, Expected::Key)
    }

    /// Whether a key or a value of a map is expected.
    #[inline(always)]
    pub fn is_in_map(self) -> bool
        ensures { result ≡ pairs self }
    {
        !matches!(self, Expected::Item)
    }
}
