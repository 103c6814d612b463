//! Items in the layout of C.

/// An item by its head and its offsets in bytes.
#[repr(C)]
#[derive(Clone, Copy, Debug, PartialEq, Eq)]
pub struct PlacedItem {
    /// The argument of its head: the number of an integer, a tag or a simple value, or how many
    /// bytes, members or pairs the item has.
    pub number: u64,
    /// The offset of its first byte.
    pub offset: u64,
    /// The offset of what follows its head.
    pub content: u64,
    /// The offset of what follows the item.
    pub end: u64,
    /// Its major type, 0 to 7.
    pub kind: u32,
    /// In a table, the number of entries for the item and all items inside it: the entry of the next
    /// sibling is this many places later. Elsewhere 0.
    pub entries: u32,
}
