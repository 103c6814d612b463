//! What trees and views have in common: one level of an item, and the nodes that it holds.

ghost use Rattle.std.specs.Prelude.{◌≡◌};
ghost use Rattle.cbor_head.specs.Value.{Value};
ghost use Rattle.cbor_item.specs.Nodes.{value_of, HasSimpleNumber};
ghost use Rattle.cbor_item.specs.View.{view};
ghost use Rattle.cbor_item.specs.ViewValue.{view_value};

use crate::item::Item;
use crate::view::View;

/// One level of an item: its kind, and the nodes that it holds, as references.
#[derive_where(Clone, Copy)]
pub enum NodeKind<'a, N> {
    /// The number itself.
    Unsigned(u64),
    /// -1 minus the number.
    Negative(u64),
    /// A byte string.
    Bytes(&'a [u8]),
    /// A text.
    Text(&'a str),
    /// The members, in their order.
    Array(&'a [N]),
    /// The pairs of a key and its value, in any order.
    Map(&'a [(N, N)]),
    /// A tag's number and its content.
    Tag(u64, &'a N),
    /// `false`, `true`, `null`, `undefined` and the other simple values.
    Simple(u8),
}

/// An item in memory, whether it owns its parts or borrows them: [`Item`] and [`View`].
///
/// ```
/// fn has_members<N: Node>(node: &N) -> bool {
///     match node.kind() {
///         NodeKind::Array(members) => !members.is_empty(),
///         _ => false,
///     }
/// }
/// ```
pub trait Node: Sized {
    ghost value: { Self → Value };

    /// The kind of the node, and what it holds.
    fn kind(&self) -> NodeKind<'_, Self>
        ensures value { value_of value result ≡ value self.now };
}

impl Node for Item {
    ghost value = { view };

    #[inline]
    fn kind(&self) -> NodeKind<'_, Item>
        ensures value { value_of view result ≡ view self.now }
        ensures simple { HasSimpleNumber result }
    {
        match self {
            Item::Unsigned(number) => NodeKind::Unsigned(*number),
            Item::Negative(number) => NodeKind::Negative(*number),
            Item::Bytes(bytes) => NodeKind::Bytes(bytes),
            Item::Text(text) => NodeKind::Text(text),
            Item::Array(items) => NodeKind::Array(items),
            Item::Map(pairs) => NodeKind::Map(pairs),
            Item::Tag(number, content) => NodeKind::Tag(*number, content),
            Item::Simple(simple) => NodeKind::Simple(simple.number()),
        }
    }
}

impl Node for View<'_> {
    ghost value = { view_value };

    #[inline]
    fn kind(&self) -> NodeKind<'_, Self> {
        match self {
            View::Unsigned(number) => NodeKind::Unsigned(*number),
            View::Negative(number) => NodeKind::Negative(*number),
            View::Bytes(bytes) => NodeKind::Bytes(bytes),
            View::Text(text) => NodeKind::Text(text),
            View::Array(members) => NodeKind::Array(members),
            View::Map(pairs) => NodeKind::Map(pairs),
            View::Tag(number, content) => NodeKind::Tag(*number, content),
            View::Simple(number) => NodeKind::Simple(*number),
        }
    }
}
