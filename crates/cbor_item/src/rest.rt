//! What is left of an open container.

ghost use Rattle.std.specs.Prelude.{◌≡◌, ◌∷◌, [], MatchOption};
ghost use Rattle.cbor_item.specs.inner.Rest.{left};

use crate::node::Node;

/// What is left of an open container.
#[derive_where(Clone, Copy)]
pub(crate) enum Rest<'a, N> {
    /// A tag's content, or the whole item.
    One(&'a N),
    /// The members of an array.
    Members(&'a [N]),
    /// The pairs of a map.
    Pairs(&'a [(N, N)]),
    /// The value of a pair, and the pairs after it.
    Value(&'a N, &'a [(N, N)]),
}

impl<'a, N: Node> Rest<'a, N> {
    /// The next node, and what is left after it.
    pub(crate) fn next(self) -> Option<(&'a N, Rest<'a, N>)>
        ensures { MatchOption result (left N.value self.entry ≡ [])
            (λ next. left N.value self.entry ≡ N.value next.0.now ∷ left N.value next.1) }
    {
        match self {
            Rest::One(node) => Some((node, Rest::Members(&[]))),
            Rest::Members(nodes) => {
                let (node, following) = nodes.split_first()?;
                Some((node, Rest::Members(following)))
            }
            Rest::Pairs(pairs) => {
                let (pair, following) = pairs.split_first()?;
                Some((&pair.0, Rest::Value(&pair.1, following)))
            }
            Rest::Value(value, following) => Some((value, Rest::Pairs(following))),
        }
    }
}
