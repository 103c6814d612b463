//! Sameness of trees, and of views.

ghost use Rattle.std.specs.Prelude.{◌≡◌, ◌<◌, ◌≤◌, ◌↔◌, IsTrue, IsSome, IfSome, slice_range};
ghost use Rattle.std.specs.Prelude.{length};
ghost use Rattle.cbor_head.specs.Value.{Same, SameValues, Covered, AnyEntry, IsValid, AreValid};
ghost use Rattle.cbor_head.specs.Value.{AreEntriesValid};
ghost use Rattle.cbor_item.specs.Nodes.{entries_in, values_in};
ghost use Rattle.cbor_item.specs.View.{view};
ghost use Rattle.cbor_item.specs.ViewValue.{view_value};

use crate::node::{Node, NodeKind};
use crate::tree::Tree;
use crate::view::View;

/// Whether two trees are the same: kinds, numbers and strings equal, arrays member by member, maps
/// by their pairs in any order (RFC 8949, section 5.6.1). Allocates nothing. Maps whose pairs are
/// in another order take longer than those in the same order.
pub fn same(a: &Tree, b: &Tree) -> bool
    ensures { IsTrue result ↔ Same (view a.now) (view b.now) }
{
    is_same(a.item(), b.item())
}

impl View<'_> {
    /// Whether two views are of the same item: kinds, numbers and strings equal, arrays member by
    /// member, maps by their pairs in any order (RFC 8949, section 5.6.1). Maps whose pairs are in
    /// another order take longer than those in the same order.
    pub fn same(&self, other: &View<'_>) -> bool
        requires left { IsValid (view_value self.now) }
        requires right { IsValid (view_value other.now) }
        ensures { IsTrue result ↔ Same (view_value self.now) (view_value other.now) }
    {
        is_same(self, other)
    }
}

// For two maps with the same number of pairs and without equal keys, it is enough to look up the
// keys of one in the other. Both ways would double the work with each level.
#[cycle(same)]
fn is_same<N: Node>(a: &N, b: &N) -> bool
    requires left { IsValid (N.value a.now) }
    requires right { IsValid (N.value b.now) }
    ensures { IsTrue result ↔ Same (N.value a.now) (N.value b.now) }
{
    match (a.kind(), b.kind()) {
        (NodeKind::Unsigned(n), NodeKind::Unsigned(m)) => n == m,
        (NodeKind::Negative(n), NodeKind::Negative(m)) => n == m,
        (NodeKind::Bytes(s), NodeKind::Bytes(t)) => s == t,
        (NodeKind::Text(s), NodeKind::Text(t)) => s.as_bytes() == t.as_bytes(),
        (NodeKind::Array(xs), NodeKind::Array(ys)) => are_same(xs, ys),
        (NodeKind::Map(xs), NodeKind::Map(ys)) => xs.len() == ys.len() && is_covered(xs, ys),
        (NodeKind::Tag(n, x), NodeKind::Tag(m, y)) => n == m && is_same(x, y),
        (NodeKind::Simple(n), NodeKind::Simple(m)) => n == m,
        _ => false,
    }
}

#[cycle(same)]
fn are_same<N: Node>(xs: &[N], ys: &[N]) -> bool
    requires left { AreValid (values_in N.value xs.now) }
    requires right { AreValid (values_in N.value ys.now) }
    ensures { IsTrue result ↔ SameValues (values_in N.value xs.now) (values_in N.value ys.now) }
{
    if xs.len() != ys.len() {
        return false;
    }
    for (i, x) in xs.iter().enumerate() {
        if !is_same(x, &ys[i]) {
            return false;
        }
    }
    true
}

// Whether each pair of xs is the same as some pair of ys. A look-up begins after the last hit.
#[cycle(same)]
fn is_covered<N: Node>(xs: &[(N, N)], ys: &[(N, N)]) -> bool
    requires left { AreEntriesValid (entries_in N.value xs.now) }
    requires right { AreEntriesValid (entries_in N.value ys.now) }
    ensures { IsTrue result ↔ Covered (entries_in N.value xs.now) (entries_in N.value ys.now) }
{
    let mut start = 0;
    for pair in xs {
        match find(&pair.0, &pair.1, ys, start) {
            Some(place) => start = place + 1,
            None => return false,
        }
    }
    true
}

// The index in ys of a pair with the same key and the same value. The search begins at `start` and
// then continues at 0.
#[cycle(same)]
fn find<N: Node>(key: &N, value: &N, ys: &[(N, N)], start: usize) -> Option<usize>
    requires start { start ≤ length ys.now }
    requires key { IsValid (N.value key.now) }
    requires value { IsValid (N.value value.now) }
    requires right { AreEntriesValid (entries_in N.value ys.now) }
    ensures place { IfSome result (λ place. place < length ys.now) }
    ensures found { IsSome result ↔ AnyEntry (Same (N.value key.now)) (Same (N.value value.now))
        (entries_in N.value ys.now) }
{
    match find_between(key, value, ys, start, ys.len()) {
        Some(place) => Some(place),
        None => find_between(key, value, ys, 0, start),
    }
}

#[cycle(same)]
fn find_between<N: Node>(key: &N, value: &N, ys: &[(N, N)], from: usize, to: usize) -> Option<usize>
    requires from { from ≤ to }
    requires to { to ≤ length ys.now }
    requires key { IsValid (N.value key.now) }
    requires value { IsValid (N.value value.now) }
    requires right { AreEntriesValid (entries_in N.value ys.now) }
    ensures place { IfSome result (λ place. place < length ys.now) }
    ensures found { IsSome result ↔ AnyEntry (Same (N.value key.now)) (Same (N.value value.now))
        (entries_in N.value (slice_range ys.now from to)) }
{
    for place in from..to {
        let other = &ys[place];
        if is_same(key, &other.0) && is_same(value, &other.1) {
            return Some(place);
        }
    }
    None
}
