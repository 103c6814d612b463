//! A walk over an item or a view, and all that it holds.

ghost use Rattle.std.specs.Prelude.{◌≡◌, ◌+◌, ◌<◌, ◌≤◌, ◌↔◌, [], ◌∷◌, ◌++◌, length, reverse, take, IfOk, IsSome};
ghost use Rattle.std.specs.Prelude.{option_to_list};
ghost use Rattle.cbor_head.specs.Value.{depth};
ghost use Rattle.cbor_diag.specs.inner.Layout.{laid_out};
ghost use Rattle.cbor_diag.specs.inner.Levels.{AreShallow, AreAllShallow, IsExpected, IsOpenOf};
ghost use Rattle.cbor_diag.specs.inner.Levels.{Leaves, following, rest_of};
ghost use Rattle.cbor_diag.specs.inner.Outbox.{Puts};

use crate::layout::{Layout, put_end, put_gap};
use crate::outbox::{Outbox, Stopped};
use crate::pieces::{put_negative, put_number, put_simple, put_string};
use cbor_head::MAX_DEPTH;
use cbor_item::{Node, NodeKind};
use std::io::Write;

// Most items are no deeper than this,
const FEW: usize = 16;
// few are deeper than this,
const SOME: usize = 128;
// and none than this.
const MOST: usize = MAX_DEPTH as usize;

/// A container whose end is not written yet, and its level of indentation. Those around the innermost
/// one are in the first of the cells, the outermost first.
#[derive_where(Clone, Copy, Default)]
pub(crate) struct OpenNode<'a, N> {
    indent: u16,
    left: Remaining<'a, N>,
}

/// What is left of a container.
#[derive_where(Clone, Copy, Default)]
pub(crate) enum Remaining<'a, N> {
    /// The members that are left, and whether these are all.
    Array(&'a [N], bool),
    /// The pairs that are left, and whether these are all.
    Map(&'a [(N, N)], bool),
    /// The value of a pair whose key is written, and the pairs after it.
    Value(&'a N, &'a [(N, N)]),
    /// The content of a tag.
    Content(&'a N),
    /// The end of a tag.
    #[default]
    Tag,
}

/// Puts an item's text.
pub(crate) fn put_item<N: Node, W: Write>(
    item: &N,
    layout: Layout,
    out: &mut Outbox,
    writer: &mut W,
) -> Result<(), Stopped>
    requires { depth (N.value item.now) ≤ MAX_DEPTH }
    ensures { Puts (W.contents writer.old) (W.contents writer.new) out.old out.new
        (laid_out layout 0 (N.value item.now)) result }
{
    match begin(item, layout, 0, out, writer)? {
        Some(level) => put_levels(level, layout, out, writer),
        None => Ok(()),
    }
}

// Puts what is left of the outermost container.
fn put_levels<N: Node, W: Write>(
    level: OpenNode<'_, N>,
    layout: Layout,
    out: &mut Outbox,
    writer: &mut W,
) -> Result<(), Stopped>
    requires { AreShallow N.value (level ∷ []) }
    ensures { Puts (W.contents writer.old) (W.contents writer.new) out.old out.new
        (rest_of N.value layout level.entry ++ []) result }
{
    let mut cells = [OpenNode::default(); FEW];
    match put_within(level, layout, &mut cells, 0, out, writer)? {
        Some(level) => put_deeper(level, &cells, layout, out, writer),
        None => Ok(()),
    }
}

// Continues with more cells, once the first ones are too few.
#[inline(never)]
fn put_deeper<'a, N: Node, W: Write>(
    level: OpenNode<'a, N>,
    around: &[OpenNode<'a, N>],
    layout: Layout,
    out: &mut Outbox,
    writer: &mut W,
) -> Result<(), Stopped>
    requires few { length around.now ≤ SOME }
    requires shallow { AreShallow N.value (level ∷ reverse around.now) }
    ensures { Puts (W.contents writer.old) (W.contents writer.new) out.old out.new
        (rest_of N.value layout level.entry ++ following N.value layout (reverse around.now)) result }
{
    let mut cells = [OpenNode::default(); SOME];
    lend(around, &mut cells);
    match put_within(level, layout, &mut cells, around.len(), out, writer)? {
        Some(level) => put_deepest(level, &cells, layout, out, writer),
        None => Ok(()),
    }
}

// Continues with a cell for each container that may be open.
#[inline(never)]
fn put_deepest<'a, N: Node, W: Write>(
    level: OpenNode<'a, N>,
    around: &[OpenNode<'a, N>],
    layout: Layout,
    out: &mut Outbox,
    writer: &mut W,
) -> Result<(), Stopped>
    requires few { length around.now ≤ MOST }
    requires shallow { AreShallow N.value (level ∷ reverse around.now) }
    ensures { Puts (W.contents writer.old) (W.contents writer.new) out.old out.new
        (rest_of N.value layout level.entry ++ following N.value layout (reverse around.now)) result }
{
    let mut cells = [OpenNode::default(); MOST];
    lend(around, &mut cells);
    put_within(level, layout, &mut cells, around.len(), out, writer)?;
    Ok(())
}

// Copies these into the first of the new cells.
#[inline(always)]
fn lend<'a, N>(around: &[OpenNode<'a, N>], cells: &mut [OpenNode<'a, N>])
    requires { length around.now ≤ length cells.old }
    ensures { take (length around.now) cells.new ≡ around.now }
{
    cells[..around.len()].copy_from_slice(around);
}

// Puts what is left. `height` of the cells are around the innermost container. If the cells are too
// few, it returns the innermost container, and all cells are around that.
fn put_within<'a, N: Node, W: Write>(
    level: OpenNode<'a, N>,
    layout: Layout,
    cells: &mut [OpenNode<'a, N>],
    mut height: usize,
    out: &mut Outbox,
    writer: &mut W,
) -> Result<Option<OpenNode<'a, N>>, Stopped>
    requires height { height ≤ length cells.old }
    requires shallow { AreShallow N.value (level ∷ reverse (take height cells.old)) }
    ensures put { Leaves 0 N.value layout (W.contents writer.old) (W.contents writer.new)
        out.old out.new (rest_of N.value layout level.entry
        ++ following N.value layout (reverse (take height cells.old))) (reverse cells.new) result }
    ensures shallow { IfOk result (λ inner. AreAllShallow N.value inner (reverse cells.new)) }
{
    let mut innermost = Some(level);
    'levels: while height < cells.len() {
        let Some(level) = innermost else {
            return Ok(None);
        };
        innermost = go_on(level, layout, cells, &mut height, out, writer)?;
    }
    Ok(innermost)
}

// Puts an item that holds no other, or the start of a container, which is then open.
#[inline(always)]
fn begin<'a, N: Node, W: Write>(
    item: &'a N,
    layout: Layout,
    indent: u16,
    out: &mut Outbox,
    writer: &mut W,
) -> Result<Option<OpenNode<'a, N>>, Stopped>
    ensures put { Leaves 1 N.value layout (W.contents writer.old) (W.contents writer.new)
        out.old out.new (laid_out layout indent (N.value item.now)) [] result }
    ensures opened { IfOk result (IsOpenOf N.value (depth (N.value item.now)) indent) }
{
    match item.kind() {
        NodeKind::Unsigned(number) => {
            put_number(number, out, writer)?;
            Ok(None)
        }
        NodeKind::Negative(number) => {
            put_negative(number, out, writer)?;
            Ok(None)
        }
        NodeKind::Bytes(bytes) => {
            put_string(false, bytes, out, writer)?;
            Ok(None)
        }
        NodeKind::Text(text) => {
            put_string(true, text.as_bytes(), out, writer)?;
            Ok(None)
        }
        NodeKind::Array(items) => {
            out.put(writer, b"[")?;
            let left = Remaining::Array(items, true);
            Ok(Some(OpenNode { indent, left }))
        }
        NodeKind::Map(pairs) => {
            out.put(writer, b"{")?;
            let left = Remaining::Map(pairs, true);
            Ok(Some(OpenNode { indent, left }))
        }
        NodeKind::Tag(number, content) => {
            put_number(number, out, writer)?;
            out.put(writer, b"(")?;
            let left = Remaining::Content(content);
            Ok(Some(OpenNode { indent, left }))
        }
        NodeKind::Simple(number) => {
            put_simple(number, out, writer)?;
            Ok(None)
        }
    }
}

// Puts what comes next in the innermost container, and returns the new innermost one.
fn go_on<'a, N: Node, W: Write>(
    level: OpenNode<'a, N>,
    layout: Layout,
    cells: &mut [OpenNode<'a, N>],
    height: &mut usize,
    out: &mut Outbox,
    writer: &mut W,
) -> Result<Option<OpenNode<'a, N>>, Stopped>
    requires space { height.old < length cells.old }
    requires shallow { AreShallow N.value (level ∷ reverse (take height.old cells.old)) }
    ensures height { height.new ≤ length cells.new }
    ensures put { Leaves 1 N.value layout (W.contents writer.old) (W.contents writer.new)
        out.old out.new (rest_of N.value layout level.entry
        ++ following N.value layout (reverse (take height.old cells.old))) (reverse (take height.new cells.new)) result }
    ensures shallow { IfOk result
        (λ inner. AreAllShallow N.value inner (reverse (take height.new cells.new))) }
{
    let indent = level.indent;
    match level.left {
        Remaining::Array(left, first) => match left.split_first() {
            Some((item, left)) => {
                put_gap(layout, indent, first, out, writer)?;
                let left = Remaining::Array(left, false);
                let next = OpenNode { indent, left };
                go_into(item, layout, indent + 1, next, cells, height, out, writer)
            }
            None => {
                put_end(layout, indent, first, out, writer)?;
                out.put(writer, b"]")?;
                Ok(pop(cells, height))
            }
        },
        Remaining::Map(left, first) => match left.split_first() {
            Some(((key, value), left)) => {
                put_gap(layout, indent, first, out, writer)?;
                let left = Remaining::Value(value, left);
                let next = OpenNode { indent, left };
                go_into(key, layout, indent + 1, next, cells, height, out, writer)
            }
            None => {
                put_end(layout, indent, first, out, writer)?;
                out.put(writer, b"}")?;
                Ok(pop(cells, height))
            }
        },
        Remaining::Value(value, left) => {
            out.put(writer, b": ")?;
            let left = Remaining::Map(left, false);
            let next = OpenNode { indent, left };
            go_into(value, layout, indent + 1, next, cells, height, out, writer)
        }
        Remaining::Content(content) => {
            let left = Remaining::Tag;
            let next = OpenNode { indent, left };
            go_into(content, layout, indent, next, cells, height, out, writer)
        }
        Remaining::Tag => {
            out.put(writer, b")")?;
            Ok(pop(cells, height))
        }
    }
}

// Puts an item of the container, or its start, and returns the new innermost container.
#[inline(always)]
fn go_into<'a, N: Node, W: Write>(
    item: &'a N,
    layout: Layout,
    indent: u16,
    level: OpenNode<'a, N>,
    cells: &mut [OpenNode<'a, N>],
    height: &mut usize,
    out: &mut Outbox,
    writer: &mut W,
) -> Result<Option<OpenNode<'a, N>>, Stopped>
    requires space { height.old < length cells.old }
    requires expected { IsExpected N.value (depth (N.value item.now)) indent
        (level ∷ reverse (take height.old cells.old)) }
    ensures height { height.new ≤ length cells.new }
    ensures put { Leaves 1 N.value layout (W.contents writer.old) (W.contents writer.new)
        out.old out.new (laid_out layout indent (N.value item.now)
        ++ (rest_of N.value layout level.entry ++ following N.value layout (reverse (take height.old cells.old))))
        (reverse (take height.new cells.new)) result }
    ensures shallow { IfOk result
        (λ inner. AreAllShallow N.value inner (reverse (take height.new cells.new))) }
{
    match begin(item, layout, indent, out, writer)? {
        Some(inner) => {
            push(cells, height, level);
            Ok(Some(inner))
        }
        None => Ok(Some(level)),
    }
}

// Adds a container to those around the innermost.
#[inline(always)]
fn push<'a, N>(cells: &mut [OpenNode<'a, N>], height: &mut usize, level: OpenNode<'a, N>)
    requires { height.old < length cells.old }
    ensures items { take height.new cells.new ≡ take height.old cells.old ++ level.entry ∷ [] }
    ensures height { height.new ≡ height.old + 1 }
{
    cells[*height] = level;
    *height += 1;
}

// Removes the last of them, if there is one, and returns it.
#[inline(always)]
fn pop<'a, N>(cells: &[OpenNode<'a, N>], height: &mut usize) -> Option<OpenNode<'a, N>>
    requires { height.old ≤ length cells.now }
    ensures items { take height.old cells.now ≡ take height.new cells.now ++ option_to_list result }
    ensures variant { IsSome result ↔ (0 < length (take height.old cells.now)) }
    ensures fewer { height.new ≤ height.old }
{
    if *height == 0 {
        return None;
    }
    *height -= 1;
    Some(cells[*height])
}
