//! The diagnostic text of a tree, and of a view.

ghost use Rattle.std.specs.Prelude.{◌≡◌, ◌≤◌, [], IfOk};
ghost use Rattle.cbor_head.specs.Value.{depth};
ghost use Rattle.cbor_head.specs.declared.limits.TheConstants.{MAX_DEPTH};
ghost use Rattle.cbor_item.specs.View.{view as value_of};
ghost use Rattle.cbor_item.specs.ViewValue.{view_value};
ghost use Rattle.cbor_diag.specs.IndentedText.{indented};
ghost use Rattle.cbor_diag.specs.inner.Layout.{laid_out, shown};
ghost use Rattle.cbor_diag.specs.inner.Outbox.{Puts};
ghost use Rattle.cbor_diag.specs.Written.{Writes};
ghost use Rattle.cbor_diag.specs.Text.{text};

use crate::layout::Layout;
use crate::outbox::{Outbox, Stopped};
use crate::walk::put_item;
use cbor_head::{Reason, Refusal};
use cbor_item::{Node, Tree, View};
use std::io::Write;

/// Writes the diagnostic text on one line (RFC 8949, section 8), and returns its length in bytes.
/// The pairs of a map are written in the order of the tree.
///
/// A write that returns an error, `Interrupted` too, or that accepts no bytes ends the call. The
/// refusal is then `Write`, and its `place` is the number of bytes that the writer accepted: the
/// first of the text. Nothing is allocated.
pub fn diagnostic<W: Write>(tree: &Tree, writer: &mut W) -> Result<u64, Refusal>
    ensures { Writes (W.contents writer.old) (W.contents writer.new)
        (text (value_of tree.now)) result }
{
    write_text(tree.item(), Layout::OneLine, writer)
}

/// Writes the diagnostic text with one member or pair a line, indented by two spaces a level.
/// Otherwise it is as [`diagnostic`].
pub fn diagnostic_indented<W: Write>(tree: &Tree, writer: &mut W) -> Result<u64, Refusal>
    ensures { Writes (W.contents writer.old) (W.contents writer.new)
        (indented 0 (value_of tree.now)) result }
{
    write_text(tree.item(), Layout::Indented, writer)
}

/// Writes the diagnostic text of a view, as [`diagnostic`]. Any view that was read is shallow
/// enough.
pub fn diagnostic_view<W: Write>(view: &View<'_>, writer: &mut W) -> Result<u64, Refusal>
    requires { depth (view_value view.now) ≤ MAX_DEPTH }
    ensures { Writes (W.contents writer.old) (W.contents writer.new)
        (text (view_value view.now)) result }
{
    write_text(view, Layout::OneLine, writer)
}

/// Writes the diagnostic text of a view, as [`diagnostic_indented`].
pub fn diagnostic_view_indented<W: Write>(view: &View<'_>, writer: &mut W) -> Result<u64, Refusal>
    requires { depth (view_value view.now) ≤ MAX_DEPTH }
    ensures { Writes (W.contents writer.old) (W.contents writer.new)
        (indented 0 (view_value view.now)) result }
{
    write_text(view, Layout::Indented, writer)
}

fn write_text<N: Node, W: Write>(item: &N, layout: Layout, writer: &mut W) -> Result<u64, Refusal>
    requires { depth (N.value item.now) ≤ MAX_DEPTH }
    ensures { Writes (W.contents writer.old) (W.contents writer.new)
        (shown layout (N.value item.now)) result }
{
    let mut out = Outbox::new();
    match send_item(item, layout, &mut out, writer) {
        Ok(()) => Ok(out.taken()),
        Err(_) => Err(Refusal {
            reason: Reason::Write,
            place: out.taken(),
            read: 0,
        }),
    }
}

// Puts an item's text, and writes all that waits.
fn send_item<N: Node, W: Write>(
    item: &N,
    layout: Layout,
    out: &mut Outbox,
    writer: &mut W,
) -> Result<(), Stopped>
    requires { depth (N.value item.now) ≤ MAX_DEPTH }
    ensures put { Puts (W.contents writer.old) (W.contents writer.new) out.old out.new
        (laid_out layout 0 (N.value item.now)) result }
    ensures empty { IfOk result (λ _. out.new.waiting.items ≡ []) }
{
    put_item(item, layout, out, writer)?;
    out.flush(writer)
}
