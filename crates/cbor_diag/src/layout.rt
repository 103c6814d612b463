//! How a text is laid out on lines.

ghost use Rattle.std.specs.Prelude.{◌+◌, ◌≤◌};
ghost use Rattle.cbor_head.specs.declared.limits.TheConstants.{MAX_DEPTH};
ghost use Rattle.cbor_diag.specs.inner.Layout.{gap, end};
ghost use Rattle.cbor_diag.specs.inner.Outbox.{Puts};

use crate::outbox::{Outbox, Stopped};
use crate::pieces::put_line;
use std::io::Write;

/// On one line, or with one member or pair a line.
#[derive(Clone, Copy)]
pub(crate) enum Layout {
    OneLine,
    Indented,
}

// Puts the gap before a member or a pair.
#[inline(always)]
pub(crate) fn put_gap<W: Write>(
    layout: Layout,
    level: u16,
    first: bool,
    out: &mut Outbox,
    writer: &mut W,
) -> Result<(), Stopped>
    requires { level + 1 ≤ MAX_DEPTH }
    ensures { Puts (W.contents writer.old) (W.contents writer.new) out.old out.new
        (gap layout level first) result }
{
    match layout {
        Layout::OneLine if first => Ok(()),
        Layout::OneLine => out.put(writer, b", "),
        Layout::Indented if first => put_line(b"\n", level + 1, out, writer),
        Layout::Indented => put_line(b",\n", level + 1, out, writer),
    }
}

// Puts the text after the last member or pair.
pub(crate) fn put_end<W: Write>(
    layout: Layout,
    level: u16,
    none: bool,
    out: &mut Outbox,
    writer: &mut W,
) -> Result<(), Stopped>
    requires { level ≤ MAX_DEPTH }
    ensures { Puts (W.contents writer.old) (W.contents writer.new) out.old out.new
        (end layout level none) result }
{
    match layout {
        Layout::Indented if !none => put_line(b"\n", level, out, writer),
        _ => Ok(()),
    }
}
