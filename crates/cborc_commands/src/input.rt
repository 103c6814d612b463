//! Reads an input that is to be one item.

ghost use Rattle.std.specs.Prelude.{◌≡◌, ◌⊎◌, ◌^◌, ◌<◌, true, false, IfOk, IfErr};
ghost use Rattle.cborc_files.specs.Folder.{KeepsFiles};
ghost use Rattle.cborc_commands.specs.NoInput.{IsNoInput};
ghost use Rattle.cborc_commands.specs.inner.Start.{StartsInput};
ghost use Rattle.cborc_commands.specs.inner.Decided.{judging_rules, IsDecided};

use crate::fault::Fault;
use crate::first_item::Scratch;
use crate::input_parts::Parts;
use crate::listing::is_undecided;
use cbor_head::Limits;
use cborc_files::Folder;
use cborc_words::{Accepted, Options};
use std::alloc::Global;

// The number of bytes of the first read, unless the limit is lower.
const FIRST: u64 = 1_310_721;

/// How the first item of an input is judged.
#[derive(Clone, Copy)]
pub enum Judge {
    /// By its form only.
    Form,
    /// By these rules.
    Item(Accepted),
}

/// The first bytes of the input at this path: enough to decide whether it is one item within the
/// limits, and at most twice the item's size, or 1,310,721. While they are not enough, the number
/// of bytes is doubled, and all are judged again. Hex text is read to its end.
pub fn read_item<'a, F: Folder>(
    alloc: Global,
    files: &mut F,
    path: &'a str,
    judge: Judge,
    options: Options,
) -> Result<Vec<u8>, Fault<'a>>
    ensures prefix { IfOk result (λ v. StartsInput (judging_rules judge) (F.held files.old)
        path.now options v.items) }
    ensures fault { IfErr result (IsNoInput (F.held files.old) path.now options.hex) }
    ensures keeps { KeepsFiles (F.held files.old) (F.held files.new) }
    ensures same { F.forwards_to files.new ≡ F.forwards_to files.old }
{
    let limits = options.limits;
    let least = first(options.hex, limits);
    let mut parts = Parts::open(alloc, files, path, options.hex, least)?;
    let mut scratch = Scratch::new(alloc);
    'parts: loop {
        let more = may_report_more(&parts, &mut scratch, judge, limits)?;
        if !more {
            return parts.finish(alloc, files, path);
        }
        parts.read_on(alloc, files, path)?;
    }
}

// The number of bytes of a file that are read first: at most as many as encode one byte more than
// the limit.
pub(crate) fn first(hex: bool, limits: Limits) -> u64
    ensures some { 0 < result }
    ensures range { result < 2 ^ 63 }
{
    let most = limits.bytes() + 1;
    FIRST.min(if hex { 2 * most } else { most })
}

// Whether the input may continue, and this may change the verdict on its first item.
fn may_report_more<'a>(
    parts: &Parts,
    scratch: &mut Scratch,
    judge: Judge,
    limits: Limits,
) -> Result<bool, Fault<'a>>
    ensures yes { IfOk result (λ more. more ≡ true → parts.now.source.ended ≡ false) }
    ensures undecided { IfOk result (λ more. more ≡ true
        → ¬ IsDecided (judging_rules judge) limits parts.now.rest) }
    ensures no { IfOk result (λ more. more ≡ false → (parts.now.source.ended ≡ true)
        ⊎ IsDecided (judging_rules judge) limits parts.now.rest) }
    ensures memory { IfErr result (λ fault. fault ≡ Fault.Memory) }
{
    if !parts.goes_on() {
        return Ok(false);
    }
    match judge {
        Judge::Form => Ok(is_undecided(parts.rest(), limits)),
        Judge::Item(accepted) => scratch.is_undecided(parts.rest(), accepted, limits),
    }
}
