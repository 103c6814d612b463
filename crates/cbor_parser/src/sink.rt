//! The sink, which is given the parts of an item.

ghost use Rattle.std.specs.Prelude.{◌≡◌, ◌≤◌, true, false, ℕ, Bool, List, IfOk, IfSome, IsNone, IsUtf8, OnOk, OnErr, length, take};
ghost use Rattle.cbor_head.specs.Head.{IsSimple};
ghost use Rattle.cbor_head.specs.declared.major.Major.TheVariants as majors;
ghost use Rattle.cbor_builder.specs.Built.{IsLeaf, IsContainer};
ghost use Rattle.theory_verdicts.specs.Levels.{Level, ParseState};
ghost use Rattle.theory_verdicts.specs.Reading.{string_value};
ghost use Rattle.cbor_parser.specs.Sink.{leaf_value, IsItemExpected, Gives, Opens, IsContainerFull, Ends, Repeats, BeginsString, IsChunkExpected, GrowsString, EndsString};
ghost use Rattle.cbor_parser.specs.Sink.{FindsNoRepeat, FindsRepeat};

use cbor_builder::Repeat;
use cbor_head::Major;
use std::alloc::AllocError;

/// Is given the parts of a valid item as a walk over a slice reads them. `is_key` says whether the item is a
/// key. After a call was refused memory, or a container could not end because of two equal keys, it is given
/// nothing more.
pub trait Sink<'a> {
    // The position in the item whose parts it was given since the first state.
    ghost agrees: { Self → Self → ParseState → Type 0 };

    // Within these containers it was given some chunks of a string, a text or not, with this content so far.
    ghost holds: { Self → Self → List Level → Bool → List ℕ → Type 0 };

    // Whether it is given only what is known to be valid, and so looks for no equal keys.
    ghost trusts: { Bool } = { false };

    // A request of this sink for memory was refused. The default is for a sink that stores no such fact.
    ghost refused: { Self → Type 0 } = { λ _. Unit {0} };

    /// Whether it is given only what is known to be valid. Then texts are not checked for UTF-8 before they
    /// are given.
    fn is_trusting() -> bool
        ensures { result ≡ trusts };

    /// An integer or a simple value.
    fn leaf(&mut self, is_key: bool, major: Major, number: u64) -> Result<(), AllocError>
        requires kind { IsLeaf major }
        requires simple { major ≡ majors.Simple → IsSimple number }
        requires expected { IsItemExpected Self agrees is_key self.old }
        ensures given { OnOk result (Gives Self agrees is_key (leaf_value major number) self.old self.new) }
        ensures memory { OnErr result (refused self.new) };

    /// A string in one piece, whose content is the first `count` of these bytes.
    fn string(
        &mut self,
        is_key: bool,
        is_text: bool,
        prefix: &'a [u8],
        count: usize,
    ) -> Result<(), AllocError>
        requires within { count ≤ length prefix.now }
        requires utf8 { is_text ≡ true → IsUtf8 (take count prefix.now) }
        requires expected { IsItemExpected Self agrees is_key self.old }
        ensures given { OnOk result (Gives Self agrees is_key (string_value is_text (take count prefix.now))
            self.old self.new) }
        ensures memory { OnErr result (refused self.new) };

    /// A string in chunks begins.
    fn begin_string(&mut self, is_key: bool, is_text: bool) -> Result<(), AllocError>
        requires expected { IsItemExpected Self agrees is_key self.old }
        ensures given { OnOk result (BeginsString Self agrees holds is_key is_text self.old self.new) }
        ensures memory { OnErr result (refused self.new) };

    /// A chunk of the string, whose content is the first `count` of these bytes.
    fn chunk(
        &mut self,
        is_key: bool,
        is_text: bool,
        prefix: &'a [u8],
        count: usize,
    ) -> Result<(), AllocError>
        requires within { count ≤ length prefix.now }
        requires utf8 { is_text ≡ true → IsUtf8 (take count prefix.now) }
        requires expected { IsChunkExpected Self holds is_key is_text self.old }
        ensures given { OnOk result (GrowsString Self holds is_key is_text (take count prefix.now)
            self.old self.new) }
        ensures memory { OnErr result (refused self.new) };

    /// The string in chunks ends.
    fn end_string(&mut self, is_key: bool, is_text: bool) -> Result<(), AllocError>
        requires expected { IsChunkExpected Self holds is_key is_text self.old }
        ensures given { OnOk result (EndsString Self agrees holds is_key is_text self.old self.new) }
        ensures memory { OnErr result (refused self.new) };

    /// An array, a map or a tag begins; a tag with its number.
    fn begin(&mut self, is_key: bool, major: Major, number: u64) -> Result<(), AllocError>
        requires kind { IsContainer major }
        requires expected { IsItemExpected Self agrees is_key self.old }
        ensures given { OnOk result (Opens Self agrees is_key major number self.old self.new) }
        ensures memory { OnErr result (refused self.new) };

    /// The innermost container ends, a map or not. If two of its keys are equal it does not end, and the
    /// result is what `first_repeat` returns: from the outermost open map in, the first key that is equal to
    /// an earlier one of its map.
    fn end(&mut self, is_map: bool) -> Result<Option<Repeat>, AllocError>
        requires full { IsContainerFull Self agrees trusts is_map self.old }
        ensures ends { IfOk result (λ reported. IsNone reported
            → Ends Self agrees trusts is_map self.old self.new) }
        ensures repeats { IfOk result (λ reported. IfSome reported
            (Repeats Self agrees trusts is_map self.old)) }
        ensures memory { OnErr result (refused self.new) };

    /// From the outermost open map in, the first key that is equal to an earlier one of its map. None if no
    /// two complete keys are equal. It is called where an item or a chunk of a string is expected; after it,
    /// the parts given so far are of no further use.
    fn first_repeat(&mut self) -> Option<Repeat>
        ensures none { IsNone result → trusts ≡ false → FindsNoRepeat Self agrees holds self.old }
        ensures found { IfSome result (FindsRepeat Self agrees holds self.old) };
}
