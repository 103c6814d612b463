//! What the program can be requested to do, and how it is reported.

use cbor_head::{KeyOrder, Limits};

/// What a command line requests, and how it is reported.
#[derive(Debug, Drop)]
pub struct Task<'a> {
    /// The request, for the first file.
    pub request: Request<'a>,
    /// All files of `check`, in the order of the command line. Empty for any other subcommand.
    pub files: Vec<&'a str>,
    /// How it is reported.
    pub verbosity: Verbosity,
}

/// How the program reports what it finds.
#[derive(Clone, Copy, Debug)]
pub enum Verbosity {
    /// With the output, or the one line of a refusal or an error.
    Plain,
    /// As `Plain`, with an explanation after that line.
    Explained,
    /// With the exit status only.
    Quiet,
}

/// What a command line requests.
#[derive(Debug, Drop)]
pub struct Request<'a> {
    /// What is done with the file.
    pub action: Action<'a>,
    /// The path of the file to read, or `-` for standard input. In `compare` it is the left file.
    pub source: &'a str,
    /// Whether the file is a sequence of items instead of one item. `compare` reads one item only.
    pub sequence: bool,
    /// How each file is read.
    pub options: Options,
}

/// What is done with a file.
#[derive(Debug, Drop)]
pub enum Action<'a> {
    /// Checks that these items are accepted.
    Check(Accepted),
    /// Writes the diagnostic text, in this style.
    Show(TextStyle),
    /// Writes the lines of the events, in this style.
    Events(EventStyle),
    /// Writes the canonical bytes to another file.
    Canon {
        /// Where the canonical bytes are written, and in which form.
        output: Output<'a>,
        /// The order of keys in the canonical bytes.
        order: KeyOrder,
    },
    /// Compares the values of two items.
    Compare {
        /// The path of the file with the second item, or `-`.
        right: &'a str,
    },
}

/// Which items `check` accepts.
#[derive(Clone, Copy, Debug)]
pub enum Accepted {
    /// Every valid item.
    Valid,
    /// Items in canonical bytes, with this order of keys.
    Canonical(KeyOrder),
}

/// How `show` lays out its text.
#[derive(Clone, Copy, Debug)]
pub enum TextStyle {
    /// On one line.
    OneLine,
    /// One member or pair per line.
    Indented,
}

/// What `events` writes of an event.
#[derive(Clone, Copy, Debug)]
pub enum EventStyle {
    /// A line with its offset, name, argument and width. Pieces of a payload have no line.
    Listed,
    /// Its offset, its bytes in hex and their meaning. A payload has a line for each 16 bytes.
    Annotated,
}

/// Where `canon` writes.
#[derive(Clone, Copy, Debug)]
pub struct Output<'a> {
    /// The path of the file to write, or `-`.
    pub path: &'a str,
    /// The form of the bytes.
    pub form: Form,
}

/// The form in which `canon` writes bytes.
#[derive(Clone, Copy, Debug)]
pub enum Form {
    /// The bytes themselves.
    Raw,
    /// Two hex digits for each byte, and a line feed.
    Hex,
}

/// How each subcommand reads a file.
#[derive(Clone, Copy, Debug)]
pub struct Options {
    /// The limits on the item.
    pub limits: Limits,
    /// Whether the file has hex digits instead of the bytes.
    pub hex: bool,
}
