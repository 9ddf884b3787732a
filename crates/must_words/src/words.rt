//! What words ask for.

use must_base::NameText;
use must_plan::Sends;

/// The options of a check.
#[derive(Clone, Copy)]
pub struct OptionWords<'a> {
    /// How many children a node of a tree has, 2 to 64.
    pub fan_in: Option<u8>,
    /// How standard sends are taken.
    pub sends: Option<Sends>,
    /// The name of the rules file.
    pub rules: Option<&'a str>,
    /// The report is written as CSV.
    pub csv: bool,
    /// The analysis takes one thread.
    pub serial: bool,
}

/// The words of a check.
#[derive(Drop)]
pub struct CheckWords<'a> {
    pub options: OptionWords<'a>,
    /// The files of the streams, rank 0 first: 1 to 1024.
    pub files: &'a [NameText],
}

/// What canonical words ask for.
#[derive(Drop)]
pub enum CommandWords<'a> {
    /// A check of a run.
    Check(CheckWords<'a>),
    /// The text of the stream in the file of this name.
    Dump(&'a str),
}
