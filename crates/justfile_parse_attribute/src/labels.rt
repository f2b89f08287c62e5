//! The labels of an item's attributes: the argument of each `arg` and the name of each `group`. A
//! label may not be repeated, and an error tells the line where it is first.
ghost use Rattle.std.specs.Prelude.{◌≡◌, OnErr, OnOk, string_bytes};
ghost use Rattle.std.specs.BTreeMap.{get_by_text};
ghost use Rattle.std.specs.Option.{option_map};
ghost use Rattle.justfile_attribute.specs.Attribute.{leaf_attribute_of};
ghost use Rattle.justfile_attribute_rules.specs.Made.{quoted_leaf};
ghost use Rattle.justfile_model.specs.Meanings.AttributeRules.{label_of};
ghost use Rattle.justfile_parse_attribute.specs.Labels.{AreSameLines, IsNoted, IsStored};
ghost use Rattle.justfile_expression.specs.LeafViews.{views_leaves};

use justfile_attribute::Attribute;
use justfile_token::StringLiteral;
use std::alloc::{AllocError, Global};
use std::collections::BTreeMap;

/// Lines of attributes by the texts of their labels. The first one is held apart from the others,
/// since most items have no more, and a map takes longer to make.
#[derive(Drop)]
pub(crate) struct LabelLines {
    /// The first text that was stored, and its line.
    pub(crate) first: Option<(String, usize)>,
    pub(crate) others: BTreeMap<String, usize>,
}

impl LabelLines {
    ghost use Rattle.std.specs.Prelude.{◌≡◌};
    ghost use Rattle.justfile_parse_attribute.specs.Labels.{HasNone, line_in};

    /// Returns no lines.
    fn new(alloc: Global) -> Self
        ensures { HasNone result }
    {
        LabelLines {
            first: None,
            others: BTreeMap::new(alloc),
        }
    }

    /// Returns the line stored for a text.
    fn find(&self, text: &str) -> Option<usize>
        ensures { result ≡ line_in self.now text.now }
    {
        match &self.first {
            None => find_line(&self.others, text),
            Some((first, line)) => {
                if first.as_str() == text {
                    Some(*line)
                } else {
                    find_line(&self.others, text)
                }
            }
        }
    }
}

/// The line where each label is first, for `arg` and for `group`.
#[derive(Drop)]
pub(crate) struct Labels {
    /// The line of the first `arg` of each argument.
    pub(crate) arguments: LabelLines,
    /// The line of the first `group` of each name.
    pub(crate) groups: LabelLines,
}

impl Labels {
    ghost use Rattle.std.specs.Prelude.{◌≡◌, OnErr, OnOk};
    ghost use Rattle.justfile_parse_attribute.specs.Labels.{AreSame, HasNone, IsLabelNoted, line_at};

    /// Returns the empty set of labels.
    pub(crate) fn new(alloc: Global) -> Self
        ensures arguments { HasNone result.arguments }
        ensures groups { HasNone result.groups }
    {
        Labels {
            arguments: LabelLines::new(alloc),
            groups: LabelLines::new(alloc),
        }
    }

    /// Returns the line of the first `arg` (if `is_arg`) or `group` (otherwise) with this label, or
    /// `None` if there is none.
    pub(crate) fn find(&self, is_arg: bool, text: &str) -> Option<usize>
        ensures { result ≡ line_at is_arg text.now self.now }
    {
        if is_arg {
            self.arguments.find(text)
        } else {
            self.groups.find(text)
        }
    }

    /// Stores the line of an `arg` (if `is_arg`) or `group` (otherwise) with this label.
    ///
    /// # Errors
    ///
    /// `AllocError` if memory runs out.
    pub(crate) fn note(
        &mut self,
        alloc: Global,
        is_arg: bool,
        text: &str,
        line: usize,
    ) -> Result<(), AllocError>
        ensures ok { OnOk result (IsLabelNoted is_arg text.now line self.old self.new) }
        ensures err { OnErr result (AreSame self.old self.new) }
    {
        if is_arg {
            note_line(alloc, &mut self.arguments, text, line)
        } else {
            note_line(alloc, &mut self.groups, text, line)
        }
    }
}

/// Returns the line stored for a text in a map.
fn find_line(lines: &BTreeMap<String, usize>, text: &str) -> Option<usize>
    ensures { result ≡ get_by_text lines.now text.now }
{
    lines.get(text).copied()
}

/// Stores a line for a text that has none yet.
#[tactic(auto, using(crate::proofs::KnownLabels::first_noted, crate::proofs::KnownLabels::other_noted))]
fn note_line(
    alloc: Global,
    lines: &mut LabelLines,
    text: &str,
    line: usize,
) -> Result<(), AllocError>
    ensures ok { OnOk result (IsNoted text.now line lines.old lines.new) }
    ensures err { OnErr result (AreSameLines lines.old lines.new) }
{
    let key = text.to_string(alloc)?;
    if lines.first.is_none() {
        lines.first = Some((key, line));
        return Ok(());
    }
    store_line(&mut lines.others, key, line)
}

/// Stores a line for a text in a map.
#[tactic(auto, using(crate::proofs::KnownLabels::line_stored))]
fn store_line(
    lines: &mut BTreeMap<String, usize>,
    key: String,
    line: usize,
) -> Result<(), AllocError>
    ensures ok { OnOk result (IsStored (string_bytes key) line lines.old lines.new) }
    ensures err { OnErr result (lines.new.entries ≡ lines.old.entries) }
{
    match lines.insert(key, line) {
        Ok(_before) => Ok(()),
        Err(_failed) => Err(AllocError),
    }
}

/// Returns the label of an `arg` or `group`: the literal whose text no other attribute of its kind
/// may have. `None` for the other kinds.
#[tactic(auto, using(crate::proofs::RepeatedAttributes::single_label, crate::proofs::RepeatedAttributes::script_label))]
pub(crate) fn find_label<'run, 'src>(
    attribute: &'run Attribute<'src>,
) -> Option<&'run StringLiteral<'src>>
    ensures { option_map (λ l. quoted_leaf l.now) result
        ≡ label_of views_leaves (leaf_attribute_of attribute.now) }
{
    match attribute {
        Attribute::Arg { name, .. } => Some(name),
        Attribute::Group(literal) => Some(literal),
        Attribute::Android
        | Attribute::Cache { .. }
        | Attribute::Confirm(_)
        | Attribute::Continue(_)
        | Attribute::Default
        | Attribute::Doc(_)
        | Attribute::Dragonfly
        | Attribute::Env(_, _)
        | Attribute::ExitMessage
        | Attribute::Extension(_)
        | Attribute::Freebsd
        | Attribute::Linux
        | Attribute::Macos
        | Attribute::Metadata(_)
        | Attribute::Netbsd
        | Attribute::NoCd
        | Attribute::NoExitMessage
        | Attribute::NoQuiet
        | Attribute::Openbsd
        | Attribute::Parallel
        | Attribute::PositionalArguments
        | Attribute::Private
        | Attribute::Script(_)
        | Attribute::Shell
        | Attribute::Timestamp(_)
        | Attribute::Unix
        | Attribute::Windows
        | Attribute::WorkingDirectory(_) => None,
    }
}
