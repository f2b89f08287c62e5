//! Settings with their names and attributes.
ghost use Rattle.std.specs.Prelude.{◌≡◌, IfOk};
ghost use Rattle.std.specs.Option.{option_map};
ghost use Rattle.justfile_token.specs.Sink.{Puts};
ghost use Rattle.justfile_setting.specs.Copies.{IsSameSetting};
ghost use Rattle.justfile_item.specs.Copies.{IsSameSet};
ghost use Rattle.justfile_item.specs.Indented.{indentation_set, set_indentation};
ghost use Rattle.justfile_item.specs.ItemText.{later_value_text, setting_text_of};

use crate::copy::boxed_made;
use justfile_attribute_set::AttributeSet;
use justfile_leaves::put_piece;
use justfile_setting::{Setting, write_setting};
use justfile_token::{Keyed, Name, Sink};
use justfile_vocabulary::Indentation;
use std::alloc::{AllocError, Global};
use std::fmt;

/// A setting in a file.
#[derive(Drop)]
pub struct Set<'src> {
    /// The attributes.
    pub attributes: AttributeSet<'src>,
    /// The name of the setting.
    pub name: Name<'src>,
    /// The setting with its value.
    pub value: Setting<'src>,
}

impl<'src> Set<'src> {
    /// Returns a copy of the setting, or an error if out of memory.
    pub fn clone(&self, alloc: Global) -> Result<Self, AllocError>
        ensures { IfOk result (λ copy. IsSameSet copy self.now) }
    {
        let value = copy_boxed(&self.value, alloc)?;
        match self.attributes.clone(alloc) {
            Ok(attributes) => Ok(Set {
                attributes,
                name: self.name,
                value: Box::into_inner(value),
            }),
            Err(fault) => Err(fault),
        }
    }

    /// Returns the indentation that is set, if this is the setting `indentation` and is enabled on
    /// this system.
    pub(crate) fn indentation(&self) -> Option<Indentation>
        ensures { result ≡ option_map (λ p. p.1) (set_indentation self.now) }
    {
        if self.attributes.is_enabled() {
            indentation_of(&self.value)
        } else {
            None
        }
    }
}

/// The key of a setting is its name.
impl<'src> Keyed<'src> for Set<'src> {
    ghost use Rattle.justfile_token.specs.Name.{name_text};

    ghost key_text = { λ set. name_text set.name };

    fn key(&self) -> &'src str {
        self.name.token.lexeme()
    }
}

impl fmt::Display for Set<'_> {
    ghost use Rattle.std.specs.Prelude.{Some};

    ghost output = { λ set. Some (setting_text_of set) };

    fn fmt<W: fmt::Write>(&self, f: &mut fmt::Formatter<W>) -> fmt::Result {
        write_set(self, f)
    }
}

/// Writes the same text as `Display`.
impl fmt::Debug for Set<'_> {
    fn fmt<W: fmt::Write>(&self, f: &mut fmt::Formatter<W>) -> fmt::Result {
        write_set(self, f)
    }
}

/// Returns a copy of a setting in a box of its own.
fn copy_boxed<'src>(
    setting: &Setting<'src>,
    alloc: Global,
) -> Result<Box<Setting<'src>>, AllocError>
    ensures { IfOk result (λ copy. IsSameSetting copy.value setting.now) }
{
    boxed_made(alloc, setting.clone(alloc))
}

/// Returns the indentation if the setting is `indentation`.
fn indentation_of(setting: &Setting<'_>) -> Option<Indentation>
    ensures { result ≡ option_map (λ p. p.1) (indentation_set setting.now) }
{
    match setting {
        Setting::Indentation(_, indentation) => Some(*indentation),
        _ => None,
    }
}

/// Writes the text of a setting, without its attributes.
pub(crate) fn write_set<S: Sink>(set: &Set<'_>, sink: &mut S) -> Result<(), S::Fault>
    ensures { Puts S.took S.failed sink.old result (setting_text_of set.now) sink.new }
{
    put_piece("set ", sink)?;
    sink.put(set.name.lexeme())?;
    write_value(&set.value, sink)
}

/// Writes `:=` and the value of a setting, or nothing if it is the default value.
#[tactic(auto, using(crate::proofs::ItemTexts::value_default))]
fn write_value<S: Sink>(setting: &Setting<'_>, sink: &mut S) -> Result<(), S::Fault>
    ensures { Puts S.took S.failed sink.old result (later_value_text setting.now) sink.new }
{
    if setting.is_default() {
        return Ok(());
    }
    put_piece(" := ", sink)?;
    write_setting(setting, sink)?;
    Ok(())
}
