//! The parameters of a recipe while they are parsed.
ghost use Rattle.std.specs.Prelude.{◌≡◌, ◌∷◌, ◌++◌, [], OnErr, OnOk, map};
ghost use Rattle.std.specs.List.{list_any};
ghost use Rattle.std.specs.Str.{bytes_eq};
ghost use Rattle.justfile_token.specs.Token.{lexeme_of};
ghost use Rattle.justfile_parse_base.specs.TextSets.{HaveSame, texts_in};
ghost use Rattle.justfile_parse_header.specs.Arguments.{AreKeptNames, is_named, prop_kept};
ghost use Rattle.justfile_parse_header.specs.Tree.{parameter_tree};

use justfile_parse_base::text_sets::{add_text, is_among};
use justfile_recipe_header::Parameter;
use std::alloc::{AllocError, Global};
use std::collections::BTreeSet;

/// The parameters parsed so far, and a set of their names: all, or those that are looked up again.
#[derive(Drop)]
pub(crate) struct ReadParameters<'src> {
    pub(crate) list: Vec<Parameter<'src>>,
    names: BTreeSet<&'src str>,
    has_all_names: bool,
    ghost named: { AreKeptNames (map parameter_tree list.items) names has_all_names } by { prop_kept (map parameter_tree list.items) names has_all_names },
}

impl<'src> ReadParameters<'src> {
    ghost use Rattle.std.specs.Prelude.{◌≡◌, ◌∷◌, ◌++◌, ◌||◌, [], OnOk};

    /// Returns an empty list of parameters. Looking up many names is fast only if the set has all.
    #[tactic(auto, using(crate::proofs::ReadNames::none_named))]
    pub(crate) fn new(alloc: Global, has_all_names: bool) -> Self
        ensures { result.list.items ≡ [] }
    {
        ReadParameters {
            list: Vec::new(alloc),
            names: BTreeSet::new(alloc),
            has_all_names,
        }
    }

    /// Whether a parameter so far has this name. A name that the set lacks is looked for in the
    /// list, unless the set has all names.
    pub(crate) fn is_named(&self, name: &str) -> bool
        ensures { result ≡ is_named (map parameter_tree self.now.list.items) name.now }
    {
        if is_among(&self.names, name) {
            return true;
        }
        if self.has_all_names {
            return false;
        }
        any_named(&self.list, name)
    }

    /// Whether the set gets the name of a parameter that is appended.
    fn keeps_name(&self, is_looked_up: bool) -> bool
        ensures { result ≡ (is_looked_up || self.now.has_all_names) }
    {
        is_looked_up || self.has_all_names
    }

    /// Appends a parameter. The set gets its name in any case if that is looked up again.
    ///
    /// # Errors
    ///
    /// `AllocError` if memory runs out.
    #[inline(always)]
    pub(crate) fn push(
        &mut self,
        parameter: Parameter<'src>,
        is_looked_up: bool,
    ) -> Result<(), AllocError>
        ensures { OnOk result (self.new.list.items ≡ self.old.list.items ++ parameter.entry ∷ []) }
    {
        if self.keeps_name(is_looked_up) {
            push_named(&mut self.list, &mut self.names, parameter)
        } else {
            push_parameter(&mut self.list, parameter)
        }
    }
}

/// Whether one of the parameters has the name.
fn any_named(parameters: &[Parameter<'_>], name: &str) -> bool
    ensures { result ≡ list_any (λ p. bytes_eq (lexeme_of p.name.token) name.now) parameters.now }
{
    parameters
        .iter()
        .any(|parameter| parameter.name.lexeme() == name)
}

/// Appends a parameter to a list, and adds its name to a set. Changes neither if there is an error.
///
/// # Errors
///
/// `AllocError` if memory runs out.
#[tactic(auto, using(crate::proofs::ReadNames::taken_away))]
fn push_named<'src>(
    list: &mut Vec<Parameter<'src>>,
    names: &mut BTreeSet<&'src str>,
    parameter: Parameter<'src>,
) -> Result<(), AllocError>
    ensures pushed { OnOk result (list.new.items ≡ list.old.items ++ parameter.entry ∷ []) }
    ensures named { OnOk result (HaveSame
        (texts_in names.old ++ lexeme_of parameter.entry.name.token ∷ []) (texts_in names.new)) }
    ensures kept { OnErr result (list.new.items ≡ list.old.items) }
    ensures kept_names { OnErr result (names.new.keys ≡ names.old.keys) }
{
    let count = list.len();
    let name = parameter.name.lexeme();
    push_parameter(list, parameter)?;
    match add_text(names, name) {
        Ok(()) => Ok(()),
        Err(error) => {
            list.truncate(count);
            Err(error)
        }
    }
}

/// Appends a parameter to a list. The first room is for two, since most recipes have no more. Room is
/// reserved first: a push that can fail would return the parameter on failure, which costs one more
/// copy.
///
/// # Errors
///
/// `AllocError` if memory runs out.
#[inline(always)]
fn push_parameter<'src>(
    list: &mut Vec<Parameter<'src>>,
    parameter: Parameter<'src>,
) -> Result<(), AllocError>
    ensures pushed { OnOk result (list.new.items ≡ list.old.items ++ parameter.entry ∷ []) }
    ensures kept { OnErr result (list.new.items ≡ list.old.items) }
{
    if list.is_empty() {
        list.reserve_exact(2)?;
    }
    list.reserve(1)?;
    list.push_reserved(parameter);
    Ok(())
}
