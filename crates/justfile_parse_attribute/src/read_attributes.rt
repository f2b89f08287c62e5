//! The attributes of an item while they are parsed.
ghost use Rattle.std.specs.Prelude.{◌≡◌};
ghost use Rattle.justfile_model.specs.Meanings.Meaning.{by_key, by_position};
ghost use Rattle.justfile_model.specs.Readers.NewAttribute.{new_entry};
ghost use Rattle.justfile_parse_attribute.specs.AddedAttributes.{Adds, bare_at};
ghost use Rattle.justfile_parse_attribute.specs.Attributes.{arguments_of, entries_of};
ghost use Rattle.justfile_parse_attribute.specs.Labels.{AreKnown, KnowsLabels, prop_known};
ghost use Rattle.justfile_parse_attribute.specs.DerivedAttributeFields.{KeepsPairs};
ghost use Rattle.justfile_expression.specs.LeafViews.{views_leaves};
ghost use Rattle.justfile_written.specs.Written.{line_commented};

use crate::arguments::Arguments;
use crate::labels::Labels;
use crate::new_attribute::add_attribute;
use crate::repeated::check_last;
use justfile_attribute::Attribute;
use justfile_token::{CompileResult, Name};
use justfile_vocabulary::AttributeKind;
use justfile_written::{Written, comment_last};
use std::alloc::Global;

/// The attributes parsed so far, none of which conflicts with another, and the line where each
/// label is first.
#[derive(Drop)]
pub(crate) struct ReadAttributes<'src> {
    /// The attributes, each with its name and its comment.
    pub(crate) pairs: Vec<(Attribute<'src>, Written<'src>)>,
    pub(crate) labels: Labels,
    ghost known: { AreKnown labels (entries_of pairs.items) } by { prop_known labels (entries_of pairs.items) },
}

impl<'src> ReadAttributes<'src> {
    ghost use Rattle.std.specs.Prelude.{◌≡◌, [], OnOk};
    ghost use Rattle.justfile_model.specs.Meanings.Meaning.{by_key, by_position};
    ghost use Rattle.justfile_model.specs.Readers.NewAttribute.{new_entry};
    ghost use Rattle.justfile_parse_attribute.specs.AddedAttributes.{Adds, bare_at};
    ghost use Rattle.justfile_parse_attribute.specs.Attributes.{arguments_of, entries_of};
    ghost use Rattle.justfile_parse_attribute.specs.DerivedAttributeFields.{KeepsDerivedPairFields};
    ghost use Rattle.justfile_expression.specs.LeafViews.{views_leaves};
    ghost use Rattle.justfile_written.specs.Written.{line_commented};

    /// Returns the empty list of attributes.
    #[tactic(auto, using(crate::proofs::KnownLabels::none_known))]
    pub(crate) fn new(alloc: Global) -> Self
        ensures { result.pairs.items ≡ [] }
    {
        ReadAttributes {
            pairs: Vec::new(alloc),
            labels: Labels::new(alloc),
        }
    }

    /// Makes an attribute from its arguments, and appends it.
    ///
    /// # Errors
    ///
    /// `Compile` if a rule is broken; `Memory` if memory runs out.
    #[tactic(auto, using(crate::proofs::KnownLabels::still_known))]
    pub(crate) fn push(
        &mut self,
        alloc: Global,
        name: Name<'src>,
        kind: AttributeKind,
        arguments: Arguments<'src>,
    ) -> CompileResult<'src>
        ensures added { Adds (bare_at name.entry) result
            (new_entry views_leaves (entries_of self.old.pairs.items) name.entry.token kind
            (by_position (arguments_of arguments.entry)) (by_key (arguments_of arguments.entry)))
            name.entry self.old.pairs.items self.new.pairs.items }
        ensures fields { OnOk result
            (KeepsDerivedPairFields self.old.pairs.items self.new.pairs.items) }
    {
        let count = self.pairs.len();
        match push_checked(
            alloc,
            &mut self.labels,
            &mut self.pairs,
            name,
            kind,
            arguments,
        ) {
            Ok(()) => Ok(()),
            Err(fault) => {
                self.pairs.truncate(count);
                Err(fault)
            }
        }
    }

    /// Attaches the comment after a line of attributes, if there is one, to the last attribute.
    #[tactic(auto, using(crate::proofs::KnownLabels::commented_known))]
    pub(crate) fn attach_comment(&mut self, comment: Option<&'src str>)
        ensures { self.new.pairs.items ≡ line_commented comment.entry self.old.pairs.items }
    {
        attach_to_last(&mut self.pairs, comment);
    }

    /// Returns the attributes, each with its name and its comment.
    pub(crate) fn into_pairs(self) -> Vec<(Attribute<'src>, Written<'src>)>
        ensures { result.items ≡ self.entry.pairs.items }
    {
        let ReadAttributes { pairs, labels: _ } = self;
        pairs
    }
}

/// Makes an attribute from its arguments, and appends it to `pairs`, whose labels are in `labels`.
///
/// # Errors
///
/// `Compile` if a rule is broken; `Memory` if memory runs out.
#[tactic(auto, using(crate::proofs::KnownLabels::known_before, crate::proofs::AttributeSteps::entry_checked, crate::proofs::AttributeSteps::entry_refused, crate::proofs::KnownLabels::begins_added, crate::proofs::KnownLabels::begins_same, crate::proofs::KnownLabels::labels_same, crate::proofs::DerivedFieldsKept::unchanged_fields))]
fn push_checked<'src>(
    alloc: Global,
    labels: &mut Labels,
    pairs: &mut Vec<(Attribute<'src>, Written<'src>)>,
    name: Name<'src>,
    kind: AttributeKind,
    arguments: Arguments<'src>,
) -> CompileResult<'src>
    requires { AreKnown labels.old (entries_of pairs.old.items) }
    ensures added { Adds (bare_at name.entry) result (new_entry views_leaves (entries_of pairs.old.items)
        name.entry.token kind (by_position (arguments_of arguments.entry))
        (by_key (arguments_of arguments.entry))) name.entry pairs.old.items pairs.new.items }
    ensures keeps { KeepsPairs pairs.old.items pairs.new.items }
    ensures labels { KnowsLabels result labels.old labels.new (entries_of pairs.new.items) }
{
    match add_attribute(alloc, pairs, name, kind, arguments) {
        Ok(()) => check_last(alloc, labels, pairs.as_slice()),
        Err(fault) => Err(fault),
    }
}

/// Attaches a comment, if there is one, to the last attribute.
fn attach_to_last<'src>(
    pairs: &mut Vec<(Attribute<'src>, Written<'src>)>,
    comment: Option<&'src str>,
)
    ensures { pairs.new.items ≡ line_commented comment.entry pairs.old.items }
{
    comment_last(pairs.as_mut_slice(), comment);
}
