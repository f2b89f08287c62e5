//! Whether an attribute is allowed after the others of its item.
ghost use Rattle.std.specs.Prelude.{◌≡◌, ◌∷◌, ◌++◌, [], false, None, OnErr, OnOk, string_bytes};
ghost use Rattle.justfile_attribute.specs.Attribute.{leaf_attribute_of};
ghost use Rattle.justfile_attribute_rules.specs.Made.{IsFaultOfRule, Makes};
ghost use Rattle.justfile_token.specs.declared.token.Token.{Token};
ghost use Rattle.justfile_model.specs.Meanings.AttributeKinds.{is_repeatable, same_attribute};
ghost use Rattle.justfile_model.specs.Meanings.AttributeRules.{excludes, label_of};
ghost use Rattle.justfile_model.specs.Trees.ContentKeys.{kind_of_attribute};
ghost use Rattle.justfile_model.specs.Trees.ContentLeaf.{literal_value};
ghost use Rattle.justfile_model.specs.Readers.NewAttribute.{check_repeated};
ghost use Rattle.justfile_model.specs.Meanings.Rules.{DuplicateArgAttribute, DuplicateAttribute, DuplicateGroupAttribute};
ghost use Rattle.justfile_parse_attribute.specs.AddedAttributes.{ChecksLast};
ghost use Rattle.justfile_parse_attribute.specs.Attributes.{entries_of, entry_of_pair};
ghost use Rattle.justfile_parse_attribute.specs.Labels.{AreKnown, AreKnownBefore, AreSame, ChecksLabel, IsLabelNoted, label_rule};
ghost use Rattle.justfile_leaves.specs.LeafContent.{literal_content};
ghost use Rattle.justfile_expression.specs.LeafViews.{views_leaves};
ghost use Rattle.justfile_vocabulary.specs.declared.attribute_kind.AttributeKind.TheVariants.{Arg};

use crate::labels::{Labels, find_label};
use justfile_attribute::Attribute;
use justfile_token::{CompileError, CompileErrorKind, CompileResult, Fault, Name, StringLiteral};
use justfile_vocabulary::AttributeKind;
use justfile_written::Written;
use std::alloc::Global;

/// Checks that the last attribute is allowed after those before it, whose labels are in `labels`,
/// and adds its label.
///
/// # Errors
///
/// `Compile` at its name if it isn't allowed; `Memory` if memory runs out.
#[tactic(auto, using(crate::proofs::RepeatedAttributes::checks_last, crate::proofs::RepeatedAttributes::checks_none, crate::proofs::KnownLabels::before_known, crate::proofs::KnownLabels::last_known, crate::proofs::KnownLabels::no_last))]
pub(crate) fn check_last<'src>(
    alloc: Global,
    labels: &mut Labels,
    attributes: &[(Attribute<'src>, Written<'src>)],
) -> CompileResult<'src>
    requires { AreKnownBefore labels.old attributes.now }
    ensures checks { ChecksLast result attributes.now }
    ensures known { OnOk result (AreKnown labels.new (entries_of attributes.now)) }
    ensures kept { OnErr result (AreSame labels.old labels.new) }
{
    match attributes.split_last() {
        Some((last, before)) => check_next(alloc, labels, before, &last.0, last.1),
        None => Ok(()),
    }
}

/// Checks that an attribute is allowed after those in `before`, whose labels are in `labels`, and
/// adds its label.
///
/// # Errors
///
/// `Compile` at its name if it isn't allowed; `Memory` if memory runs out.
#[tactic(auto, using(crate::proofs::KnownLabels::bare_known, crate::proofs::KnownLabels::labels_same, crate::proofs::KnownLabels::label_known, crate::proofs::KnownLabels::label_checked))]
fn check_next<'src>(
    alloc: Global,
    labels: &mut Labels,
    before: &[(Attribute<'src>, Written<'src>)],
    attribute: &Attribute<'src>,
    written: Written<'src>,
) -> CompileResult<'src>
    requires { AreKnown labels.old (entries_of before.now) }
    ensures checks { Makes (λ _. tt) result (check_repeated views_leaves
        (entries_of before.now) (entry_of_pair (attribute.now, written.entry))) }
    ensures known { OnOk result (AreKnown labels.new (entries_of before.now
        ++ entry_of_pair (attribute.now, written.entry) ∷ [])) }
    ensures kept { OnErr result (AreSame labels.old labels.new) }
{
    match find_label(attribute) {
        None => check_kind(before, attribute, written),
        Some(literal) => {
            let arg = is_arg(attribute);
            add_label(alloc, labels, arg, literal, written.name)
        }
    }
}

/// Checks that the label of an `arg` (if `is_arg`) or `group` (otherwise) isn't in `labels` yet,
/// and adds it.
///
/// # Errors
///
/// `Compile` at its name if the label is repeated; `Memory` if memory runs out.
#[tactic(auto, using(crate::proofs::KnownLabels::memory_checked))]
fn add_label<'src>(
    alloc: Global,
    labels: &mut Labels,
    is_arg: bool,
    literal: &StringLiteral<'src>,
    name: Name<'src>,
) -> CompileResult<'src>
    ensures checks { ChecksLabel is_arg literal.now name.entry.token labels.old result }
    ensures noted { OnOk result (IsLabelNoted is_arg (string_bytes literal.now.cooked)
        name.entry.token.line labels.old labels.new) }
    ensures kept { OnErr result (AreSame labels.old labels.new) }
{
    match check_new_label(alloc, labels, is_arg, literal, name) {
        Ok(()) => {
            labels.note(alloc, is_arg, literal.cooked.as_str(), name.line)?;
            Ok(())
        }
        Err(fault) => Err(fault),
    }
}

/// Checks that the label of an `arg` (if `is_arg`) or `group` (otherwise) isn't in `labels` yet.
///
/// # Errors
///
/// `Compile` at its name if the label is repeated; `Memory` if memory runs out.
fn check_new_label<'src>(
    alloc: Global,
    labels: &Labels,
    is_arg: bool,
    literal: &StringLiteral<'src>,
    name: Name<'src>,
) -> CompileResult<'src>
    ensures { ChecksLabel is_arg literal.now name.entry.token labels.now result }
{
    match labels.find(is_arg, literal.cooked.as_str()) {
        None => Ok(()),
        Some(line) => Err(repeated_label_fault(alloc, is_arg, literal, name, line)),
    }
}

/// Makes the fault for an `arg` (if `is_arg`) or `group` (otherwise) whose label was first on this
/// line. It is `Memory` if there is no memory for a copy that the error holds.
fn repeated_label_fault<'src>(
    alloc: Global,
    is_arg: bool,
    literal: &StringLiteral<'src>,
    name: Name<'src>,
    line: usize,
) -> Fault<'src>
    ensures { (first : Token) → first.line ≡ line
        → IsFaultOfRule (label_rule is_arg literal.now first) name.entry.token result }
{
    if is_arg {
        repeated_argument_fault(alloc, literal, name, line)
    } else {
        repeated_group_fault(alloc, literal, name, line)
    }
}

/// Makes the fault for an `arg` whose argument was first on this line. It is `Memory` if there is
/// no memory for a copy that the error holds.
fn repeated_argument_fault<'src>(
    alloc: Global,
    argument: &StringLiteral<'src>,
    name: Name<'src>,
    line: usize,
) -> Fault<'src>
    ensures { (first : Token) → first.line ≡ line → IsFaultOfRule
        (DuplicateArgAttribute (string_bytes argument.now.cooked) first) name.entry.token result }
{
    match argument.cooked.as_str().to_string(alloc) {
        Ok(arg) => Fault::Compile(CompileError {
            kind: CompileErrorKind::DuplicateArgAttribute { arg, first: line },
            token: name.token,
        }),
        Err(_) => Fault::Memory,
    }
}

/// Makes the fault for a `group` whose name was first on this line. It is `Memory` if there is no
/// memory for a copy that the error holds.
#[tactic(auto, using(crate::proofs::RepeatedAttributes::copied_value))]
fn repeated_group_fault<'src>(
    alloc: Global,
    literal: &StringLiteral<'src>,
    name: Name<'src>,
    line: usize,
) -> Fault<'src>
    ensures { (first : Token) → first.line ≡ line
        → IsFaultOfRule (DuplicateGroupAttribute (literal_value (literal_content literal.now))
        literal.now.token first) name.entry.token result }
{
    match literal.clone(alloc) {
        Ok(group) => Fault::Compile(CompileError {
            kind: CompileErrorKind::DuplicateGroupAttribute { first: line, group },
            token: name.token,
        }),
        Err(_) => Fault::Memory,
    }
}

/// Whether the attribute is an `arg`.
#[tactic(auto, using(justfile_attribute::proofs::Ordered::kind_seen), unfolding(justfile_model::specs::Meanings::AttributeKinds::same_attribute))]
fn is_arg(attribute: &Attribute<'_>) -> bool
    ensures { result ≡ same_attribute (kind_of_attribute (leaf_attribute_of attribute.now)) Arg }
{
    attribute.kind() == AttributeKind::Arg
}

/// Checks that an attribute without a label is allowed after those in `before`.
///
/// # Errors
///
/// `Compile` at its name if it isn't allowed.
#[tactic(auto, using(crate::proofs::KnownLabels::repeatable_checked, justfile_attribute::proofs::Ordered::kind_seen))]
fn check_kind<'src>(
    before: &[(Attribute<'src>, Written<'src>)],
    attribute: &Attribute<'src>,
    written: Written<'src>,
) -> CompileResult<'src>
    requires { label_of views_leaves (leaf_attribute_of attribute.now) ≡ None }
    ensures { Makes (λ _. tt) result (check_repeated views_leaves (entries_of before.now)
        (entry_of_pair (attribute.now, written.entry))) }
{
    if attribute.repeatable() {
        return Ok(());
    }
    check_once(before, attribute, written)
}

/// Checks that no attribute of its kind comes before an attribute that is allowed only once.
///
/// # Errors
///
/// `Compile` at its name if there is one.
#[tactic(auto, using(crate::proofs::RepeatedAttributes::repeated_later, crate::proofs::RepeatedAttributes::repeated_here, crate::proofs::RepeatedAttributes::repeated_end, crate::proofs::RepeatedAttributes::other_rule))]
fn check_once<'src>(
    before: &[(Attribute<'src>, Written<'src>)],
    attribute: &Attribute<'src>,
    written: Written<'src>,
) -> CompileResult<'src>
    requires unlabelled { label_of views_leaves (leaf_attribute_of attribute.now) ≡ None }
    requires not_repeatable { is_repeatable (kind_of_attribute (leaf_attribute_of attribute.now))
        ≡ false }
    ensures { Makes (λ _. tt) result (check_repeated views_leaves (entries_of before.now)
        (entry_of_pair (attribute.now, written.entry))) }
{
    for earlier in before {
        if is_same_kind(&earlier.0, attribute) {
            return Err(repeated_kind_fault(written.name, earlier.1.name));
        }
    }
    Ok(())
}

/// Whether an attribute has the same kind as one that is allowed only once.
#[tactic(auto, using(justfile_attribute::proofs::Ordered::kind_seen, crate::proofs::KnownLabels::excludes_kind), unfolding(justfile_model::specs::Meanings::AttributeKinds::same_attribute))]
fn is_same_kind(first: &Attribute<'_>, second: &Attribute<'_>) -> bool
    requires { is_repeatable (kind_of_attribute (leaf_attribute_of second.now)) ≡ false }
    ensures { result
        ≡ excludes views_leaves (leaf_attribute_of first.now) (leaf_attribute_of second.now) }
{
    first.kind() == second.kind()
}

/// Makes the fault for a repeated attribute of a kind that is allowed only once.
fn repeated_kind_fault<'src>(name: Name<'src>, first: Name<'src>) -> Fault<'src>
    ensures { IsFaultOfRule (DuplicateAttribute name.entry.token first.entry.token)
        name.entry.token result }
{
    Fault::Compile(CompileError {
        kind: CompileErrorKind::DuplicateAttribute {
            attribute: name,
            first: first.line,
        },
        token: name.token,
    })
}
