//! Copies of attributes.
ghost use Rattle.std.specs.Prelude.{◌≡◌, IfOk};
ghost use Rattle.std.specs.List.{AllZip};
ghost use Rattle.justfile_token.specs.StringLiteral.{IsSameLiteral};
ghost use Rattle.justfile_token.specs.Copies.{IsSameIfPresent, IsSameText};
ghost use Rattle.justfile_vocabulary.specs.declared.attribute_kind.AttributeKind.TheVariants as kinds;
ghost use Rattle.justfile_attribute.specs.Form.{case_kind};
ghost use Rattle.justfile_attribute.specs.Copies.{IsSameAttribute, IsSameInterpreter, IsSameProperty, unboxed};
ghost use Rattle.justfile_attribute.specs.declared.attribute.Attribute.TheVariants as attributes;

use crate::attribute::Attribute;
use crate::interpreter::Interpreter;
use justfile_expression::{Expression, copy_boxed, copy_optional};
use justfile_token::{Name, StringLiteral, copy_optional_text};
use justfile_vocabulary::Signal;
use std::alloc::{AllocError, Global};
use std::collections::BTreeSet;

impl<'src> Attribute<'src> {
    /// Returns a copy of the attribute, or an error if out of memory.
    pub fn clone(&self, alloc: Global) -> Result<Self, AllocError>
        ensures { IfOk result (λ copy. IsSameAttribute copy self.now) }
    {
        match self {
            Attribute::Android => Ok(Attribute::Android),
            Attribute::Arg { .. } => copy_arg(alloc, self),
            Attribute::Cache {
                extra,
                inputs,
                outputs,
            } => copy_cache(alloc, extra, inputs, outputs),
            Attribute::Confirm(prompt) => copy_confirm(alloc, prompt),
            Attribute::Continue(signals) => copy_continue(signals),
            Attribute::Default => Ok(Attribute::Default),
            Attribute::Doc(doc) => copy_doc(alloc, doc),
            Attribute::Dragonfly => Ok(Attribute::Dragonfly),
            Attribute::Env(name, value) => copy_env(alloc, name, value),
            Attribute::ExitMessage => Ok(Attribute::ExitMessage),
            Attribute::Extension(extension) => copy_extension(alloc, extension),
            Attribute::Freebsd => Ok(Attribute::Freebsd),
            Attribute::Group(group) => copy_group(alloc, group),
            Attribute::Linux => Ok(Attribute::Linux),
            Attribute::Macos => Ok(Attribute::Macos),
            Attribute::Metadata(texts) => copy_metadata(alloc, texts),
            Attribute::Netbsd => Ok(Attribute::Netbsd),
            Attribute::NoCd => Ok(Attribute::NoCd),
            Attribute::NoExitMessage => Ok(Attribute::NoExitMessage),
            Attribute::NoQuiet => Ok(Attribute::NoQuiet),
            Attribute::Openbsd => Ok(Attribute::Openbsd),
            Attribute::Parallel => Ok(Attribute::Parallel),
            Attribute::PositionalArguments => Ok(Attribute::PositionalArguments),
            Attribute::Private => Ok(Attribute::Private),
            Attribute::Script(interpreter) => copy_script(alloc, interpreter),
            Attribute::Shell => Ok(Attribute::Shell),
            Attribute::Timestamp(format) => copy_timestamp(alloc, format),
            Attribute::Unix => Ok(Attribute::Unix),
            Attribute::Windows => Ok(Attribute::Windows),
            Attribute::WorkingDirectory(path) => copy_working_directory(alloc, path),
        }
    }
}

impl<'src> Interpreter<StringLiteral<'src>> {
    /// Returns a copy of the interpreter, or an error if out of memory.
    pub fn clone(&self, alloc: Global) -> Result<Self, AllocError>
        ensures { IfOk result (λ copy. IsSameInterpreter copy self.now) }
    {
        let arguments = copy_literals(alloc, &self.arguments)?;
        Ok(Interpreter {
            command: self.command.clone(alloc)?,
            arguments,
        })
    }
}

/// Returns a copy of a `cache` attribute, given by its fields.
fn copy_cache<'src>(
    alloc: Global,
    extra: &Option<Box<Expression<'src>>>,
    inputs: &Option<Box<Expression<'src>>>,
    outputs: &Option<Box<Expression<'src>>>,
) -> Result<Attribute<'src>, AllocError>
    ensures { IfOk result
        (λ copy. IsSameAttribute copy (attributes.Cache extra.now inputs.now outputs.now)) }
{
    let extra = copy_optional(alloc, extra)?;
    let inputs = copy_optional(alloc, inputs)?;
    let outputs = copy_optional(alloc, outputs)?;
    Ok(Attribute::Cache {
        extra,
        inputs,
        outputs,
    })
}

/// Returns a copy of an `env` attribute, given by its fields.
fn copy_env<'src>(
    alloc: Global,
    name: &Box<Expression<'src>>,
    value: &Box<Expression<'src>>,
) -> Result<Attribute<'src>, AllocError>
    ensures { IfOk result (λ copy. IsSameAttribute copy (attributes.Env name.now value.now)) }
{
    let name = copy_boxed(alloc, name)?;
    let value = copy_boxed(alloc, value)?;
    Ok(Attribute::Env(name, value))
}

/// Returns a copy of a `continue` attribute, given by its signals.
fn copy_continue<'src>(signals: &BTreeSet<Signal>) -> Result<Attribute<'src>, AllocError>
    ensures { IfOk result (λ copy. IsSameAttribute copy (attributes.Continue signals.now)) }
{
    Ok(Attribute::Continue(signals.clone()?))
}

/// Returns a copy of an `arg` attribute.
fn copy_arg<'src>(alloc: Global, attribute: &Attribute<'src>) -> Result<Attribute<'src>, AllocError>
    requires { kinds.Arg ≡ case_kind attribute.now }
    ensures { IfOk result (λ copy. IsSameAttribute copy attribute.now) }
{
    match attribute {
        Attribute::Arg {
            flag,
            help,
            help_property,
            long,
            long_key,
            max,
            max_key,
            min,
            min_key,
            multiple,
            name,
            pattern_property,
            short,
            short_key,
            value,
        } => {
            let help = copy_optional_text(alloc, help)?;
            let help_property = copy_property(alloc, help_property)?;
            let long = copy_option_literal(alloc, long)?;
            let name = copy_literal(alloc, name)?;
            let pattern_property = copy_property(alloc, pattern_property)?;
            let short = copy_option_literal(alloc, short)?;
            let value = copy_optional(alloc, value)?;
            Ok(Attribute::Arg {
                flag: *flag,
                help,
                help_property,
                long: unboxed(long),
                long_key: *long_key,
                max: *max,
                max_key: *max_key,
                min: *min,
                min_key: *min_key,
                multiple: *multiple,
                name: Box::into_inner(name),
                pattern_property,
                short: unboxed(short),
                short_key: *short_key,
                value,
            })
        }
        _ => unreachable!(),
    }
}

/// Returns a copy of an optional key with its value.
fn copy_property<'src>(
    alloc: Global,
    property: &Option<(Name<'src>, Box<Expression<'src>>)>,
) -> Result<Option<(Name<'src>, Box<Expression<'src>>)>, AllocError>
    ensures { IfOk result (λ copy. IsSameIfPresent IsSameProperty copy property.now) }
{
    match property {
        None => Ok(None),
        Some((key, value)) => Ok(Some((*key, copy_boxed(alloc, value)?))),
    }
}

/// Returns a copy of an optional literal in a box of its own.
fn copy_option_literal<'src>(
    alloc: Global,
    literal: &Option<StringLiteral<'src>>,
) -> Result<Option<Box<StringLiteral<'src>>>, AllocError>
    ensures { IfOk result (λ copy. IsSameIfPresent IsSameLiteral (unboxed copy) literal.now) }
{
    match literal {
        None => Ok(None),
        Some(literal) => Ok(Some(copy_literal(alloc, literal)?)),
    }
}

/// Returns a copy of a literal in a box of its own.
fn copy_literal<'src>(
    alloc: Global,
    literal: &StringLiteral<'src>,
) -> Result<Box<StringLiteral<'src>>, AllocError>
    ensures { IfOk result (λ copy. IsSameLiteral copy.value literal.now) }
{
    let copy = literal.clone(alloc)?;
    Ok(Box::new(alloc, copy)?)
}

/// Returns an optional value, out of its box.
fn unboxed<T: Drop>(boxed: Option<Box<T>>) -> Option<T>
    ensures { result ≡ unboxed boxed }
{
    match boxed {
        None => None,
        Some(boxed) => Some(Box::into_inner(boxed)),
    }
}

/// Returns a copy of a `confirm` attribute, given by its prompt.
fn copy_confirm<'src>(
    alloc: Global,
    prompt: &Option<Box<Expression<'src>>>,
) -> Result<Attribute<'src>, AllocError>
    ensures { IfOk result (λ copy. IsSameAttribute copy (attributes.Confirm prompt.now)) }
{
    Ok(Attribute::Confirm(copy_optional(alloc, prompt)?))
}

/// Returns a copy of a `doc` attribute, given by its doc.
fn copy_doc<'src>(
    alloc: Global,
    doc: &Option<Box<Expression<'src>>>,
) -> Result<Attribute<'src>, AllocError>
    ensures { IfOk result (λ copy. IsSameAttribute copy (attributes.Doc doc.now)) }
{
    Ok(Attribute::Doc(copy_optional(alloc, doc)?))
}

/// Returns a copy of an `extension` attribute, given by its extension.
fn copy_extension<'src>(
    alloc: Global,
    extension: &StringLiteral<'src>,
) -> Result<Attribute<'src>, AllocError>
    ensures { IfOk result (λ copy. IsSameAttribute copy (attributes.Extension extension.now)) }
{
    Ok(Attribute::Extension(extension.clone(alloc)?))
}

/// Returns a copy of a `group` attribute, given by the name of its group.
fn copy_group<'src>(
    alloc: Global,
    group: &StringLiteral<'src>,
) -> Result<Attribute<'src>, AllocError>
    ensures { IfOk result (λ copy. IsSameAttribute copy (attributes.Group group.now)) }
{
    Ok(Attribute::Group(group.clone(alloc)?))
}

/// Returns a copy of a `metadata` attribute, given by its texts.
fn copy_metadata<'src>(
    alloc: Global,
    texts: &Vec<StringLiteral<'src>>,
) -> Result<Attribute<'src>, AllocError>
    ensures { IfOk result (λ copy. IsSameAttribute copy (attributes.Metadata texts.now)) }
{
    Ok(Attribute::Metadata(copy_literals(alloc, texts)?))
}

/// Returns copies of literals.
fn copy_literals<'src>(
    alloc: Global,
    literals: &Vec<StringLiteral<'src>>,
) -> Result<Vec<StringLiteral<'src>>, AllocError>
    ensures { IfOk result (λ copies. AllZip IsSameLiteral copies.items literals.now.items) }
{
    let mut copies = Vec::new(alloc);
    for literal in literals {
        let copy = literal.clone(alloc)?;
        copies.push(copy)?;
    }
    Ok(copies)
}

/// Returns a copy of a `script` attribute, given by its interpreter.
fn copy_script<'src>(
    alloc: Global,
    interpreter: &Option<Interpreter<StringLiteral<'src>>>,
) -> Result<Attribute<'src>, AllocError>
    ensures { IfOk result (λ copy. IsSameAttribute copy (attributes.Script interpreter.now)) }
{
    Ok(Attribute::Script(copy_interpreter(alloc, interpreter)?))
}

/// Returns a copy of an optional interpreter.
fn copy_interpreter<'src>(
    alloc: Global,
    interpreter: &Option<Interpreter<StringLiteral<'src>>>,
) -> Result<Option<Interpreter<StringLiteral<'src>>>, AllocError>
    ensures { IfOk result (λ copy. IsSameIfPresent IsSameInterpreter copy interpreter.now) }
{
    match interpreter {
        None => Ok(None),
        Some(interpreter) => Ok(Some(interpreter.clone(alloc)?)),
    }
}

/// Returns a copy of a `timestamp` attribute, given by its format.
fn copy_timestamp<'src>(
    alloc: Global,
    format: &Option<Box<Expression<'src>>>,
) -> Result<Attribute<'src>, AllocError>
    ensures { IfOk result (λ copy. IsSameAttribute copy (attributes.Timestamp format.now)) }
{
    Ok(Attribute::Timestamp(copy_optional(alloc, format)?))
}

/// Returns a copy of a `working-directory` attribute, given by its path.
fn copy_working_directory<'src>(
    alloc: Global,
    path: &Box<Expression<'src>>,
) -> Result<Attribute<'src>, AllocError>
    ensures { IfOk result (λ copy. IsSameAttribute copy (attributes.WorkingDirectory path.now)) }
{
    Ok(Attribute::WorkingDirectory(copy_boxed(alloc, path)?))
}
