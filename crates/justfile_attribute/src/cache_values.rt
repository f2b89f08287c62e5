//! The values of the keys of `cache`.

use justfile_expression::Expression;

/// The values of the keys of a `cache` attribute.
#[derive(Drop)]
pub(crate) struct CacheValues<'src> {
    pub(crate) extra: Option<Box<Expression<'src>>>,
    pub(crate) inputs: Option<Box<Expression<'src>>>,
    pub(crate) outputs: Option<Box<Expression<'src>>>,
}
