//! Numbers of bindings.
ghost use Rattle.std.specs.Prelude.{◌≡◌, OnErr};
ghost use Rattle.justfile_parse_expression.specs.TableReader.{State};
ghost use Rattle.justfile_parse_base.specs.Counting.{ReadsCountedExpression, counters_of};
ghost use Rattle.justfile_parse_base.specs.SharedTable as reader;

use justfile_numbers::{Number, Numerator};
use justfile_parse_expression::ExpressionError;

/// Returns the number of the next binding.
///
/// # Errors
///
/// `Numbers` if the counter has reached its maximum.
#[tactic(auto, unfolding(justfile_model::specs::Readers::HeaderReader::next_binding_number, justfile_parse_expression::specs::TableReader::leaves))]
pub fn next_binding_number<'src>(numerator: &mut Numerator) -> Result<Number, ExpressionError<'src>>
    ensures reads { (s : State) → ReadsCountedExpression (λ number. number.0) result numerator.new s
        (reader.next_binding_number (counters_of numerator.old) s) }
    ensures unmoved { OnErr result (numerator.new ≡ numerator.old) }
{
    match numerator.next_binding() {
        Some(number) => Ok(number),
        None => Err(ExpressionError::Numbers),
    }
}
