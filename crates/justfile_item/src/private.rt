//! Which items lists omit.
ghost use Rattle.std.specs.Prelude.{◌≡◌};
ghost use Rattle.justfile_item.specs.Private.{is_private_item, is_private_name};

use justfile_attribute_set::AttributeSet;
use justfile_token::Token;

/// Whether an item with this name and these attributes is private: whether its name begins with
/// `_`, or it has the attribute `private`.
pub fn is_private_item(name: Token<'_>, attributes: &AttributeSet<'_>) -> bool
    ensures { result ≡ is_private_item name.entry attributes.now }
{
    is_private_name(name.lexeme().as_bytes()) || attributes.private()
}

/// Whether a name is private: whether it begins with `_`.
fn is_private_name(name: &[u8]) -> bool
    ensures { result ≡ is_private_name name.now }
{
    name.first() == Some(&b'_')
}
