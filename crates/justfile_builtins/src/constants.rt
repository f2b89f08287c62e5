//! The built-in constants.
ghost use Rattle.std.specs.Prelude.{◌≡◌};
ghost use Rattle.std.specs.List.{list_any};
ghost use Rattle.std.specs.Str.{bytes_eq};
ghost use Rattle.justfile_builtins.specs.Constants.{is_constant};

/// The names of all built-in constants, in order.
pub static CONSTANTS: [&str; 29] = [
    "BG_BLACK",
    "BG_BLUE",
    "BG_CYAN",
    "BG_GREEN",
    "BG_MAGENTA",
    "BG_RED",
    "BG_WHITE",
    "BG_YELLOW",
    "BLACK",
    "BLUE",
    "BOLD",
    "CLEAR",
    "CYAN",
    "GREEN",
    "HEX",
    "HEXLOWER",
    "HEXUPPER",
    "HIDE",
    "INVERT",
    "ITALIC",
    "MAGENTA",
    "NORMAL",
    "PATH_SEP",
    "PATH_VAR_SEP",
    "RED",
    "STRIKETHROUGH",
    "UNDERLINE",
    "WHITE",
    "YELLOW",
];

/// Whether this is the name of a built-in constant.
pub fn is_constant(name: &str) -> bool
    ensures { result ≡ is_constant name.now }
{
    is_among(name, &CONSTANTS)
}

/// Whether the name is one of these.
fn is_among(name: &str, names: &[&str]) -> bool
    ensures { result ≡ list_any (λ known. bytes_eq name.now known.now) names.now }
{
    names.iter().any(|known| name == *known)
}
