//! The built-in constants.
use crate::offer::OfferKind;
use crate::tables::Entry;

/// The built-in constants.
pub(crate) static CONSTANTS: [Entry; 29] = [
    (
        OfferKind::Constant,
        "BG_BLACK",
        "constant",
        "Makes the background of what a terminal shows black.",
    ),
    (
        OfferKind::Constant,
        "BG_BLUE",
        "constant",
        "Makes the background of what a terminal shows blue.",
    ),
    (
        OfferKind::Constant,
        "BG_CYAN",
        "constant",
        "Makes the background of what a terminal shows cyan.",
    ),
    (
        OfferKind::Constant,
        "BG_GREEN",
        "constant",
        "Makes the background of what a terminal shows green.",
    ),
    (
        OfferKind::Constant,
        "BG_MAGENTA",
        "constant",
        "Makes the background of what a terminal shows magenta.",
    ),
    (
        OfferKind::Constant,
        "BG_RED",
        "constant",
        "Makes the background of what a terminal shows red.",
    ),
    (
        OfferKind::Constant,
        "BG_WHITE",
        "constant",
        "Makes the background of what a terminal shows white.",
    ),
    (
        OfferKind::Constant,
        "BG_YELLOW",
        "constant",
        "Makes the background of what a terminal shows yellow.",
    ),
    (
        OfferKind::Constant,
        "BLACK",
        "constant",
        "Makes what a terminal shows black.",
    ),
    (
        OfferKind::Constant,
        "BLUE",
        "constant",
        "Makes what a terminal shows blue.",
    ),
    (
        OfferKind::Constant,
        "BOLD",
        "constant",
        "Makes what a terminal shows bold.",
    ),
    (
        OfferKind::Constant,
        "CLEAR",
        "constant",
        "Clears the screen of a terminal.",
    ),
    (
        OfferKind::Constant,
        "CYAN",
        "constant",
        "Makes what a terminal shows cyan.",
    ),
    (
        OfferKind::Constant,
        "GREEN",
        "constant",
        "Makes what a terminal shows green.",
    ),
    (
        OfferKind::Constant,
        "HEX",
        "constant",
        "The hexadecimal digits, with small letters.",
    ),
    (
        OfferKind::Constant,
        "HEXLOWER",
        "constant",
        "The hexadecimal digits, with small letters.",
    ),
    (
        OfferKind::Constant,
        "HEXUPPER",
        "constant",
        "The hexadecimal digits, with capitals.",
    ),
    (
        OfferKind::Constant,
        "HIDE",
        "constant",
        "Hides what a terminal shows.",
    ),
    (
        OfferKind::Constant,
        "INVERT",
        "constant",
        "Exchanges the colours of the text and the background in a terminal.",
    ),
    (
        OfferKind::Constant,
        "ITALIC",
        "constant",
        "Makes what a terminal shows italic.",
    ),
    (
        OfferKind::Constant,
        "MAGENTA",
        "constant",
        "Makes what a terminal shows magenta.",
    ),
    (
        OfferKind::Constant,
        "NORMAL",
        "constant",
        "Ends the styles of what a terminal shows.",
    ),
    (
        OfferKind::Constant,
        "PATH_SEP",
        "constant",
        "What separates the parts of a path: `/`, or `\\` on Windows.",
    ),
    (
        OfferKind::Constant,
        "PATH_VAR_SEP",
        "constant",
        "What separates the paths in a variable such as `PATH`: `:`, or `;` on Windows.",
    ),
    (
        OfferKind::Constant,
        "RED",
        "constant",
        "Makes what a terminal shows red.",
    ),
    (
        OfferKind::Constant,
        "STRIKETHROUGH",
        "constant",
        "Strikes out what a terminal shows.",
    ),
    (
        OfferKind::Constant,
        "UNDERLINE",
        "constant",
        "Underlines what a terminal shows.",
    ),
    (
        OfferKind::Constant,
        "WHITE",
        "constant",
        "Makes what a terminal shows white.",
    ),
    (
        OfferKind::Constant,
        "YELLOW",
        "constant",
        "Makes what a terminal shows yellow.",
    ),
];
