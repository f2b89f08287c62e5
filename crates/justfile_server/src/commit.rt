//! Which commit the program is built from.

/// The commit. `tools/install.sh` writes it into a copy of this file, from which it builds.
pub const COMMIT: &str = "unknown";
