//! The features that need the setting `unstable`.
/// A feature that requires the setting `unstable`.
#[derive(Clone, Copy, Debug, PartialEq, Eq, PartialOrd, Ord)]
pub enum UnstableFeature {
    /// Recipes with the attribute `cache`.
    CachedRecipes,
    /// The setting `lists`.
    ListsSetting,
    /// Functions that a justfile defines.
    UserDefinedFunctions,
}
