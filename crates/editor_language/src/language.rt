//! What is asked of a language.
ghost use Rattle.std.specs.Prelude.{◌↔◌, ℕ, List, Option, IfOk, IsTrue, MatchOption, option_copied, string_bytes};
ghost use Rattle.editor_language.specs.declared.mention.Mention.{Mention};
ghost use Rattle.editor_language.specs.declared.parts.Analysis.{Analysis};
ghost use Rattle.editor_language.specs.declared.parts.Choices.{Choices};
ghost use Rattle.editor_language.specs.declared.parts.FileLink.{FileLink};
ghost use Rattle.editor_language.specs.declared.parts.Finding.{Finding};
ghost use Rattle.editor_language.specs.declared.parts.QuickFix.{QuickFix};
ghost use Rattle.editor_language.specs.declared.parts.Run.{Run};
ghost use Rattle.editor_messages.specs.declared.answer.Signature.{Signature};

use crate::mention::Mention;
use crate::parts::{
    Analysis, Choices, Colored, FileLink, Finding, QuickFix, Replacement, Run, Span,
};
use editor_messages::Signature;
use std::alloc::{AllocError, Global};

/// A language.
pub trait Language {
    /// The second text is the formatted text of the first.
    ghost formats: { List ℕ → List ℕ → Type 0 };

    /// The text has no formatted text.
    ghost unformatted: { List ℕ → Type 0 };

    /// This is known of the text.
    ghost knows: { List ℕ → Analysis → Type 0 };

    /// These are the findings in the text of the document with the address, of which this is known.
    ghost finds: { List ℕ → List ℕ → Analysis → List Finding → Type 0 };

    /// These are the mentions of names in the text of which this is known.
    ghost mentioned: { List ℕ → Analysis → List Mention → Type 0 };

    /// The text is a name.
    ghost names: { List ℕ → Type 0 };

    /// These are the links to files, from the folder at a path if there is one, in the text of
    /// which this is known.
    ghost linked: { Option (List ℕ) → List ℕ → Analysis → List FileLink → Type 0 };

    /// This can be written at an offset of the text, which has these mentions.
    ghost completed: { List ℕ → List Mention → ℕ → Choices → Type 0 };

    /// These set right what is wrong in the text of the document with the address, of which this is
    /// known.
    ghost fixed: { List ℕ → List ℕ → Analysis → List QuickFix → Type 0 };

    /// An argument of this is written at an offset of the text, which has these mentions.
    ghost signed: { List ℕ → List Mention → ℕ → Option Signature → Type 0 };

    /// These can be run as they are, of the text of which this is known.
    ghost runs: { List ℕ → Analysis → List Run → Type 0 };

    /// Returns what is known of a text.
    ///
    /// # Errors
    ///
    /// Memory ran out.
    fn analysis(&self, alloc: Global, text: &str) -> Result<Analysis, AllocError>
        ensures { IfOk result (knows text.now) };

    /// Returns what is known of a text, by what was known of an old text, which it was before a
    /// change.
    ///
    /// # Errors
    ///
    /// Memory ran out.
    fn analysis_after(
        &self,
        alloc: Global,
        old_text: &str,
        old: Analysis,
        text: &str,
    ) -> Result<Analysis, AllocError>
        ensures { knows old_text.now old → IfOk result (knows text.now) };

    /// Returns what is wrong with what a text says, beside the problems that are known: in the order
    /// of the text, which is that of the document with an address.
    ///
    /// # Errors
    ///
    /// Memory ran out.
    fn findings(
        &self,
        alloc: Global,
        uri: &str,
        text: &str,
        analysis: &Analysis,
    ) -> Result<Vec<Finding>, AllocError>
        ensures { IfOk result (λ found. finds uri.now text.now analysis.now found.items) };

    /// Returns the formatted text of a text, if it has one.
    ///
    /// # Errors
    ///
    /// Memory ran out.
    fn formatted(&self, alloc: Global, text: &str) -> Result<Option<String>, AllocError>
        ensures { IfOk result (λ made. MatchOption made (unformatted text.now)
            (λ formatted. formats text.now (string_bytes formatted))) };

    /// Returns what takes the place of the items in a part of a text, to format them.
    ///
    /// # Errors
    ///
    /// Memory ran out.
    fn formatted_items(
        &self,
        alloc: Global,
        text: &str,
        analysis: &Analysis,
        span: Span,
    ) -> Result<Vec<Replacement>, AllocError>;

    /// Returns where names are defined and used in a text.
    ///
    /// # Errors
    ///
    /// Memory ran out.
    fn mentions(
        &self,
        alloc: Global,
        text: &str,
        analysis: &Analysis,
    ) -> Result<Vec<Mention>, AllocError>
        ensures { IfOk result (λ found. mentioned text.now analysis.now found.items) };

    /// Returns what leads to files in a text. The document is in the folder at a path, if it is a
    /// file.
    ///
    /// # Errors
    ///
    /// Memory ran out.
    fn links(
        &self,
        alloc: Global,
        folder: Option<&str>,
        text: &str,
        analysis: &Analysis,
    ) -> Result<Vec<FileLink>, AllocError>
        ensures { IfOk result
            (λ found. linked (option_copied folder.entry) text.now analysis.now found.items) };

    /// Returns what is known of a name, by where it is defined, if it is defined.
    ///
    /// # Errors
    ///
    /// Memory ran out.
    fn description(
        &self,
        alloc: Global,
        text: &str,
        analysis: &Analysis,
        definition: &Mention,
    ) -> Result<String, AllocError>;

    /// Returns what can be written at an offset of a text with these mentions.
    ///
    /// # Errors
    ///
    /// Memory ran out.
    fn completions(
        &self,
        alloc: Global,
        text: &str,
        mentions: &[Mention],
        offset: usize,
    ) -> Result<Choices, AllocError>
        ensures { IfOk result (completed text.now mentions.now offset) };

    /// Returns ways to set right what is wrong in a text, which is that of the document with an address.
    ///
    /// # Errors
    ///
    /// Memory ran out.
    fn fixes(
        &self,
        alloc: Global,
        uri: &str,
        text: &str,
        analysis: &Analysis,
    ) -> Result<Vec<QuickFix>, AllocError>
        ensures { IfOk result (λ found. fixed uri.now text.now analysis.now found.items) };

    /// Returns what is called with an argument at an offset of a text with these mentions, if something
    /// is.
    ///
    /// # Errors
    ///
    /// Memory ran out.
    fn signature(
        &self,
        alloc: Global,
        text: &str,
        mentions: &[Mention],
        offset: usize,
    ) -> Result<Option<Signature>, AllocError>
        ensures { IfOk result (signed text.now mentions.now offset) };

    /// Returns what can be run as it is, in a text.
    ///
    /// # Errors
    ///
    /// Memory ran out.
    fn runs(&self, alloc: Global, text: &str, analysis: &Analysis) -> Result<Vec<Run>, AllocError>
        ensures { IfOk result (λ found. runs text.now analysis.now found.items) };

    /// Returns how the tokens of a text are shown, in their order.
    ///
    /// # Errors
    ///
    /// Memory ran out.
    fn colored(
        &self,
        alloc: Global,
        text: &str,
        analysis: &Analysis,
        mentions: &[Mention],
    ) -> Result<Vec<Colored>, AllocError>;

    /// Whether a text is a name.
    ///
    /// # Errors
    ///
    /// Memory ran out.
    fn is_name(&self, alloc: Global, text: &str) -> Result<bool, AllocError>
        ensures { IfOk result (λ is. IsTrue is ↔ names text.now) };
}
