//! Justfiles as a language.
ghost use Rattle.std.specs.Prelude.{◌⊎◌};
ghost use Rattle.editor_language.specs.Items.{OfItems};
ghost use Rattle.justfile_canonical.specs.Formatting.{HasNone, IsFormatted, LacksNumbers};
ghost use Rattle.justfile_mentions.specs.Names.{IsName};
ghost use Rattle.justfile_analysis.specs.Knowledge.{Knows};
ghost use Rattle.justfile_analysis.specs.Mentioned.{AreMentioned};
ghost use Rattle.justfile_server.specs.Choices.{AreChoices};
ghost use Rattle.justfile_server.specs.Findings.{AreFound};
ghost use Rattle.justfile_server.specs.Fixes.{AreFixesFor};
ghost use Rattle.justfile_server.specs.Links.{IsPathOf, Links};
ghost use Rattle.justfile_server.specs.Runs.{AreRunsIn};
ghost use Rattle.justfile_signatures.specs.Signatures.{IsSignature};

use crate::choices::choices_at;
use crate::chunk::description_of;
use crate::colors::colors_of;
use crate::findings::findings_of;
use crate::fixes::fixes_of;
use crate::links::links_of;
use crate::ranges::formatted_in;
use crate::runs::runs_of;
use editor_language::{
    Analysis, Choices, Colored, FileLink, Finding, Language, Mention, QuickFix, Replacement, Run,
    Span, items_of,
};
use editor_messages::Signature;
use justfile_analysis::{analysis_after, analysis_of, mentions_of};
use justfile_canonical::fault::FormatFault;
use justfile_canonical::formatting::format_text;
use justfile_mentions::is_name;
use justfile_signatures::signature_at;
use module_paths::Folders;
use std::alloc::{AllocError, Global};

/// Justfiles, and the folders that they are in.
#[derive(Drop)]
pub(crate) struct Justfiles<'a, F> {
    /// The folders.
    pub(crate) folders: &'a F,
}

impl<F: Folders> Language for Justfiles<'_, F> {
    ghost formats = { IsFormatted };

    ghost unformatted = { λ text. HasNone text ⊎ LacksNumbers text };

    ghost knows = { Knows };

    ghost finds = { AreFound };

    ghost mentioned = { λ text analysis mentions. AreMentioned analysis.parts.items mentions };

    ghost names = { IsName };

    ghost linked = { λ folder text analysis links.
        OfItems analysis.parts.items (λ items. Links (IsPathOf F.has folder text) items links) };

    ghost completed = { AreChoices };

    ghost fixed = { λ uri text analysis fixes.
        AreFixesFor uri text analysis.problems.items fixes };

    ghost signed = { IsSignature };

    ghost runs = { λ text analysis runs. AreRunsIn text runs };

    fn analysis(&self, alloc: Global, text: &str) -> Result<Analysis, AllocError> {
        analysis_of(alloc, text)
    }

    fn analysis_after(
        &self,
        alloc: Global,
        old_text: &str,
        old: Analysis,
        text: &str,
    ) -> Result<Analysis, AllocError> {
        analysis_after(alloc, old_text, old, text)
    }

    fn findings(
        &self,
        alloc: Global,
        uri: &str,
        text: &str,
        analysis: &Analysis,
    ) -> Result<Vec<Finding>, AllocError> {
        findings_of(alloc, uri, text, analysis)
    }

    #[tactic(auto, using(crate::proofs::Unformatted::no_justfile, crate::proofs::Unformatted::not_printable, crate::proofs::Unformatted::no_numbers))]
    fn formatted(&self, alloc: Global, text: &str) -> Result<Option<String>, AllocError> {
        match format_text(alloc, "justfile", text) {
            Ok(formatted) => Ok(Some(formatted)),
            Err(FormatFault::Memory) => Err(AllocError),
            Err(FormatFault::Rejected(_)) => Ok(None),
            Err(FormatFault::NotPrintable) => Ok(None),
            Err(FormatFault::Numbers) => Ok(None),
        }
    }

    fn formatted_items(
        &self,
        alloc: Global,
        text: &str,
        analysis: &Analysis,
        span: Span,
    ) -> Result<Vec<Replacement>, AllocError> {
        formatted_in(alloc, text, analysis, span)
    }

    fn mentions(
        &self,
        alloc: Global,
        _text: &str,
        analysis: &Analysis,
    ) -> Result<Vec<Mention>, AllocError> {
        mentions_of(alloc, &analysis.parts)
    }

    fn links(
        &self,
        alloc: Global,
        folder: Option<&str>,
        text: &str,
        analysis: &Analysis,
    ) -> Result<Vec<FileLink>, AllocError> {
        let items = items_of(alloc, &analysis.parts)?;
        links_of(alloc, self.folders, folder, text, &items)
    }

    fn description(
        &self,
        alloc: Global,
        text: &str,
        analysis: &Analysis,
        definition: &Mention,
    ) -> Result<String, AllocError> {
        description_of(alloc, text, analysis, definition)
    }

    fn completions(
        &self,
        alloc: Global,
        text: &str,
        mentions: &[Mention],
        offset: usize,
    ) -> Result<Choices, AllocError> {
        choices_at(alloc, text, mentions, offset)
    }

    fn fixes(
        &self,
        alloc: Global,
        uri: &str,
        text: &str,
        analysis: &Analysis,
    ) -> Result<Vec<QuickFix>, AllocError> {
        fixes_of(alloc, uri, text, &analysis.problems)
    }

    fn signature(
        &self,
        alloc: Global,
        text: &str,
        mentions: &[Mention],
        offset: usize,
    ) -> Result<Option<Signature>, AllocError> {
        signature_at(alloc, text, mentions, offset)
    }

    fn runs(
        &self,
        alloc: Global,
        text: &str,
        _analysis: &Analysis,
    ) -> Result<Vec<Run>, AllocError> {
        runs_of(alloc, text)
    }

    fn colored(
        &self,
        alloc: Global,
        text: &str,
        analysis: &Analysis,
        mentions: &[Mention],
    ) -> Result<Vec<Colored>, AllocError> {
        colors_of(alloc, text, analysis, mentions)
    }

    fn is_name(&self, alloc: Global, text: &str) -> Result<bool, AllocError> {
        is_name(alloc, text)
    }
}
