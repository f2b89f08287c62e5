//! The arguments of an attribute while they are parsed.
ghost use Rattle.std.specs.Prelude.{◌≡◌, ◌∷◌, ◌++◌, [], IsTrue, OnErr, OnOk, length, take};
ghost use Rattle.justfile_token.specs.Token.{lexeme_of};
ghost use Rattle.justfile_parse_attribute.specs.ArgumentKeys.{AreTexts, are_keys_distinct, prop_texts};
ghost use Rattle.justfile_parse_base.specs.TextSets.{HaveSame, texts_in};

use justfile_expression::Expression;
use justfile_parse_base::text_sets::{add_text, is_among};
use justfile_parse_expression::ExpressionError;
use justfile_token::{Name, Token};
use std::alloc::{AllocError, Global};
use std::collections::BTreeSet;

/// The arguments of an attribute parsed so far. No positional argument follows a keyword argument.
#[derive(Drop)]
pub(crate) struct Arguments<'src> {
    /// The positional arguments, each with its first token.
    pub(crate) positional: Vec<(Token<'src>, Box<Expression<'src>>)>,
    /// The keyword arguments, in their order.
    pub(crate) keyed: Vec<(Name<'src>, Option<Box<Expression<'src>>>)>,
    /// The texts of the keys.
    pub(crate) texts: BTreeSet<&'src str>,
    ghost distinct: { IsTrue (are_keys_distinct keyed.items) },
    ghost named: { AreTexts keyed.items texts } by { prop_texts keyed.items texts },
}

impl<'src> Arguments<'src> {
    ghost use Rattle.std.specs.Prelude.{◌≡◌, ◌↔◌, [], ◌∷◌, ◌++◌, IsTrue, None, false};
    ghost use Rattle.std.specs.Option.{is_some, option_map};
    ghost use Rattle.justfile_token.specs.Token.{lexeme_of};
    ghost use Rattle.justfile_model.specs.Meanings.Meaning.{at_key, by_key};
    ghost use Rattle.justfile_model.specs.Trees.Tree as tree;
    ghost use Rattle.justfile_parse_attribute.specs.Attributes.{IsSingle, arguments_of, positional_of};
    ghost use Rattle.justfile_parse_expression.specs.MethodResults.{UnlessMemory};
    ghost use Rattle.justfile_parse_attribute.specs.AttributeTable as reader;
    ghost use Rattle.justfile_expression.specs.LeafViews.{views_leaves};
    ghost use Rattle.justfile_expression.specs.LeafTree.{Named, leaf_tree_of};

    /// Returns an empty list of arguments.
    #[tactic(auto, using(crate::proofs::ArgumentTexts::no_texts), unfolding(crate::specs::Attributes::arguments_of, crate::specs::ArgumentKeys::are_keys_distinct))]
    pub(crate) fn new(alloc: Global) -> Self
        ensures { arguments_of result ≡ [] }
    {
        Arguments {
            positional: Vec::new(alloc),
            keyed: Vec::new(alloc),
            texts: BTreeSet::new(alloc),
        }
    }

    /// Whether there are no arguments.
    pub(crate) fn is_empty(&self) -> bool
        ensures { IsTrue result ↔ (arguments_of self.now ≡ []) }
    {
        self.positional.is_empty() && self.keyed.is_empty()
    }

    /// Whether there is one positional argument and no keyword argument.
    pub(crate) fn is_single(&self) -> bool
        ensures { IsTrue result → IsSingle self.now }
    {
        self.positional.len() == 1 && self.keyed.is_empty()
    }

    /// Returns the only argument, which is positional, and its first token.
    #[tactic(auto, using(crate::proofs::GroupAttributes::single_is))]
    pub(crate) fn into_single(self) -> (Token<'src>, Box<Expression<'src>>)
        requires { IsSingle self }
        ensures { arguments_of self.entry ≡ positional_of result ∷ [] }
    {
        let Arguments {
            mut positional,
            keyed: _,
            texts: _,
        } = self;
        positional.remove(0)
    }

    /// Whether there are keyword arguments.
    #[tactic(auto, using(crate::proofs::ArgumentLists::key_counted))]
    pub(crate) fn has_key(&self) -> bool
        ensures { result ≡ reader.some_key (arguments_of self.now) }
    {
        !self.keyed.is_empty()
    }

    /// Whether there is a key with this text.
    #[tactic(auto, using(crate::proofs::ArgumentTexts::text_among))]
    pub(crate) fn has_text(&self, key: &str) -> bool
        ensures { result ≡ is_some (at_key views_leaves key.now (by_key (arguments_of self.now))) }
    {
        is_among(&self.texts, key)
    }

    /// Appends a positional argument.
    #[tactic(auto, using(crate::proofs::ArgumentLists::positional_last))]
    pub(crate) fn push_positional(
        &mut self,
        first: Token<'src>,
        value: Box<Expression<'src>>,
    ) -> Result<(), ExpressionError<'src>>
        requires { reader.some_key (arguments_of self.old) ≡ false }
        ensures { UnlessMemory result (λ done. arguments_of self.new ≡ arguments_of self.old
            ++ tree.Positional first.entry (leaf_tree_of value.entry.value) ∷ []) }
    {
        self.positional.push((first, value))?;
        Ok(())
    }

    /// Appends a keyword argument whose key isn't among the keys yet.
    #[tactic(auto, using(crate::proofs::ArgumentTexts::kept_distinct, crate::proofs::ArgumentTexts::kept_texts))]
    pub(crate) fn push_keyed(
        &mut self,
        key: Name<'src>,
        value: Option<Box<Expression<'src>>>,
    ) -> Result<(), ExpressionError<'src>>
        requires { is_some
            (at_key views_leaves (lexeme_of key.token) (by_key (arguments_of self.old))) ≡ false }
        ensures { UnlessMemory result (λ done. arguments_of self.new ≡ arguments_of self.old
            ++ reader.argument_of_key (Named key.entry.token None)
            (option_map (λ e. leaf_tree_of e.value) value.entry) ∷ []) }
    {
        let count = self.keyed.len();
        match push_key(&mut self.keyed, &mut self.texts, key, value) {
            Ok(()) => Ok(()),
            Err(_failed) => {
                self.keyed.truncate(count);
                Err(ExpressionError::Memory)
            }
        }
    }
}

/// Appends a key with its value to a list, and adds its text to a set.
///
/// # Errors
///
/// `AllocError` if memory runs out.
#[tactic(auto, using(crate::proofs::ArgumentTexts::begins_pushed, crate::proofs::ArgumentTexts::begins_same))]
fn push_key<'src>(
    keyed: &mut Vec<(Name<'src>, Option<Box<Expression<'src>>>)>,
    texts: &mut BTreeSet<&'src str>,
    key: Name<'src>,
    value: Option<Box<Expression<'src>>>,
) -> Result<(), AllocError>
    ensures pushed { OnOk result (keyed.new.items
        ≡ keyed.old.items ++ (key.entry, value.entry) ∷ []) }
    ensures named { OnOk result (HaveSame
        (texts_in texts.old ++ lexeme_of key.entry.token ∷ []) (texts_in texts.new)) }
    ensures kept { OnErr result (texts.new.keys ≡ texts.old.keys) }
    ensures keeps_earlier { take (length keyed.old.items) keyed.new.items ≡ keyed.old.items }
{
    let text = key.lexeme();
    keyed.push((key, value))?;
    add_text(texts, text)
}
