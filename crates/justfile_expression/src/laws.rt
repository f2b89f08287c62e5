//! Laws of orders and equalities. Each is the contract of a function that does nothing.
ghost use Rattle.std.specs.Prelude.{◌≡◌, ◌↔◌, ◌&&◌, Bool, true};
ghost use Rattle.std.specs.Cmp.{IsTotalOrder};
ghost use Rattle.std.specs.Ordering.{nat_cmp};
ghost use Rattle.std.specs.declared.cmp.Ordering.TheVariants.{Equal};
ghost use Rattle.justfile_token.specs.contracts.compile_error.CompileErrorPartialEq.TheImpl as error_equality;
ghost use Rattle.justfile_token.specs.contracts.compile_error_kind.CompileErrorKindPartialEq.TheImpl as error_kind_equality;
ghost use Rattle.justfile_token.specs.contracts.delimiter.DelimiterPartialEq.TheImpl as bracket_equality;
ghost use Rattle.justfile_token.specs.contracts.modulepath.ModulepathOrd.TheImpl as modulepath_order;
ghost use Rattle.justfile_token.specs.contracts.modulepath.ModulepathPartialEq.TheImpl as modulepath_equality;
ghost use Rattle.justfile_token.specs.contracts.name.NameOrd.TheImpl as name_order;
ghost use Rattle.justfile_token.specs.contracts.name.NamePartialEq.TheImpl as name_equality;
ghost use Rattle.justfile_token.specs.contracts.namepath.NamepathOrd.TheImpl as namepath_order;
ghost use Rattle.justfile_token.specs.contracts.namepath.NamepathPartialEq.TheImpl as namepath_equality;
ghost use Rattle.justfile_token.specs.contracts.string_literal.StringLiteralOrd.TheImpl as literal_order;
ghost use Rattle.justfile_token.specs.contracts.string_literal.StringLiteralPartialEq.TheImpl as literal_equality;
ghost use Rattle.justfile_token.specs.contracts.token.TokenOrd.TheImpl as token_order;
ghost use Rattle.justfile_token.specs.contracts.token.TokenPartialEq.TheImpl as token_equality;
ghost use Rattle.justfile_token.specs.contracts.string_kind.StringDelimiterOrd.TheImpl as delimiter_order;
ghost use Rattle.justfile_token.specs.contracts.string_kind.StringDelimiterPartialEq.TheImpl as delimiter_equality;
ghost use Rattle.justfile_token.specs.contracts.string_kind.StringKindOrd.TheImpl as string_kind_order;
ghost use Rattle.justfile_token.specs.contracts.string_kind.StringKindPartialEq.TheImpl as string_kind_equality;
ghost use Rattle.justfile_token.specs.declared.compile_error.CompileError.{CompileError};
ghost use Rattle.justfile_token.specs.declared.compile_error_kind.CompileErrorKind.{CompileErrorKind};
ghost use Rattle.justfile_token.specs.declared.delimiter.Delimiter.{Delimiter};
ghost use Rattle.justfile_model.specs.Trees.ContentLeaf.{string_kind_cmp};
ghost use Rattle.justfile_model.specs.contracts.conditional_operator.ConditionalOperatorOrd.TheImpl as operator_order;
ghost use Rattle.justfile_model.specs.contracts.conditional_operator.ConditionalOperatorPartialEq.TheImpl as operator_equality;
ghost use Rattle.justfile_model.specs.contracts.parameter_kind.ParameterKindPartialEq.TheImpl as parameter_equality;
ghost use Rattle.justfile_expression.specs.Cases.{IsExact, IsOrderOf, delimiters_in_order, features_in_order, kinds_in_order, operators_in_order, parts_in_order, signals_in_order};
ghost use Rattle.justfile_expression.specs.Content.{content_key, expression_content_cmp};
ghost use Rattle.justfile_expression.specs.Equal.{AreCompared, case_index, delimiter_eq, indentation_eq, switch_eq, token_eq};
ghost use Rattle.justfile_expression.specs.Leaf.{literal_cmp, token_cmp};
ghost use Rattle.justfile_expression.specs.Order.{expression_cmp};
ghost use Rattle.justfile_expression.specs.Orders.{IsOrder, modulepath_cmp, name_cmp, namepath_cmp};
ghost use Rattle.justfile_expression.specs.contracts.list_operator.ListOperatorPartialEq.TheImpl as list_operator_equality;
ghost use Rattle.justfile_expression.specs.contracts.order.ExpressionOrd.TheImpl as expression_order;
ghost use Rattle.justfile_expression.specs.contracts.order.ExpressionPartialEq.TheImpl as expression_equality;
ghost use Rattle.justfile_expression.specs.declared.expression.Expression.{Expression};
ghost use Rattle.justfile_vocabulary.specs.AttributeKind.{attribute_kinds};
ghost use Rattle.justfile_vocabulary.specs.contracts.attribute_kind.AttributeKindOrd.TheImpl as attribute_order;
ghost use Rattle.justfile_vocabulary.specs.contracts.attribute_kind.AttributeKindPartialEq.TheImpl as attribute_equality;
ghost use Rattle.justfile_vocabulary.specs.contracts.byte_class.ByteClassPartialEq.TheImpl as class_equality;
ghost use Rattle.justfile_vocabulary.specs.contracts.format_string_part.FormatStringPartOrd.TheImpl as part_order;
ghost use Rattle.justfile_vocabulary.specs.contracts.format_string_part.FormatStringPartPartialEq.TheImpl as part_equality;
ghost use Rattle.justfile_vocabulary.specs.contracts.indentation.IndentationPartialEq.TheImpl as indentation_equality;
ghost use Rattle.justfile_vocabulary.specs.contracts.item_kind.ItemKindPartialEq.TheImpl as item_equality;
ghost use Rattle.justfile_vocabulary.specs.contracts.keyword.KeywordPartialEq.TheImpl as keyword_equality;
ghost use Rattle.justfile_vocabulary.specs.contracts.list_feature.ListFeaturePartialEq.TheImpl as list_feature_equality;
ghost use Rattle.justfile_numbers.specs.contracts.number.NumberOrd.TheImpl as number_order;
ghost use Rattle.justfile_numbers.specs.contracts.number.NumberPartialEq.TheImpl as number_equality;
ghost use Rattle.justfile_vocabulary.specs.contracts.signal.SignalOrd.TheImpl as signal_order;
ghost use Rattle.justfile_vocabulary.specs.contracts.signal.SignalPartialEq.TheImpl as signal_equality;
ghost use Rattle.justfile_vocabulary.specs.contracts.switch.SwitchPartialEq.TheImpl as switch_equality;
ghost use Rattle.justfile_vocabulary.specs.contracts.token_kind.TokenKindOrd.TheImpl as kind_order;
ghost use Rattle.justfile_vocabulary.specs.contracts.token_kind.TokenKindPartialEq.TheImpl as kind_equality;
ghost use Rattle.justfile_vocabulary.specs.contracts.unstable_feature.UnstableFeatureOrd.TheImpl as feature_order;
ghost use Rattle.justfile_vocabulary.specs.contracts.unstable_feature.UnstableFeaturePartialEq.TheImpl as feature_equality;
ghost use Rattle.justfile_vocabulary.specs.declared.indentation.Indentation.{Indentation};
ghost use Rattle.justfile_vocabulary.specs.declared.switch.Switch.{Switch};

/// Enums without fields compare by the declared order of their cases: kinds of tokens, delimiters
/// and parts of literals, operators, kinds of attributes, signals, and unstable features. The
/// orders are total and agree with `==`.
pub fn cases_ordered()
    ensures kinds { IsOrderOf kind_equality.eq-value.it kind_order.cmp-value.it kinds_in_order }
    ensures delimiters { IsOrderOf delimiter_equality.eq-value.it delimiter_order.cmp-value.it
        delimiters_in_order }
    ensures parts { IsOrderOf part_equality.eq-value.it part_order.cmp-value.it parts_in_order }
    ensures operators { IsOrderOf operator_equality.eq-value.it operator_order.cmp-value.it
        operators_in_order }
    ensures attributes { IsOrderOf attribute_equality.eq-value.it attribute_order.cmp-value.it
        attribute_kinds }
    ensures signals { IsOrderOf signal_equality.eq-value.it signal_order.cmp-value.it
        signals_in_order }
    ensures features { IsOrderOf feature_equality.eq-value.it feature_order.cmp-value.it
        features_in_order }
{}

/// Values of enums without fields and without an order are equal exactly if they are of the same
/// case: classes of bytes, keywords, kinds of items, features that need `set lists`, operators of
/// lists, and kinds of parameters.
pub fn cases_equal()
    ensures classes { IsExact class_equality.eq-value.it }
    ensures keywords { IsExact keyword_equality.eq-value.it }
    ensures items { IsExact item_equality.eq-value.it }
    ensures features { IsExact list_feature_equality.eq-value.it }
    ensures operators { IsExact list_operator_equality.eq-value.it }
    ensures parameters { IsExact parameter_equality.eq-value.it }
{}

/// Indentations, delimiters, and options of recipes are equal exactly if they are of the same case
/// and all their fields are equal.
pub fn words_equal()
    ensures indentations { (i j : Indentation)
        → indentation_equality.eq-value.it i j ≡ indentation_eq i j }
    ensures delimiters { (a b : Delimiter)
        → bracket_equality.eq-value.it a b ≡ delimiter_eq a b }
    ensures switches { (s t : Switch) → switch_equality.eq-value.it s t ≡ switch_eq s t }
{}

/// Errors are equal exactly if their kinds and tokens are. Kinds of errors are equal exactly if
/// they are of the same case and all their fields are equal.
pub fn errors_equal()
    ensures errors { (a b : CompileError) → error_equality.eq-value.it a b
        ≡ (error_kind_equality.eq-value.it a.kind b.kind && token_eq a.token b.token) }
    ensures cases { (a b : CompileErrorKind) → error_kind_equality.eq-value.it a b ≡ true
        → case_index a ≡ case_index b }
    ensures fields { (a b : CompileErrorKind) (equal : Bool) → AreCompared a b equal
        → error_kind_equality.eq-value.it a b ≡ equal }
{}

/// The numbers of bindings and recipes compare as natural numbers.
pub fn numbers_ordered()
    ensures { IsOrder number_equality.eq-value.it number_order.cmp-value.it
        (λ m n. nat_cmp m.0 n.0) }
{}

/// Kinds of literals compare by their delimiters, and then by whether these are tripled: single
/// ones come first.
pub fn string_kinds_ordered()
    ensures { IsOrder string_kind_equality.eq-value.it string_kind_order.cmp-value.it
        string_kind_cmp }
{}

/// Tokens compare by all their fields in declared order, positions included. The order is total and
/// agrees with `==`.
pub fn tokens_ordered()
    ensures { IsOrder token_equality.eq-value.it token_order.cmp-value.it token_cmp }
{}

/// Names compare as their tokens.
pub fn names_ordered()
    ensures { IsOrder name_equality.eq-value.it name_order.cmp-value.it name_cmp }
{}

/// Paths of names compare by their names, from the left.
pub fn namepaths_ordered()
    ensures { IsOrder namepath_equality.eq-value.it namepath_order.cmp-value.it namepath_cmp }
{}

/// Paths of modules compare by the texts of their names, from the left.
pub fn modulepaths_ordered()
    ensures { IsOrder modulepath_equality.eq-value.it modulepath_order.cmp-value.it modulepath_cmp }
{}

/// Literals compare by all their fields in declared order, positions included.
pub fn literals_ordered()
    ensures { IsOrder literal_equality.eq-value.it literal_order.cmp-value.it literal_cmp }
{}

/// Expressions compare by the declared order of their cases, and within a case by its fields in
/// declared order, positions of tokens included.
pub fn expressions_ordered()
    ensures { IsOrder expression_equality.eq-value.it expression_order.cmp-value.it expression_cmp }
{}

/// By content, expressions compare by case and fields, with tokens by kind and lexeme alone and
/// without the numbers of variables. The order is total, and two expressions are equal in it
/// exactly if their contents are equal.
pub fn expression_contents_ordered()
    ensures total { IsTotalOrder expression_content_cmp }
    ensures ties { (a b : Expression)
        → (expression_content_cmp a b ≡ Equal) ↔ (content_key a ≡ content_key b) }
{}
