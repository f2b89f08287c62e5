//! Examples of printed headers and constructs, checked by computation.
ghost use Rattle.std.specs.Prelude.{◌≡◌, false, true, [], ◌∷◌, None, Some, codes};
ghost use Rattle.justfile_vocabulary.specs.declared.attribute_kind.AttributeKind.TheVariants.{Private};
ghost use Rattle.justfile_model.specs.Printed.Printing.{content_text, header_text, item_text};
ghost use Rattle.justfile_model.specs.Trees.Tree.{Assignment, Construct, Line, ListOf, Plain, Recipe, Root, StringLiteral, Text, Variable, bare_entry, bare_recipe, commented_entry, more, none};
ghost use Rattle.justfile_model.specs.declared.parameter_kind.ParameterKind.TheVariants.{Plus, Singular, Star};

/// A header has its parameters before the colon and its dependencies after it.
pub fn headers()
    ensures bare { header_text (record {
      quiet = false;
      name = codes "foo";
      parameters = [];
      priors = [];
      subsequents = [];
    }) ≡ codes "foo:" }
    ensures whole { header_text (record {
      quiet = true;
      name = codes "_build";
      parameters = record {
        kind = Singular;
        export = true;
        name = codes "mode";
        default = Some (StringLiteral false (codes "'a'"));
      } ∷ record { kind = Star; export = false; name = codes "args"; default = None } ∷ [];
      priors = record { star = None; path = codes "dep" ∷ []; arguments = [] }
          ∷ record {
            star = Some tt;
            path = codes "x" ∷ [];
            arguments = record {
              star = Some tt;
              value = ListOf tt (more (Variable (codes "a")) (more (Variable (codes "b")) none));
            } ∷ [];
          } ∷ [];
      subsequents = record { star = None; path = codes "z" ∷ codes "y" ∷ []; arguments = [] } ∷ [];
    }) ≡ codes "@_build $mode='a' *args: dep *(x *[a, b]) && z::y" }
    // Arguments are separated by spaces.
    ensures arguments { header_text (record {
      quiet = false;
      name = codes "foo";
      parameters = record { kind = Plus; export = false; name = codes "n"; default = None } ∷ [];
      priors = record {
        star = Some tt;
        path = codes "b" ∷ [];
        arguments = record { star = Some tt; value = Variable (codes "x") }
            ∷ record { star = None; value = Root tt (Variable (codes "y")) } ∷ [];
      } ∷ [];
      subsequents = [];
    }) ≡ codes "foo +n: *(b *x / y)" }
{}

/// The keywords before an assignment, and the doc of a recipe.
pub fn constructs()
    ensures exported { content_text (Assignment (record {
      eager = false;
      export = true;
      name = codes "a";
      value = Variable (codes "b");
    })) [] ≡ codes "export a := b" }
    ensures eager { content_text (Assignment (record {
      eager = true;
      export = true;
      name = codes "a";
      value = Variable (codes "b");
    })) [] ≡ codes "eager export a := b" }
    ensures doc { item_text (Construct [] (Recipe (record {
      doc = Some (codes "bar");
      header = record {
        quiet = false;
        name = codes "foo";
        parameters = [];
        priors = [];
        subsequents = [];
      };
      comment = None;
      body = [];
    }))) [] ≡ codes "# bar\nfoo:" }
    // A doc is printed before the attributes.
    ensures doc_first { item_text (Construct (bare_entry tt (Plain Private) ∷ []) (Recipe (record {
      doc = Some (codes "x");
      header = record {
        quiet = false;
        name = codes "foo";
        parameters = [];
        priors = [];
        subsequents = [];
      };
      comment = None;
      body = [];
    }))) [] ≡ codes "# x\n[private]\nfoo:" }
    // Comments are printed at the ends of the lines of attributes and of the header.
    ensures comments { item_text
        (Construct (commented_entry (codes "# a") (bare_entry tt (Plain Private)) ∷ [])
        (Recipe (bare_recipe (record {
          quiet = false;
          name = codes "foo";
          parameters = [];
          priors = [];
          subsequents = [];
        }) (Some (codes "# b")) (Line tt (Text (codes "x") ∷ []) ∷ [])))) (codes "  ")
        ≡ codes "[private] # a\nfoo: # b\n  x" }
    ensures empty_doc { item_text (Construct [] (Recipe (record {
      doc = Some [];
      header = record {
        quiet = false;
        name = codes "foo";
        parameters = [];
        priors = [];
        subsequents = [];
      };
      comment = None;
      body = [];
    }))) [] ≡ codes "#\nfoo:" }
    ensures no_doc { item_text (Construct [] (Recipe (bare_recipe (record {
      quiet = false;
      name = codes "foo";
      parameters = [];
      priors = [];
      subsequents = [];
    }) None []))) [] ≡ codes "foo:" }
{}
