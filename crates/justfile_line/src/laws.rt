//! Laws of orders and equalities. Each is the contract of a function that does nothing.
ghost use Rattle.std.specs.Prelude.{◌≡◌};
ghost use Rattle.justfile_expression.specs.Cases.{IsOrderOf};
ghost use Rattle.justfile_line.specs.Equal.{fragment_eq, line_eq};
ghost use Rattle.justfile_line.specs.Sigil.{sigils_in_order};
ghost use Rattle.justfile_line.specs.contracts.fragment.FragmentPartialEq.TheImpl as fragment_equality;
ghost use Rattle.justfile_line.specs.contracts.line.LinePartialEq.TheImpl as line_equality;
ghost use Rattle.justfile_line.specs.contracts.sigil.SigilOrd.TheImpl as sigil_order;
ghost use Rattle.justfile_line.specs.contracts.sigil.SigilPartialEq.TheImpl as sigil_equality;
ghost use Rattle.justfile_line.specs.declared.fragment.Fragment.{Fragment};
ghost use Rattle.justfile_line.specs.declared.line.Line.{Line};

/// Sigils compare by the declared order of their cases. The order is total and agrees with `==`.
pub fn sigils_ordered()
    ensures { IsOrderOf sigil_equality.eq-value.it sigil_order.cmp-value.it sigils_in_order }
{}

/// Lines of bodies are equal exactly if their fragments and numbers are. Fragments are equal
/// exactly if they are of the same case and have equal expressions or equal tokens, positions
/// included.
pub fn lines_equal()
    ensures fragments { (f g : Fragment) → fragment_equality.eq-value.it f g ≡ fragment_eq f g }
    ensures lines { (l m : Line) → line_equality.eq-value.it l m ≡ line_eq l m }
{}
