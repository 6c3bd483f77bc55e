//! Laws of derivations, of their order, and of the first of them. Each function's contract is the law; the bodies are empty.
ghost use Rattle.ix_tree_laws.specs.Choice.{FirstExists};
ghost use Rattle.ix_tree_laws.specs.Laws.{FirstIsOne, OrderIsAsymmetric, OrderIsTotal, RootIsCall, WidthIsSpan};

/// A tree is as wide as each span that it derives.
pub fn width_is_span()
    ensures { WidthIsSpan }
{}

/// The derivations of a text are the trees that derive it from a call of the first rule.
pub fn root_is_call()
    ensures { RootIsCall }
{}

/// Of two derivations of one term over one span, they are equal or one is before the other.
pub fn order_is_total()
    ensures { OrderIsTotal }
{}

/// No two trees are each before the other.
pub fn order_is_asymmetric()
    ensures { OrderIsAsymmetric }
{}

/// No text has two first derivations.
pub fn first_is_one()
    ensures { FirstIsOne }
{}

/// Where a text has a derivation, one is first, also where it has infinitely many. No two are: `first_is_one`.
pub fn first_exists()
    ensures { FirstExists }
{}
