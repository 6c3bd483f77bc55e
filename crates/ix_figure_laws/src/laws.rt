//! Laws of figures. Each function's contract is the law; the bodies are empty.
ghost use Rattle.ix_figure_laws.specs.Laws.{CountsAreOne, FiguresAreOne, FiguresAreThere};

/// No plan has two figures.
pub fn counts_are_one()
    ensures { CountsAreOne }
{}

/// No text has two figures under a grammar, whichever of its plans they are counted in.
pub fn figures_are_one()
    ensures { FiguresAreOne }
{}

/// Each plan has figures.
pub fn figures_are_there()
    ensures { FiguresAreThere }
{}
