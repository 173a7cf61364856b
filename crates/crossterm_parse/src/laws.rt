//! What holds of the grammar and of the parser.
ghost use Rattle.crossterm_parse.specs.Division.{IsPrefixFree, UniqueDivision, SomeDivision};
ghost use Rattle.crossterm_parse.specs.Grammar.{Whole};
ghost use Rattle.crossterm_parse.specs.View.{AStepAByte, CutsAlike, EmptyDoesNothing, TwoStepsAByte};

/// The law of the grammar: no whole sequence is a proper front of another, so bytes are divided in one way and in no second.
pub fn unique_division()
    ensures closed { IsPrefixFree Whole }
    ensures some { SomeDivision Whole }
    ensures one { UniqueDivision Whole }
{}

/// The law of cuttings: however the same marked bytes are cut into pieces, they give the same events, and an empty piece does nothing.
///
/// Marks belong to the bytes: a cut at a pause isn't a cut after which more bytes follow at once.
pub fn cuttings()
    ensures alike { CutsAlike }
    ensures empty { EmptyDoesNothing }
{}

/// The law of steps: over a list of calls the steps are at most twice the bytes. The list begins with no paste open, as with a new parser,
/// and each call takes its piece whole.
pub fn two_steps_a_byte()
    ensures { TwoStepsAByte }
{}

/// The law of steps from below: over any list of calls the steps are at least the bytes taken. Each call took the whole of its piece or the
/// front of it.
pub fn a_step_a_byte()
    ensures { AStepAByte }
{}
