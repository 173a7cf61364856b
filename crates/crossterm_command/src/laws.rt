//! What holds of the tokens that a terminal reads.
ghost use Rattle.crossterm_command.specs.Tokens.{TokensArePrefixFree, UniqueReading};

/// No spelling of a token begins another one's, so bytes read as tokens in one way at most.
pub fn one_reading()
    ensures apart { TokensArePrefixFree }
    ensures one { UniqueReading }
{}
