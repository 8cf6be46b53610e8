// Laws of the tokens, as the contracts of functions that do nothing.

ghost use Rattle.camac_tokens.specs.Broken.{TokenFaultsStand};

/// A text has a token fault exactly where gaps and tokens stand up to a place at which none stands, for the reason that the rule names. The
/// line is 1 plus the line feeds before that place, and what is left are the bytes from there on.
pub fn token_faults_stand()
    ensures { TokenFaultsStand }
{}
