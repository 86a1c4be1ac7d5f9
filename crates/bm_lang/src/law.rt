//! Laws of tokens.

ghost use Rattle.bm_lang.specs.Keywords.{KeywordsAreSpelled};
ghost use Rattle.bm_lang.specs.Texts.{PartsAreTokens, PlacesArePlacesAlone, TokensAreLegal};

/// A text of tokens, with a separator before each, has these tokens.
pub fn parts_are_tokens()
    ensures { PartsAreTokens }
{}

/// Where a text begins is told by its tokens' places alone.
pub fn places_are_places_alone()
    ensures { PlacesArePlacesAlone }
{}

/// A reserved word is found by its own spelling and by no other.
pub fn keywords_are_spelled()
    ensures { KeywordsAreSpelled }
{}

/// The names among a text's tokens are words that aren't reserved.
pub fn tokens_are_legal()
    ensures { TokensAreLegal }
{}
