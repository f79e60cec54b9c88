//! What holds of the tokens of a text (docs/DEFINITIONS.md, "Texts").

ghost use Rattle.mpd_meaning.specs.TokenLaws as law;

/// Each token stands in the text at its place, in the line of that place.
pub fn each_token_has_the_line_of_its_place()
    ensures { law.EachTokenIsPlaced }
{}
