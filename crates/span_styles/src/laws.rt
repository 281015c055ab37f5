//! Laws of styles, each the contract of a function that does nothing.

ghost use Rattle.span_styles.specs.Laws.{SpansMakeTheirLayers, StylesFollowCharacters};

/// Over the change between two visible lists of one text, what is visible in both keeps its style, and no other character has any.
pub fn styles_follow_characters()
    ensures { StylesFollowCharacters }
{}

/// The spans that a layer shows are its longest runs of one style, and they make the layer again.
pub fn spans_make_their_layers()
    ensures { SpansMakeTheirLayers }
{}
