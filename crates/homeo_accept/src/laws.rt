//! What holds of accepted and of refused texts.

ghost use Rattle.homeo_accept.specs.Laws.{NotBoth};

/// No text is both accepted and refused for one purpose.
pub fn accepted_texts_are_not_refused()
    ensures { NotBoth }
{}
