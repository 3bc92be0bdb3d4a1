//! What holds of the frames of streams.

ghost use Rattle.homeo_frames.specs.Laws.{OneCut, HasCut, CutsOn};

/// A stream is cut into frames in one way.
pub fn one_cut()
    ensures { OneCut }
{}

/// Every stream is cut.
pub fn has_cut()
    ensures { HasCut }
{}

/// Where more bytes come, the frames that end are those of what hadn't ended with these bytes behind it.
pub fn cuts_go_on()
    ensures { CutsOn }
{}
