//! What the definitions of lines and positions mean.
ghost use Rattle.gq_text.specs.Cut.{LinesAreCuts, PositionsLeadBack};
ghost use Rattle.gq_text.specs.Order.{OffsetsNeverFall};

/// The lines of a text are the one way to cut it behind each LF, CRLF and CR.
pub fn lines_are_cuts()
    ensures { LinesAreCuts }
{}

/// In each encoding, the position of a place leads back to it, unless it splits a CRLF.
pub fn positions_lead_back()
    ensures { PositionsLeadBack }
{}

/// In each encoding, the offset of a position never falls as the position rises. So the smaller of the offsets of a
/// range's two ends is that of the end that stands first.
pub fn offsets_never_fall()
    ensures { OffsetsNeverFall }
{}
