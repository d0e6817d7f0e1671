//! What the definitions of frames and keys mean.
ghost use Rattle.std.specs.Prelude.{◌≡◌, ℕ, ◌<◌, not};
ghost use Rattle.percent_encoding.specs.AsciiSet.{contains};
ghost use Rattle.gq_rpc.specs.Cutting.{HasOneCutting, FramesAreCutBack, FaultsStay};
ghost use Rattle.gq_rpc.specs.Keys.{is_unreserved};
ghost use Rattle.gq_rpc.specs.declared.keys.TheConstants.{ESCAPED};

/// A stream is cut into frames in one way.
pub fn streams_have_one_cutting()
    ensures { HasOneCutting }
{}

/// A fault of a stream does not depend on how much of what follows is there.
pub fn faults_stay()
    ensures { FaultsStay }
{}

/// Frames that are written are cut back into their bodies.
pub fn frames_are_cut_back()
    ensures { FramesAreCutBack }
{}

/// Of the ASCII bytes, those that are escaped are the ones that are not unreserved.
pub fn others_are_escaped()
    ensures { (b : ℕ) → b < 128 → contains ESCAPED b ≡ not (is_unreserved b) }
{}
