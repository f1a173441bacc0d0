//! The law of all runs.

ghost use Rattle.session.specs.Runs.{TranscriptLaw};

/// Whatever the sessions of a run interleave, there is one history, and the replies to each session's
/// events are a transcript over it: what `talk` gives to one session alone, each of several has.
/// The lines are any texts of the events, from any origin.
pub fn transcript_law()
    ensures { TranscriptLaw }
{}
