//! The law of the output. The function does nothing; its contract is the law.
ghost use Rattle.twkb_tool.specs.Laws.{OneOutput};

/// Given bytes and a request have at most one text and verdict as their output. So the text that a run puts is determined by
/// the bytes that came in.
pub fn outputs()
    ensures { OneOutput }
{}
