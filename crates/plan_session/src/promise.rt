//! The theorem about lists of lines. This function does nothing but say it.
ghost use Rattle.plan_session.specs.Claims.{LinesDecide};

/// Turn, history and printed text are decided by the lines.
pub fn lines_decide()
    ensures { LinesDecide }
{}
