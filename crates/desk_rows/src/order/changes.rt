//! What each effect does to the rows.
ghost use Rattle.desk_rows.specs.order.Changes.{OpeningRowsTell, RowsFollowFacts};

/// The first rows, a configuration and its operator, are those of the opening state.
pub fn opening_rows_tell()
    ensures { OpeningRowsTell }
{}

/// If an effect fits, the rows of the facts with the effect applied are those of the facts after it, whichever effect it is.
pub fn rows_follow_facts()
    ensures { RowsFollowFacts }
{}
