//! The law that connects tables with the events that they recorded.

ghost use Rattle.pb_fdb.specs.Laws.{TablesTellWhatStands};

/// Shows that after any calls, whatever `learn` returned, the live entries of a table are the sightings in force by
/// the recorded events.
pub fn tables_tell_what_stands()
    ensures { TablesTellWhatStands }
{}
