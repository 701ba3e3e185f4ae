//! Laws of the zones of a tree. The function does nothing: its contract states the laws.
ghost use Rattle.zone_table.specs.Laws.{MarkedIsAZone, MovedKeepsItsZone, MovingChangesNothing, RootHasNoZones, UnmarkedChangesNothing};

/// States that the zones of a tree are its marked directories. Adding a row without a mark does not
/// change the zones, and neither does moving rows to another path. If the move is allowed, what moves
/// stays in its zone. A directory without a mark is not a zone, and becomes one when it is marked. A
/// tree with only the root has no zones.
pub fn zones_are_the_marks()
    ensures unmarked { UnmarkedChangesNothing }
    ensures moved { MovingChangesNothing }
    ensures kept { MovedKeepsItsZone }
    ensures marked { MarkedIsAZone }
    ensures root { RootHasNoZones }
{}
