//! Laws of rows that move. The function does nothing: its contract states the laws.
ghost use Rattle.inode_tree.specs.MoveLaws.{KeepsIds, KeepsRules, MovesAll};

/// States what moving a row to another path does. The row and all rows below it are then found at
/// their new paths, no longer at the old ones, and each other path keeps its row. Each id keeps its
/// row. The rows stay in path order, each path and each id once, with a directory above each.
pub fn rows_move_together()
    ensures moves { MovesAll }
    ensures ids { KeepsIds }
    ensures rules { KeepsRules }
{}
