//! Places of a world.
ghost use Rattle.raw_copy.specs.Copies.{PlacesAreTrees};
ghost use Rattle.world_rows.specs.Rows.{table_of};

use world_run::World;

/// Recalls that the rows of each place of a world are a tree: the directory of the place is there, and
/// the parent of each row is a directory. This holds of a directory as it is, and of each snapshot.
pub fn recall_trees(world: &World)
    ensures { PlacesAreTrees (table_of world.now) }
{
    world.fits();
}
