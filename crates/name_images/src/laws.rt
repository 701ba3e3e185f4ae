//! Laws about images. The functions do nothing: their contracts state the laws.
ghost use Rattle.name_images.specs.Laws.{HasNameImage, LoggedFew, LoggedIds, LoggedSessions, LoggedZones, OneNameTable};

/// An image stands for one table. A table that keeps the rules of images has one.
pub fn an_image_stands_for_one_table()
    ensures one { OneNameTable }
    ensures has { HasNameImage }
{}

/// What the operations of a log keep of the rules of images: how many rows a table has, that their ids
/// and the sessions of statuses are of its openings, and that no zone has two statuses.
pub fn logged_tables_keep_image_rules()
    ensures few { LoggedFew }
    ensures ids { LoggedIds }
    ensures zones { LoggedZones }
    ensures sessions { LoggedSessions }
{}
