//! Laws about the records of the key log and the images of tables. The functions do nothing: their
//! contracts are the laws.
ghost use Rattle.key_rows.specs.Laws.{ApplyingIsSpelled, EmptyHasImage, ImageStays, OneSpelling, OneTable};

/// Two commands with the same encoding are equal, so a record that is written is decoded as the
/// command that was written. And every command that applies to a table can be encoded.
pub fn commands_have_one_spelling()
    ensures one { OneSpelling }
    ensures applying { ApplyingIsSpelled }
{}

/// An image is of one table. And every table that the commands of a log make has an image.
pub fn images_have_one_table()
    ensures one { OneTable }
    ensures empty { EmptyHasImage }
    ensures stays { ImageStays }
{}
