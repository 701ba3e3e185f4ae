//! Where a record of the key log has its material.
ghost use Rattle.std.specs.Prelude.{◌≡◌, length};
ghost use Rattle.key_index.specs.Held.{material_in};
ghost use Rattle.key_index.specs.Laws.{CacheStays, HeldMakesTable, IsReadFromLog, PlacedIsOlder, StaysInLog};

use key_rows::KeyCommand;

/// Returns the number of bytes of the material of a command, or 0 if it has none. The material ends the
/// command's record in the key log.
pub fn material_len(command: &KeyCommand) -> usize
    ensures { result ≡ length (material_in command.now) }
{
    match command {
        KeyCommand::Create { material, .. } => material.as_bytes().len(),
        KeyCommand::Roll { material, .. } => material.as_bytes().len(),
        KeyCommand::Opened { .. } => 0,
        KeyCommand::Delete { .. } => 0,
    }
}

/// Laws about the places of materials. The function does nothing: its contract is the laws.
pub fn log_holds_materials()
    ensures added { StaysInLog }
    ensures read { IsReadFromLog }
    ensures table { HeldMakesTable }
    ensures cache { CacheStays }
    ensures older { PlacedIsOlder }
{}
