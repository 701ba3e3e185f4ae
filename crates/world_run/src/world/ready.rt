//! Tickets and deposits of ready keys.
ghost use Rattle.std.specs.Prelude.{◌≡◌, ◌⊎◌};
ghost use Rattle.world_run.specs.Acknowledged.{nothing_acknowledged};
ghost use Rattle.world_run.specs.Does.{DepositHappens};
ghost use Rattle.world_run.specs.Step.{GivesTicket, LacksRoom};
ghost use Rattle.world_run.specs.World.{numbered, world_of};

use super::World;
use crate::kept::ticket_numbered;
use hk_base::{VersionName, Words};
use hk_events::Line;
use kms_calls::{KmsRefusal, KmsReply};
use kms_core::{Ticket, draw_sealed};

/// Returns the key version that a ticket is for.
fn version_of(ticket: &Ticket) -> VersionName
    ensures { result ≡ ticket.now.version }
{
    ticket.version
}

impl World {
    /// Asks for a ticket, and keeps it if one is given. Its room is taken first.
    pub(super) fn ticket(&mut self) -> Line
        ensures acts { GivesTicket (world_of self.old) result 0 nothing_acknowledged
            (world_of self.new) ⊎
            LacksRoom (world_of self.old) result 0 nothing_acknowledged (world_of self.new) }
        ensures keys { self.new.keys ≡ self.old.keys }
        ensures names { self.new.names ≡ self.old.names }
    {
        match self.tickets.reserve(1) {
            Err(_) => return Line::Kms(KmsReply::Refused(KmsRefusal::NoMemory)),
            Ok(()) => {}
        }
        match self.keys.ticket() {
            None => Line::NoTicket,
            Some(ticket) => {
                let version = version_of(&ticket);
                let wanted = ticket.wanted;
                self.tickets.push_reserved(ticket);
                let number = self.tickets.as_slice().len() as u64;
                Line::Ticket {
                    number,
                    version,
                    wanted,
                }
            }
        }
    }

    /// Draws a data encryption key, seals it with a kept ticket and deposits it.
    pub(super) fn deposit<W: Words>(&mut self, words: &mut W, number: u32) -> Line
        ensures { DepositHappens self.old (W.to_come words.old)
            (numbered self.old.kept.tickets number) result self.new (W.to_come words.new) }
    {
        let sealed = match ticket_numbered(&self.tickets, number) {
            None => return Line::Unknown,
            Some(ticket) => draw_sealed(words, ticket),
        };
        Line::Deposit(self.keys.deposit(sealed))
    }
}
