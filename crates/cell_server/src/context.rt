//! What connections are served with.
ghost use Rattle.std.specs.Prelude.{◌≡◌, []};
ghost use Rattle.hist_cell.specs.History.{Meets, own};
ghost use Rattle.cell_server.specs.Connections.{EndsServed, serving_by};

use crate::handles::SharedHandle;
use crate::places::Places;
use crate::running::Done;
use cell_desk::serve_cells;
use hk_base::Gate;
use server_parts::{CloseInput, CloseOutput, HangUp};
use std::alloc::Global;
use std::sync::Wait;
use turns::{Notices, Turns};

/// What connections are served with. Their threads share it.
#[derive(Drop)]
pub struct ServeContext<'a, R, S, G, H> {
    pub rt: &'a R,
    pub alloc: Global,
    pub shared: &'a S,
    pub gate: &'a G,
    pub notices: &'a H,
    pub places: &'a Places,
}

impl<'a, R: Wait, S: Turns, G: Gate, H: Notices> ServeContext<'a, R, S, G, H> {
    /// Serves a connection with passes that have made no call, and closes both ends. Its place is given
    /// back before the input is closed, which may take a while. Its handle is dropped after that.
    pub fn serve<I: CloseInput, O: CloseOutput, L: HangUp + Drop>(
        &self,
        input: I,
        out: O,
        handle: SharedHandle<L>,
        keys: S::Keys,
        names: S::Names,
    ) -> Done<I, O, S::Keys, S::Names>
        requires keys { own (S.keys_seen keys).number (S.keys_seen keys).seen ≡ [] }
        requires names { own (S.names_seen names).number (S.names_seen names).seen ≡ [] }
        ensures { EndsServed (serving_by I.Source O.Sink)
            (record {
              input = input;
              out = out;
              keys = S.keys_seen keys;
              names = S.names_seen names;
            })
            result.input result.out (S.keys_seen result.keys) (S.names_seen result.names)
            result.ended }
    {
        let mut input = input;
        let mut out = out;
        let (ended, keys, names) = serve_cells(
            self.rt,
            self.alloc,
            self.shared,
            &mut input,
            &mut out,
            keys,
            names,
            self.gate,
            self.notices,
        );
        out.close_output();
        self.places.give_back(self.rt);
        input.close_input();
        handle.end(self.rt);
        Done {
            input,
            out,
            keys,
            names,
            ended,
        }
    }

    /// Meets both passes of a connection or of workers.
    pub fn meet(
        &self,
        keys: &mut S::Keys,
        names: &mut S::Names,
        their_keys: S::Keys,
        their_names: S::Names,
    )
        ensures keys { Meets (S.keys_seen keys.old) (S.keys_seen their_keys)
            (S.keys_seen keys.new) }
        ensures names { Meets (S.names_seen names.old) (S.names_seen their_names)
            (S.names_seen names.new) }
    {
        self.shared.meet_keys(self.rt, keys, their_keys);
        self.shared.meet_names(self.rt, names, their_names);
    }
}
