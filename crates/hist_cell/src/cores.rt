//! State machines that a cell can hold.
ghost use Rattle.std.specs.Prelude.{List};
ghost use mathlib.Core.List.{IsPrefix};
ghost use Rattle.hist_cell.specs.declared.views.Entry.{Entry as AnEntry};
ghost use Rattle.hist_cell.specs.History.{Legal, state_after};

/// A state machine whose calls are entries of one history.
pub trait Core {
    type Call: Drop;

    type Reply;

    /// What an entry of the history does to the state.
    ghost step: { Self → Self.Call → Self.Reply → Self → Type 0 };

    /// What `act` does to the state, and its reply. If each call is answered without a pass of another
    /// cell, this is `step`.
    ghost acts: { Self → Self.Call → Self.Reply → Self → Type 0 };

    /// Which calls may follow a history.
    ghost allows: { List (AnEntry Self.Call Self.Reply Self) → Self.Call → Type 0 };

    /// What a call needs of the state.
    ghost can: { Self → Self.Call → Type 0 };

    /// Which calls need no pass of another cell.
    ghost alone: { Self.Call → Type 0 };

    /// The states that a history may begin with.
    ghost sound: { Self → Type 0 };

    /// Answers a call.
    fn act(&mut self, call: Self::Call) -> Self::Reply
        requires { can self.old call }
        ensures { acts self.old call result self.new };

    /// What a history allows, each longer one allows too.
    ghost grows: { (es fs : List (AnEntry Self.Call Self.Reply Self)) (q : Self.Call) →
        IsPrefix es fs → allows es q → allows fs q };

    /// A legal history that allows a call ends in a state that can answer it.
    ghost fits: { (s : Self) (es : List (AnEntry Self.Call Self.Reply Self)) (q : Self.Call) →
        sound s → Legal step allows s es → allows es q → can (state_after s es) q };

    /// What `act` does for a call that needs no pass of another cell is a step.
    ghost plain: { (s t : Self) (q : Self.Call) (r : Self.Reply) → can s q → alone q →
        acts s q r t → step s q r t };
}

/// Answers a call that needs no pass of another cell.
pub fn answer<C: Core>(core: &mut C, call: C::Call) -> C::Reply
    requires can { C.can core.old call }
    requires alone { C.alone call }
    ensures { C.step core.old call result core.new }
{
    core.act(call)
}
