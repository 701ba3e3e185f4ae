//! State machines that keep a pass of another cell.
ghost use Rattle.std.specs.Prelude.{◌≡◌, List, IfOk};
ghost use mathlib.Core.List.{IsPrefix};
ghost use Rattle.hist_cell.specs.declared.views.Entry.{Entry as AnEntry};
ghost use Rattle.hist_cell.specs.History.{Legal, state_after};

use crate::cores::Core;
use std::alloc::AllocError;
use std::sync::Wait;

/// A core that keeps a pass of another cell. What the kept pass has seen of the other history is then
/// part of the state that each entry shows.
///
/// A call that uses a reply of the other cell takes the pass by which the caller got that reply, and the
/// core meets it into the kept one. So the entry shows a history of the other cell that has the reply.
/// Without the pass the core would have only the caller's word for it.
///
/// For example, one cell issues numbers and another one registers them. The call `Register(n)` needs a
/// pass that has seen that `n` was issued, and afterwards the kept pass has seen it too:
///
/// ```text
/// let (_, mut lent) = registry.act_lending(rt, &mut pass, &issuer, RegistryCall::Count)?;
/// let n = issuer.act(rt, &mut lent, IssuerCall::Issue);
/// registry.act_meeting(rt, &mut pass, &issuer, lent, RegistryCall::Register(n));
/// ```
pub trait Holds: Core {
    /// The other cell.
    type OtherCell;

    /// A pass of the other cell.
    type OtherPass;

    /// Which pass a call needs, made by a caller that has seen this history.
    ghost needs: { List (AnEntry Self.Call Self.Reply Self) → Self.Call → Self.OtherPass → Type 0 };

    /// Which pass a call needs in this state.
    ghost suits: { Self → Self.Call → Self.OtherPass → Type 0 };

    /// What `take_in` does to the state.
    ghost takes: { Self → Self.OtherPass → Self → Type 0 };

    /// Which pass `lend` returns.
    ghost lends: { Self → Self.OtherPass → Type 0 };

    /// Meets the pass into the kept one. It may wait for the other cell.
    fn take_in<R: Wait>(&mut self, rt: &R, other: &Self::OtherCell, with: Self::OtherPass)
        ensures { takes self.old with self.new };

    /// Splits a pass from the kept one. It may wait for the other cell.
    fn lend<R: Wait>(
        &mut self,
        rt: &R,
        other: &Self::OtherCell,
    ) -> Result<Self::OtherPass, AllocError>
        ensures same { self.new ≡ self.old }
        ensures lent { IfOk result (λ w. lends self.old w) };

    /// A pass that a call needs after a history, it needs after each longer one.
    ghost needs_grow: { (es fs : List (AnEntry Self.Call Self.Reply Self)) (q : Self.Call)
        (w : Self.OtherPass) → IsPrefix es fs → needs es q w → needs fs q w };

    /// A pass that a call needs after a legal history suits it in the state after that history.
    ghost needs_fit: { (s : Self) (es : List (AnEntry Self.Call Self.Reply Self)) (q : Self.Call)
        (w : Self.OtherPass) → Self.sound s → Legal Self.step Self.allows s es → needs es q w →
        suits (state_after s es) q w };

    /// A call that a state can answer can still be answered once a pass was taken in.
    ghost still_can: { (s m : Self) (w : Self.OtherPass) (q : Self.Call) → takes s w m →
        Self.can s q → Self.can m q };

    /// Taking in a pass that suits the call, and then answering the call, is one step.
    ghost meeting: { (s m t : Self) (w : Self.OtherPass) (q : Self.Call) (r : Self.Reply) →
        suits s q w → takes s w m → Self.acts m q r t → Self.step s q r t };
}

/// Meets a pass into the kept one, and answers the call.
pub fn answer_meeting<C: Holds, R: Wait>(
    rt: &R,
    core: &mut C,
    other: &C::OtherCell,
    with: C::OtherPass,
    call: C::Call,
) -> C::Reply
    requires can { C.can core.old call }
    requires suits { C.suits core.old call with }
    ensures step { C.step core.old call result core.new }
    ensures meets { (met : C) × C.takes core.old with met × C.acts met call result core.new }
{
    core.take_in(rt, other, with);
    core.act(call)
}
