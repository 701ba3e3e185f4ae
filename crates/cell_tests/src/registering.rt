//! Threads that register the numbers which they draw.
ghost use Rattle.std.specs.Prelude.{◌≡◌, IfSome};
ghost use Rattle.cell_tests.specs.Registering.{HasRegistered};

use crate::issuer::{Issuer, IssuerCall};
use crate::registry::{Registry, RegistryCall};
use hist_cell::{Cell, Naming, Opened, Pass};
use std::alloc::{AllocError, Global};
use std::marker::Brand;
use std::sync::Wait;
use std::thread::{Threads, join};

/// The cell of a registry.
pub type RegistryCell<M, N> = Cell<Registry<M>, N>;

/// A pass of that cell.
pub type RegistryPass<M, N> = Pass<Registry<M>, N>;

/// A number that was drawn and registered; all are 0 if it was not.
#[derive(Drop)]
pub struct Registered {
    pub number: u64,
    /// How many entries of the issuer the lent pass had seen at first.
    pub lent: u64,
    /// How many of them the registry had seen in the end.
    pub seen: u64,
}

/// Draws a number by a pass that the registry lends, and registers it by the same pass.
pub fn draw_and_register<M: Naming, N: Naming, R: Wait>(
    rt: &R,
    issuer: &Cell<Issuer, M>,
    registry: &RegistryCell<M, N>,
    pass: &mut RegistryPass<M, N>,
) -> Option<Registered>
    ensures { IfSome result (λ r. HasRegistered r.number pass.new.seen) }
{
    let Ok((_, mut with)) = registry.act_lending(rt, pass, issuer, RegistryCall::Count) else {
        return None;
    };
    let lent = with.count();
    let Some(number) = issuer.act(rt, &mut with, IssuerCall::Issue) else {
        drop(with);
        return None;
    };
    let seen = registry.act_meeting(rt, pass, issuer, with, RegistryCall::Register(number));
    Some(Registered { number, lent, seen })
}

/// Draws and registers a number with a pass of one's own, and returns the pass.
fn work<M: Naming, N: Naming, R: Wait>(
    rt: &R,
    issuer: &Cell<Issuer, M>,
    registry: &RegistryCell<M, N>,
    mut pass: RegistryPass<M, N>,
) -> (RegistryPass<M, N>, Registered) {
    let registered = draw_and_register(rt, issuer, registry, &mut pass);
    (pass, or_none(registered))
}

fn or_none(registered: Option<Registered>) -> Registered {
    registered.unwrap_or(Registered {
        number: 0,
        lent: 0,
        seen: 0,
    })
}

/// What two threads registered, and another number after them.
#[derive(Drop)]
pub struct Registrations {
    pub one: Registered,
    pub two: Registered,
    pub last: Registered,
    /// How many numbers are registered.
    pub count: u64,
    /// How many entries of the issuer the kept pass has seen.
    pub seen: u64,
}

/// Draws and registers a number in each of two threads, with passes that are split from this one and met
/// into it again.
fn work_in_two<M: Naming + Send + Sync, N: Naming + Send + Sync, R: Threads + Wait + Sync>(
    rt: &R,
    issuer: &Cell<Issuer, M>,
    registry: &RegistryCell<M, N>,
    mut first: RegistryPass<M, N>,
) -> (RegistryPass<M, N>, Registered, Registered) {
    let second = registry.split(rt, &mut first);
    let ((mut pass, one), (other, two)) = join(
        rt,
        || work(rt, issuer, registry, first),
        || work(rt, issuer, registry, second),
    );
    registry.meet(rt, &mut pass, other);
    (pass, one, two)
}

fn register_in_two<M: Naming + Send + Sync, N: Naming + Send + Sync, R: Threads + Wait + Sync>(
    rt: &R,
    issuer: &Cell<Issuer, M>,
    registry: Opened<Registry<M>>,
) -> (Pass<Issuer, M>, Registrations)
    requires name { registry.table ≡ N.table }
{
    let (registry, pass) = registry.named::<N>();
    let (pass, one, two) = work_in_two(rt, issuer, &registry, pass);
    let (pass, last) = work(rt, issuer, &registry, pass);
    let (kept, count) = registry.close(pass).into_parts();
    let seen = kept.count();
    let registrations = Registrations {
        one,
        two,
        last,
        count,
        seen,
    };
    (kept, registrations)
}

/// Lets two threads draw numbers and register them, and registers another one after them. Returns the
/// issuer and what was registered.
pub fn run_registry<M: Naming + Send + Sync, R: Threads + Wait + Sync>(
    rt: &R,
    alloc: Global,
    issuer: Opened<Issuer>,
) -> Result<(Issuer, Registrations), AllocError>
    requires name { issuer.table ≡ M.table }
{
    let (issuer, kept) = issuer.named::<M>();
    let registry = Opened::new(alloc, Registry::new(kept))?;
    let (kept, registrations) = register_in_two::<M, Brand, R>(rt, &issuer, registry);
    Ok((issuer.close(kept), registrations))
}
