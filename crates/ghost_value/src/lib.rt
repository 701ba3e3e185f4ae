//! Values that only clauses read.
#![tactic(auto)]

ghost use Rattle.std.specs.Prelude.{◌≡◌};
ghost use base.Fml.{ftrue};

use std::marker::{Model, PhantomData, Send, Sync};

/// How a value for clauses follows from a real one.
pub trait Gives<X, V> {
    /// What it gives of an `X`.
    ghost value: { X → V };
}

/// A `V` that only clauses read. It has no bytes and no effect on what a program does.
///
/// A struct has one as a field to remember what it no longer keeps: the field's `value` says what
/// that was, and an invariant of the struct says what is true of it.
pub struct Ghost<V> {
    marker: PhantomData<V>,
    pub ghost value: { V },
}

impl<V> Model for Ghost<V> {
    ghost also_owns = { λ _. ftrue };
}

impl<V> Ghost<V> {
    /// Returns what `F` gives of a value, which is not read.
    pub fn of<X, F: Gives<X, V>>(x: &X) -> Ghost<V>
        ensures { result.value ≡ F.value x.now }
    {
        let _ = x;
        Ghost {
            marker: PhantomData,
        }
    }
}

impl<V> Drop for Ghost<V> {
    fn drop(self) {
        let Self { marker: _ } = self;
    }
}

// It owns nothing, so it may go to any thread and be shared by all. Both are proved.
unsafe impl<V> Send for Ghost<V> {}

unsafe impl<V> Sync for Ghost<V> {}
