//! A caller of both services.
use hk_base::{KeyName, Text};
use kms_calls::{KmsCall, KmsReply};
use name_calls::{NPath, NameCall, NameReply};
use std::process::Abort;
use std::sync::Wait;
use turns::Turns;

/// A caller with a pass of each service.
pub struct Caller<'a, S: Turns, R> {
    pub rt: &'a R,
    pub shared: &'a S,
    pub keys: S::Keys,
    pub names: S::Names,
}

impl<'a, S: Turns, R> Drop for Caller<'a, S, R> {
    fn drop(self) {
        let Caller {
            rt: _,
            shared: _,
            keys,
            names,
        } = self;
        drop(keys);
        drop(names);
    }
}

pub fn text(rt: &(impl Abort + AllocGlobal), text: &str) -> Text {
    Text::of(String::from_str(rt.alloc(), text).expect(rt, "memory"))
}

pub fn path(rt: &(impl Abort + AllocGlobal), text: &str) -> NPath {
    NPath::read(rt.alloc(), text.as_bytes()).expect(rt, "a path")
}

/// The key of the zone.
pub fn key(rt: &impl Abort) -> KeyName {
    KeyName::read(b"k").expect(rt, "a name")
}

impl<'a, S: Turns, R: Wait + Abort + AllocGlobal> Caller<'a, S, R> {
    /// Returns another caller, which has seen as much.
    pub fn split(&mut self) -> Caller<'a, S, R> {
        Caller {
            rt: self.rt,
            shared: self.shared,
            keys: self.shared.split_keys(self.rt, &mut self.keys),
            names: self.shared.split_names(self.rt, &mut self.names),
        }
    }

    /// Returns its passes.
    pub fn into_passes(self) -> (S::Keys, S::Names) {
        let Caller {
            rt: _,
            shared: _,
            keys,
            names,
        } = self;
        (keys, names)
    }

    /// Makes a call of the user `alice` to the key management service.
    pub fn call_keys(&mut self, call: KmsCall) -> KmsReply {
        let user = text(self.rt, "alice");
        self.shared.call_keys(self.rt, &mut self.keys, user, call)
    }

    /// Makes a call of a user to the namesystem.
    pub fn call_names(&mut self, user: &str, call: NameCall) -> NameReply {
        let user = text(self.rt, user);
        self.shared.call_names(self.rt, &mut self.names, user, call)
    }

    /// Makes a call of a user to the namesystem, which must be done.
    pub fn change_names(&mut self, user: &str, call: NameCall) {
        let reply = self.call_names(user, call);
        let done = matches!(&reply, NameReply::Done);
        drop(reply);
        assert!(self.rt; done);
    }
}
