//! Access control lists, prepared for verdicts.
ghost use Rattle.std.specs.Prelude.{◌≡◌, ◌||◌, ◌∷◌, ◌++◌, [], List, None, Bool, true, false, if◌then◌else◌, map, IfOk, OnOk, option_map};
ghost use Rattle.std.specs.List.{list_any};
ghost use Rattle.std.specs.Option.{option_copied, option_or, unwrap_or};
ghost use Rattle.kms_calls.specs.declared.acl.AclTable.TheVariants.{KeyAcl};
ghost use Rattle.kms_calls.specs.declared.acl.AclOp.TheVariants as op;
ghost use Rattle.kms_acls.specs.Lists.{holds, list_of, stands, users_of};
ghost use Rattle.kms_acls.specs.Agreement.{AreListsOf};
ghost use Rattle.kms_acls.specs.Verdict.{default_denial, denied as denied_by, first_denial, key_denial, names_user, service_denial, verdict};
ghost use Rattle.prop_text.specs.declared.lines.PropLine.{PropLine};
ghost use Rattle.prop_text.specs.declared.lines.PropLine.TheVariants as prop;

use crate::answers::{Denied, Shown};
use crate::asked::{Asked, asked_by};
use crate::groups::Groups;
use crate::keys::Keys;
use crate::lists::{AclsByOp, KeyLists};
use crate::members::{Members, set_of};
use hk_base::{KeyName, NoMemory, Text};
use kms_calls::{AclOp, AclTable, KmsCall};
use prop_text::{Acl, PropLine, Props, TextList};
use std::alloc::Global;
use std::marker::Model;

/// The access control lists of the key management service.
#[derive(Drop)]
pub struct Acls {
    services: AclsByOp,
    blacklists: AclsByOp,
    defaults: AclsByOp,
    whitelists: AclsByOp,
    keys: Keys,
    groups: Groups,
}

impl Model for Acls {
    ghost use Rattle.kms_acls.specs.Lists.{Lists};

    ghost Value = { Lists };

    ghost view = { λ a.
        record {
          services = a.services;
          blacklists = a.blacklists;
          defaults = a.defaults;
          whitelists = a.whitelists;
          keys = a.keys;
          groups = a.groups;
        } };
}

fn denied(table: AclTable, op: AclOp) -> Option<Denied>
    ensures { result ≡ denied_by table op }
{
    Some(Denied { table, op })
}

impl Acls {
    /// Creates empty lists. Does not allocate.
    fn new(alloc: Global) -> Acls
        ensures { AreListsOf result [] }
    {
        Acls {
            services: AclsByOp::new(alloc),
            blacklists: AclsByOp::new(alloc),
            defaults: AclsByOp::new(alloc),
            whitelists: AclsByOp::new(alloc),
            keys: Keys::new(alloc),
            groups: Groups::new(alloc),
        }
    }

    /// Adds a list for an operation of the service.
    fn add_service(&mut self, alloc: Global, op: AclOp, acl: &Acl) -> Result<(), NoMemory>
        ensures { OnOk result
            ((lines : List PropLine) → AreListsOf self.old lines →
            AreListsOf self.new (lines ++ prop.Service op acl.now ∷ [])) }
    {
        let members = Members::of(alloc, acl)?;
        self.services.add(op, members)
    }

    /// Adds a blacklist for an operation of the service.
    fn add_blacklist(&mut self, alloc: Global, op: AclOp, acl: &Acl) -> Result<(), NoMemory>
        ensures { OnOk result
            ((lines : List PropLine) → AreListsOf self.old lines →
            AreListsOf self.new (lines ++ prop.Blacklist op acl.now ∷ [])) }
    {
        let members = Members::of(alloc, acl)?;
        self.blacklists.add(op, members)
    }

    /// Adds the default list for an operation on keys.
    fn add_default(&mut self, alloc: Global, op: AclOp, acl: &Acl) -> Result<(), NoMemory>
        ensures { OnOk result
            ((lines : List PropLine) → AreListsOf self.old lines →
            AreListsOf self.new (lines ++ prop.Default op acl.now ∷ [])) }
    {
        let members = Members::of(alloc, acl)?;
        self.defaults.add(op, members)
    }

    /// Adds the whitelist for an operation on keys.
    fn add_whitelist(&mut self, alloc: Global, op: AclOp, acl: &Acl) -> Result<(), NoMemory>
        ensures { OnOk result
            ((lines : List PropLine) → AreListsOf self.old lines →
            AreListsOf self.new (lines ++ prop.Whitelist op acl.now ∷ [])) }
    {
        let members = Members::of(alloc, acl)?;
        self.whitelists.add(op, members)
    }

    /// Adds a list for an operation on a key.
    fn add_key(
        &mut self,
        alloc: Global,
        key: &KeyName,
        op: AclOp,
        acl: &Acl,
    ) -> Result<(), NoMemory>
        ensures { OnOk result
            ((lines : List PropLine) → AreListsOf self.old lines →
            AreListsOf self.new (lines ++ prop.Key key.now op acl.now ∷ [])) }
    {
        let members = Members::of(alloc, acl)?;
        self.keys.add(key.as_bytes(), op, members)
    }

    /// Adds a list for all operations on a key.
    fn add_key_all(&mut self, alloc: Global, key: &KeyName, acl: &Acl) -> Result<(), NoMemory>
        ensures { OnOk result
            ((lines : List PropLine) → AreListsOf self.old lines →
            AreListsOf self.new (lines ++ prop.KeyAll key.now acl.now ∷ [])) }
    {
        let members = Members::of(alloc, acl)?;
        self.keys.add_all(key.as_bytes(), members)
    }

    /// Adds a group.
    fn add_group(&mut self, alloc: Global, group: &Text, users: &TextList) -> Result<(), NoMemory>
        ensures { OnOk result
            ((lines : List PropLine) → AreListsOf self.old lines →
            AreListsOf self.new (lines ++ prop.Group group.now users.now ∷ [])) }
    {
        let users = set_of(alloc, users)?;
        self.groups.add(group.as_str().as_bytes(), users)
    }

    /// Adds the content of a line.
    fn add(&mut self, alloc: Global, line: &PropLine) -> Result<(), NoMemory>
        ensures { OnOk result
            ((lines : List PropLine) → AreListsOf self.old lines →
            AreListsOf self.new (lines ++ line.now ∷ [])) }
    {
        match line {
            PropLine::Service { op, acl } => self.add_service(alloc, *op, acl),
            PropLine::Blacklist { op, acl } => self.add_blacklist(alloc, *op, acl),
            PropLine::Default { op, acl } => self.add_default(alloc, *op, acl),
            PropLine::Whitelist { op, acl } => self.add_whitelist(alloc, *op, acl),
            PropLine::Key { key, op, acl } => self.add_key(alloc, key, *op, acl),
            PropLine::KeyAll { key, acl } => self.add_key_all(alloc, key, acl),
            PropLine::Group { group, users } => self.add_group(alloc, group, users),
            PropLine::QueueSize { .. } => Ok(()),
            PropLine::QueueWatermark { .. } => Ok(()),
            PropLine::BatchSize { .. } => Ok(()),
            PropLine::CacheSize { .. } => Ok(()),
        }
    }

    /// Builds the lists from properties.
    pub fn from_props(alloc: Global, props: &Props) -> Result<Acls, NoMemory>
        ensures { IfOk result (λ acls. AreListsOf acls props.now.lines) }
    {
        let mut acls = Acls::new(alloc);
        for line in props.lines.as_slice() {
            acls.add(alloc, line)?;
        }
        Ok(acls)
    }

    /// Returns whether one of the groups has the user.
    fn in_a_group(&self, user: &[u8], groups: &TextList) -> bool
        ensures { result ≡
            list_any (λ g. names_user user.now (users_of g self.now.groups)) groups.now }
    {
        groups
            .as_slice()
            .iter()
            .any(|group| self.groups.has(group.as_str().as_bytes(), user))
    }

    /// Returns whether the user is in a list.
    fn holds(&self, user: &[u8], members: &Members) -> bool
        ensures { result ≡ holds self.now.groups user.now members.now }
    {
        if members.everybody {
            return true;
        }
        if members.users.has(user) {
            return true;
        }
        self.in_a_group(user, &members.groups)
    }

    /// Returns whether the user is in a list, or `None` if there is no list.
    fn stands_in(&self, user: &[u8], list: Option<&Members>) -> Option<bool>
        ensures { result ≡ option_map (holds self.now.groups user.now) (option_copied list.entry) }
    {
        match list {
            None => None,
            Some(members) => Some(self.holds(user, members)),
        }
    }

    /// Returns the denial of an operation of the service, if the user is denied it.
    fn service_denial(&self, user: &[u8], op: AclOp) -> Option<Denied>
        ensures { result ≡ service_denial (stands self.now user.now) op }
    {
        let allowed = self.stands_in(user, self.services.get(op)).unwrap_or(true);
        let blacklisted = self
            .stands_in(user, self.blacklists.get(op))
            .unwrap_or(false);
        if !allowed {
            return denied(AclTable::ServiceAcl, op);
        }
        if blacklisted {
            return denied(AclTable::ServiceBlacklist, op);
        }
        None
    }

    /// Returns the denial of an operation on a key that has lists of its own, if the user is denied
    /// it.
    fn own_denial(&self, user: &[u8], op: AclOp, lists: &KeyLists) -> Option<Denied>
        ensures { result ≡
            (if
            (unwrap_or
            (option_map (holds self.now.groups user.now) (list_of op lists.now.by_op))
            false ||
            unwrap_or (option_map (holds self.now.groups user.now) lists.now.all) false)
            then None else denied_by KeyAcl op) }
    {
        let in_list = self.stands_in(user, lists.by_op.get(op)).unwrap_or(false);
        let in_all = self.stands_in(user, lists.all.as_ref()).unwrap_or(false);
        if in_list || in_all {
            return None;
        }
        denied(AclTable::KeyAcl, op)
    }

    /// Returns the denial of an operation on a key without lists of its own, if the user is denied
    /// it.
    fn default_denial(&self, user: &[u8], op: AclOp) -> Option<Denied>
        ensures { result ≡ default_denial op ((stands self.now user.now).default op) }
    {
        match self.stands_in(user, self.defaults.get(op)) {
            None => denied(AclTable::NoAcl, op),
            Some(true) => None,
            Some(false) => denied(AclTable::DefaultAcl, op),
        }
    }

    /// Returns the denial of an operation on a key, if the user is denied it.
    fn key_denial(&self, user: &[u8], op: AclOp, key: &KeyName) -> Option<Denied>
        ensures { result ≡ key_denial (stands self.now user.now) op key.now }
    {
        let whitelisted = self
            .stands_in(user, self.whitelists.get(op))
            .unwrap_or(false);
        if whitelisted {
            return None;
        }
        match self.keys.get(key.as_bytes()) {
            Some(lists) => self.own_denial(user, op, lists),
            None => self.default_denial(user, op),
        }
    }

    /// Returns the denial of the operations that a call requests of the service, if the user is
    /// denied one.
    fn denial_by_service(&self, user: &[u8], asked: Asked<'_>) -> Option<Denied>
        ensures { result ≡
            option_or (service_denial (stands self.now user.now) asked.entry.service)
            (if asked.entry.material
            then service_denial (stands self.now user.now) op.SetKeyMaterial else None) }
    {
        if let Some(denied) = self.service_denial(user, asked.service) {
            return Some(denied);
        }
        if asked.material {
            return self.service_denial(user, AclOp::SetKeyMaterial);
        }
        None
    }

    /// Returns the first denial of an operation on the keys, in order, if the user is denied it on
    /// one.
    fn denial_by_keys(&self, user: &[u8], op: AclOp, keys: &[KeyName]) -> Option<Denied>
        ensures { result ≡ first_denial (map (key_denial (stands self.now user.now) op) keys.now) }
    {
        for key in keys {
            if let Some(denied) = self.key_denial(user, op, key) {
                return Some(denied);
            }
        }
        None
    }

    /// Returns the verdict on a call of a user: what may be shown, or the first denial.
    ///
    /// First come the operations that the call requests of the service. For each the user must be
    /// in the operation's list, if there is one, and must not be in its blacklist. Then comes the
    /// operation on each key. The whitelist allows it. A key with lists of its own allows it to
    /// users in the operation's list or in the list for all operations. Other keys allow it to
    /// users in the default list.
    ///
    /// Does not allocate. Takes time logarithmic in the number of lines for each list that is
    /// searched, and linear in the number of the list's groups.
    pub fn verdict(&self, user: &Text, call: &KmsCall) -> Result<Shown, Denied>
        ensures { (lines : List PropLine) → AreListsOf self.now lines →
            result ≡ verdict lines user.now call.now }
    {
        let user = user.as_str().as_bytes();
        let asked = asked_by(call);
        if let Some(denied) = self.denial_by_service(user, asked) {
            return Err(denied);
        }
        if let Some(denied) = self.denial_by_keys(user, asked.on_keys, asked.keys) {
            return Err(denied);
        }
        let material = self.service_denial(user, AclOp::Get).is_none();
        Ok(Shown { material })
    }
}
