//! What the service answers of the materials of keys.
ghost use Rattle.std.specs.Prelude.{◌≡◌, ◌/◌, List, IsErrOf, IsSome, IsTrue, IfOk, IfSome, MatchOption, MatchResult, Some, is_none, length, map, true};
ghost use Rattle.hk_base.specs.Disk.{Tells};
ghost use Rattle.hk_base.specs.Faults.{Rose};
ghost use Rattle.hk_base.specs.declared.names.Edek.{Edek};
ghost use Rattle.kms_calls.specs.declared.calls.RawEdek.{RawEdek};
ghost use Rattle.key_rows.specs.Table.{find_name, material_of};
ghost use Rattle.kms_store.specs.Store.{Applies, HasMaterials, is_older};
ghost use Rattle.kms_core.specs.State.{keys_of};
ghost use Rattle.kms_core.specs.Calls.{all_versions, resealed, row_of, unsealed_dek};
ghost use Rattle.kms_core.specs.Steps.{GivesAnswer, HasKey, ReadsOnly};

use crate::known::{Known, batch_refusal, check, newest};
use crate::service::Service;
use eek_seal::{seal, unseal};
use hk_base::{Dek, Disk, Edek, KeyName, VersionName};
use kms_calls::{EdekList, KeyVersion, KmsCall, KmsRefusal, RawEdek, RawEdekList, VersionList};

impl Service {
    /// Returns the key with this name, or `None` if there is none.
    pub(crate) fn known(&self, name: &KeyName) -> Option<Known>
        ensures key { MatchOption result (is_none (row_of (keys_of self.now) name.now) ≡ true)
            (HasKey (keys_of self.now) name.now) }
        ensures pending { Applies self.now.store.table.keys self.now.store.pending }
    {
        let _ = self.store.opening();
        let row = self.store.find(name)?;
        Some(Known {
            name: row.name,
            birth: row.birth,
            bits: row.bits,
            versions: row.versions,
            current: row.current,
        })
    }

    /// Returns the material of an existing version. Fails only if the disk does while an older one is
    /// read.
    fn material<D: Disk>(
        &mut self,
        disk: &mut D,
        version: &VersionName,
        birth: u64,
    ) -> Result<Dek, KmsRefusal>
        requires exists { IsSome (material_of self.old.store.table.keys.rows version.now) }
        requires birth { IfSome (find_name self.old.store.table.keys.rows version.now.key)
            (λ key. key.birth ≡ birth) }
        requires held { Tells (D.state disk.old) → HasMaterials (D.state disk.old) self.old.store }
        ensures given { IfOk result
            (λ material. (IsTrue (is_older self.old.store.table.keys version.now) →
            Tells (D.state disk.old))
            → material_of self.old.store.table.keys.rows version.now ≡ Some material) }
        ensures length { IfOk result
            (λ material. IfSome (find_name self.old.store.table.keys.rows version.now.key)
            (λ key. length material ≡ key.bits / 8)) }
        ensures fails { (why : KmsRefusal) → IsErrOf result why →
            (why ≡ KmsRefusal.StoreFault) ×
            (IsTrue (is_older self.old.store.table.keys version.now) ×
            Rose (D.state disk.old).faults (D.state disk.new).faults) }
        ensures reads { ReadsOnly (D.state disk.old) (D.state disk.new) self.old self.new }
    {
        let _ = self.store.opening();
        match self.store.material(disk, version, birth) {
            Ok(material) => Ok(material),
            Err(_) => Err(KmsRefusal::StoreFault),
        }
    }

    /// Returns the material of a version, or the refusal.
    pub(crate) fn version_material<D: Disk>(
        &mut self,
        disk: &mut D,
        version: &VersionName,
    ) -> Result<Option<Dek>, KmsRefusal>
        requires held { Tells (D.state disk.old) → HasMaterials (D.state disk.old) self.old.store }
        ensures answer { GivesAnswer (D.state disk.old) (D.state disk.new) (keys_of self.old)
            (KmsCall.Version version.now)
            (material_of self.old.store.table.keys.rows version.now) result }
        ensures some { IfOk result (λ material. IsSome material) }
        ensures reads { ReadsOnly (D.state disk.old) (D.state disk.new) self.old self.new }
    {
        let Some(key) = self.known(&version.key) else {
            return Err(KmsRefusal::NoSuchKey);
        };
        if version.number as u32 >= key.versions {
            return Err(KmsRefusal::NoSuchVersion);
        }
        let material = self.material(disk, version, key.birth)?;
        Ok(Some(material))
    }

    /// Returns all versions of a key with their materials, in order of number, or the refusal.
    pub(crate) fn all_versions<D: Disk>(
        &mut self,
        disk: &mut D,
        name: &KeyName,
    ) -> Result<VersionList, KmsRefusal>
        requires held { Tells (D.state disk.old) → HasMaterials (D.state disk.old) self.old.store }
        ensures answer { GivesAnswer (D.state disk.old) (D.state disk.new) (keys_of self.old)
            (KmsCall.Versions name.now) (all_versions (row_of (keys_of self.old) name.now)) result }
        ensures reads { ReadsOnly (D.state disk.old) (D.state disk.new) self.old self.new }
    {
        let Some(known) = self.known(name) else {
            return Err(KmsRefusal::NoSuchKey);
        };
        self.versions_of(disk, name, &known)
    }

    /// Returns all versions of a key that exists.
    fn versions_of<D: Disk>(
        &mut self,
        disk: &mut D,
        name: &KeyName,
        known: &Known,
    ) -> Result<VersionList, KmsRefusal>
        requires key { HasKey (keys_of self.old) name.now known.now }
        requires pending { Applies self.old.store.table.keys self.old.store.pending }
        requires held { Tells (D.state disk.old) → HasMaterials (D.state disk.old) self.old.store }
        ensures answer { GivesAnswer (D.state disk.old) (D.state disk.new) (keys_of self.old)
            (KmsCall.Versions name.now) (all_versions (row_of (keys_of self.old) name.now)) result }
        ensures reads { ReadsOnly (D.state disk.old) (D.state disk.new) self.old self.new }
    {
        let count = known.versions as u16;
        let mut versions = VersionList::with_room(self.alloc, count as usize)?;
        for number in 0..count {
            let key = known.name;
            let version = VersionName { key, number };
            let material = self.material(disk, &version, known.birth)?;
            versions.push(KeyVersion {
                version,
                material: Some(material),
            })?;
        }
        Ok(versions)
    }

    /// Opens a key that was sent under its version, or returns the refusal.
    pub(crate) fn unsealed<D: Disk>(
        &mut self,
        disk: &mut D,
        name: &KeyName,
        sent: &RawEdek,
    ) -> Result<Dek, KmsRefusal>
        requires held { Tells (D.state disk.old) → HasMaterials (D.state disk.old) self.old.store }
        ensures answer { GivesAnswer (D.state disk.old) (D.state disk.new) (keys_of self.old)
            (KmsCall.Decrypt name.now sent.now) (unsealed_dek (keys_of self.old) sent.now) result }
        ensures reads { ReadsOnly (D.state disk.old) (D.state disk.new) self.old self.new }
    {
        let Some(key) = self.known(name) else {
            return Err(KmsRefusal::NoSuchKey);
        };
        let parts = check(&key, sent)?;
        let material = self.material(disk, &sent.version, key.birth)?;
        Ok(unseal(&material, parts.iv, &parts.sealed))
    }

    /// Seals a key that was sent under the current version, or returns the refusal. A key on the
    /// current version is returned unchanged. The initialization vector never changes.
    pub(crate) fn resealed<D: Disk>(
        &mut self,
        disk: &mut D,
        name: &KeyName,
        sent: &RawEdek,
    ) -> Result<Edek, KmsRefusal>
        requires held { Tells (D.state disk.old) → HasMaterials (D.state disk.old) self.old.store }
        ensures answer { GivesAnswer (D.state disk.old) (D.state disk.new) (keys_of self.old)
            (KmsCall.Reencrypt name.now sent.now) (resealed (keys_of self.old) name.now sent.now)
            result }
        ensures version { IfOk result
            (λ key. key.version ≡ (resealed (keys_of self.old) name.now sent.now).version) }
        ensures reads { ReadsOnly (D.state disk.old) (D.state disk.new) self.old self.new }
    {
        let Some(key) = self.known(name) else {
            return Err(KmsRefusal::NoSuchKey);
        };
        let parts = check(&key, sent)?;
        let current = newest(&key);
        let version = sent.version;
        if version.number == current.version.number {
            return Ok(Edek {
                version,
                iv: parts.iv,
                sealed: parts.sealed,
            });
        }
        let material = self.material(disk, &version, key.birth)?;
        let dek = unseal(&material, parts.iv, &parts.sealed);
        Ok(Edek {
            version: current.version,
            iv: parts.iv,
            sealed: seal(&current.material, parts.iv, &dek),
        })
    }

    /// Seals the keys that were sent under the current version, in the order sent, or returns the
    /// refusal.
    pub(crate) fn reseal_all<D: Disk>(
        &mut self,
        disk: &mut D,
        name: &KeyName,
        sent: &[RawEdek],
    ) -> Result<EdekList, KmsRefusal>
        requires held { Tells (D.state disk.old) → HasMaterials (D.state disk.old) self.old.store }
        ensures answer { GivesAnswer (D.state disk.old) (D.state disk.new) (keys_of self.old)
            (KmsCall.Batch name.now sent.now) (map (resealed (keys_of self.old) name.now) sent.now)
            result }
        // Whatever the disk tells, the keys are of the right versions.
        ensures versions { IfOk result
            (λ keys. map (λ (key : Edek). key.version) keys ≡
            map (λ (one : RawEdek). (resealed (keys_of self.old) name.now one).version) sent.now) }
        ensures reads { ReadsOnly (D.state disk.old) (D.state disk.new) self.old self.new }
    {
        let Some(key) = self.known(name) else {
            return Err(KmsRefusal::NoSuchKey);
        };
        if let Some(why) = batch_refusal(&key, sent) {
            return Err(why);
        }
        let mut keys = EdekList::with_room(self.alloc, sent.len())?;
        for edek in sent {
            let key = self.resealed(disk, name, edek)?;
            keys.push(key)?;
        }
        Ok(keys)
    }
}
