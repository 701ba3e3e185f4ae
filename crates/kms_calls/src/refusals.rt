//! Refusals as text.
ghost use Rattle.std.specs.Prelude.{◌≡◌, ◌++◌, length, take, OnOk, OnErr};
ghost use Rattle.kms_calls.specs.Refusals.{denied_text, refusal_text, table_text};

use crate::acl::{AclOp, AclTable};
use crate::calls::KmsRefusal;
use hk_base::{ByteList, NoMemory};

impl KmsRefusal {
    /// Appends the text of the refusal: its number, a space and its name; for Denied also the list
    /// and the operation. If allocation fails, `out` is unchanged.
    pub fn write(&self, out: &mut ByteList) -> Result<(), NoMemory>
        ensures ok { OnOk result (out.new ≡ out.old ++ refusal_text self.now) }
        ensures err { OnErr result (out.new ≡ out.old) }
    {
        match self {
            KmsRefusal::BadRequest => out.append(b"K1 BadRequest"),
            KmsRefusal::NoUser => out.append(b"K2 NoUser"),
            KmsRefusal::Denied { table, op } => write_denied(*table, *op, out),
            KmsRefusal::NoSuchKey => out.append(b"K4 NoSuchKey"),
            KmsRefusal::NoSuchVersion => out.append(b"K5 NoSuchVersion"),
            KmsRefusal::KeyExists => out.append(b"K6 KeyExists"),
            KmsRefusal::WrongKey => out.append(b"K7 WrongKey"),
            KmsRefusal::BadMaterial => out.append(b"K8 BadMaterial"),
            KmsRefusal::BadLength => out.append(b"K9 BadLength"),
            KmsRefusal::TooManyKeys => out.append(b"K10 TooManyKeys"),
            KmsRefusal::TooManyVersions => out.append(b"K11 TooManyVersions"),
            KmsRefusal::TooManyAsked => out.append(b"K12 TooManyAsked"),
            KmsRefusal::NoMemory => out.append(b"K13 NoMemory"),
            KmsRefusal::StoreFault => out.append(b"K14 StoreFault"),
        }
    }
}

fn write_denied(table: AclTable, op: AclOp, out: &mut ByteList) -> Result<(), NoMemory>
    ensures ok { OnOk result (out.new ≡ out.old ++ denied_text table op) }
    ensures err { OnErr result (out.new ≡ out.old) }
{
    let len = out.len();
    match append_denied(table, op, out) {
        Ok(()) => Ok(()),
        Err(wanting) => {
            out.truncate(len);
            Err(wanting)
        }
    }
}

/// Appends the text. If allocation fails, a prefix may have been appended.
fn append_denied(table: AclTable, op: AclOp, out: &mut ByteList) -> Result<(), NoMemory>
    ensures ok { OnOk result (out.new ≡ out.old ++ denied_text table op) }
    ensures err { OnErr result (take (length out.old) out.new ≡ out.old) }
{
    out.append(b"K3 Denied ")?;
    out.append(table_name(table).as_bytes())?;
    out.append(b" ")?;
    out.append(op.name().as_bytes())
}

fn table_name(table: AclTable) -> &'static str
    ensures { result.now ≡ table_text table }
{
    match table {
        AclTable::ServiceAcl => "ServiceAcl",
        AclTable::ServiceBlacklist => "ServiceBlacklist",
        AclTable::KeyAcl => "KeyAcl",
        AclTable::DefaultAcl => "DefaultAcl",
        AclTable::NoAcl => "NoAcl",
    }
}
