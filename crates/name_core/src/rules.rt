//! Why calls are refused, from the rows of a tree, its snapshots and the statuses of its zones.
ghost use Rattle.std.specs.Prelude.{◌≡◌, ◌++◌, ℕ, IfOk, List, Option, is_some, true};
ghost use Rattle.name_calls.specs.Paths.{starts_reserved};
ghost use Rattle.zone_table.specs.declared.statuses.StatusRow.{StatusRow};
ghost use Rattle.name_store.specs.Causes.{first_cause, id_at};
ghost use Rattle.name_core.specs.Asks.{finish_causes, finish_op, is_other_key, is_other_zone, noted_of, path_asked, wanted, wanted_under};
ghost use Rattle.name_core.specs.Calls.{delete_causes, early_causes, ids_used, is_superuser, name_causes, path_causes, read_path_causes, superuser, superuser_causes};
ghost use Rattle.name_core.specs.Service.{is_change};
ghost use Rattle.name_core.specs.Steps.{HasWanted};

use crate::asks::OpenAsk;
use edit_ops::EditOp;
use hk_base::{Edek, KeyName, NoMemory, Text, VersionName};
use inode_tree::Tree;
use name_calls::{Ask, NPath, NameCall, NameRefusal, ReadPath, Want, is_component};
use name_store::{
    fits_zone, has_most_rows, key_of_zone, make_refusal, new_zone_refusal, removal_refusal,
    zone_root_refusal,
};
use snap_store::Snaps;
use std::alloc::Global;
use zone_table::Statuses;

/// Returns whether the first name of a path is `.reserved`.
fn is_reserved(path: &NPath) -> bool
    ensures { result ≡ starts_reserved path.now }
{
    if path.is_root() {
        return false;
    }
    path.name(0).as_str().as_bytes() == b".reserved".as_slice()
}

/// Returns why every call on a path is refused: its first name is `.reserved`.
pub fn path_refusal(path: &NPath) -> Option<NameRefusal>
    ensures { result ≡ first_cause (path_causes path.now) }
{
    if is_reserved(path) {
        return Some(NameRefusal::BadPath);
    }
    None
}

/// Returns why a call with a name of a snapshot is refused: the name can't be a name of a path.
fn name_refusal(name: &Text) -> Option<NameRefusal>
    ensures { result ≡ first_cause (name_causes name.now) }
{
    if !is_component(name.as_str().as_bytes()) {
        return Some(NameRefusal::BadPath);
    }
    None
}

/// Returns the superuser, who makes the calls that the namesystem wants. Returns `NoMemory` if
/// allocation fails.
pub fn superuser(alloc: Global) -> Result<Text, NoMemory>
    ensures { IfOk result (λ user. user ≡ superuser) }
{
    Ok(Text::of(String::from_str(alloc, "hdfs")?))
}

/// Returns why each call that only the superuser may make is refused.
fn superuser_refusal(user: &Text) -> Option<NameRefusal>
    ensures { result ≡ first_cause (superuser_causes user.now) }
{
    if !is_superuser(user) {
        return Some(NameRefusal::NotSuperuser);
    }
    None
}

/// Returns why a call is refused before the pending operation is settled.
pub fn early_refusal(user: &Text, call: &NameCall) -> Option<NameRefusal>
    ensures { result ≡ first_cause (early_causes user.now call.now) }
{
    match call {
        NameCall::Mkdir { path } => path_refusal(path),
        NameCall::Delete { path, .. } => path_refusal(path),
        NameCall::Rename { path, to } => both_paths_refusal(path, to),
        NameCall::Info { path } => read_path_refusal(path),
        NameCall::List { path } => read_path_refusal(path),
        NameCall::Allow { path } => directory_call_refusal(user, path),
        NameCall::Disallow { path } => directory_call_refusal(user, path),
        NameCall::Snap { path, name } => snapshot_path_refusal(path, name),
        NameCall::Unsnap { path, name } => snapshot_path_refusal(path, name),
        NameCall::Cancel { path } => directory_call_refusal(user, path),
        NameCall::Status { path } => directory_call_refusal(user, path),
        NameCall::Zones => superuser_refusal(user),
    }
}

fn read_path_refusal(path: &ReadPath) -> Option<NameRefusal>
    ensures { result ≡ first_cause (read_path_causes path.now) }
{
    if let Some(why) = path_refusal(&path.path) {
        return Some(why);
    }
    match &path.snapshot {
        None => None,
        Some(part) => name_refusal(&part.name),
    }
}

fn both_paths_refusal(path: &NPath, to: &NPath) -> Option<NameRefusal>
    ensures { result ≡ first_cause (path_causes path.now ++ path_causes to.now) }
{
    if let Some(why) = path_refusal(path) {
        return Some(why);
    }
    path_refusal(to)
}

fn directory_call_refusal(user: &Text, path: &NPath) -> Option<NameRefusal>
    ensures { result ≡ first_cause (path_causes path.now ++ superuser_causes user.now) }
{
    if let Some(why) = path_refusal(path) {
        return Some(why);
    }
    superuser_refusal(user)
}

fn snapshot_path_refusal(path: &NPath, name: &Text) -> Option<NameRefusal>
    ensures { result ≡ first_cause (path_causes path.now ++ name_causes name.now) }
{
    if let Some(why) = path_refusal(path) {
        return Some(why);
    }
    name_refusal(name)
}

/// Returns whether a call changes something, if it is not refused.
pub fn is_change(call: &NameCall) -> bool
    ensures { result ≡ is_change call.now }
{
    match call {
        NameCall::Info { .. } => false,
        NameCall::List { .. } => false,
        NameCall::Status { .. } => false,
        NameCall::Zones => false,
        _ => true,
    }
}

/// Returns how many ids a change uses.
pub fn ids_used(call: &NameCall) -> u64
    ensures { result ≡ ids_used call.now }
{
    match call {
        NameCall::Mkdir { .. } => 1,
        _ => 0,
    }
}

/// Returns why a path can not be deleted: it must exist and not be the root, a directory must be
/// empty unless its contents are deleted too, and there must be no snapshot of a directory at or
/// below the path.
pub fn delete_refusal(
    tree: &Tree,
    snaps: &Snaps,
    path: &NPath,
    recursive: bool,
) -> Option<NameRefusal>
    ensures { result ≡
        first_cause (delete_causes tree.now.rows snaps.now.table path.now recursive) }
{
    if let Some(why) = removal_refusal(tree, path) {
        return Some(why);
    }
    if !recursive && tree.has_children(path) {
        return Some(NameRefusal::NotEmpty);
    }
    if snaps.holds(tree, path) {
        return Some(NameRefusal::HasSnapshots);
    }
    None
}

/// Returns whether the user is the superuser, who alone makes zones and asks for them.
pub fn is_superuser(user: &Text) -> bool
    ensures { result ≡ is_superuser user.now }
{
    user.as_str().as_bytes() == b"hdfs".as_slice()
}

/// Returns the id of the row at a path, or 0 if there is none.
pub fn id_at(tree: &Tree, path: &NPath) -> u64
    ensures { result ≡ id_at tree.now.rows path.now }
{
    match tree.find(path) {
        None => 0,
        Some(row) => row.id,
    }
}

/// Returns the path of an ask.
pub fn path_asked(ask: &Ask) -> &NPath
    ensures { result.now ≡ path_asked ask.now }
{
    match ask {
        Ask::Create { path } => path,
        Ask::Zone { path, .. } => path,
        Ask::Submit { path } => path,
    }
}

/// Returns the call of the key management service that an ask wants.
pub fn wanted(tree: &Tree, ask: &Ask) -> Want
    ensures { result ≡ wanted tree.now.rows ask.now }
{
    match ask {
        Ask::Create { path } => wanted_under(key_of_zone(tree, path)),
        Ask::Zone { key, .. } => Want::Metadata(*key),
        Ask::Submit { path } => wanted_under(key_of_zone(tree, path)),
    }
}

/// Returns the call that an ask wants in a zone of this key, or outside all zones.
fn wanted_under(key: Option<KeyName>) -> Want
    ensures { result ≡ wanted_under key }
{
    match key {
        None => Want::Nothing,
        Some(key) => Want::Generate(key),
    }
}

/// Returns whether the path of an ask lies in another zone than when the ask was made.
fn is_other_zone(tree: &Tree, ask: &OpenAsk) -> bool
    ensures { result ≡ is_other_zone tree.now.rows ask.now }
{
    tree.zone_of(path_asked(&ask.ask)) != ask.zone
}

/// Returns whether the encrypted key is not one of the zone's key, is missing, or was given without
/// a key of a zone.
fn is_other_key(tree: &Tree, path: &NPath, edek: &Option<Edek>) -> bool
    ensures { result ≡ is_other_key tree.now.rows path.now edek.now }
{
    !fits_zone(&key_of_zone(tree, path), edek)
}

/// Returns why an ask can not be finished. Everything is checked again, except who asked.
pub fn finish_cause(
    tree: &Tree,
    statuses: &Statuses,
    ask: &OpenAsk,
    edek: &Option<Edek>,
) -> Option<NameRefusal>
    ensures { result ≡
        first_cause (finish_causes tree.now.rows statuses.now.rows ask.now edek.now ask.now.ask) }
{
    match &ask.ask {
        Ask::Create { path } => file_refusal(tree, ask, edek, path),
        Ask::Zone { path, .. } => zone_refusal(tree, ask, path),
        Ask::Submit { path } => submission_refusal(tree, statuses, ask, edek, path),
    }
}

fn file_refusal(
    tree: &Tree,
    ask: &OpenAsk,
    edek: &Option<Edek>,
    path: &NPath,
) -> Option<NameRefusal>
    ensures { (statuses : List StatusRow) →
        result ≡
        first_cause (finish_causes tree.now.rows statuses ask.now edek.now (Ask.Create path.now)) }
{
    if let Some(why) = path_refusal(path) {
        return Some(why);
    }
    if let Some(why) = make_refusal(tree, path) {
        return Some(why);
    }
    if is_other_zone(tree, ask) {
        return Some(NameRefusal::ZoneChanged);
    }
    if is_other_key(tree, path, edek) {
        return Some(NameRefusal::ZoneChanged);
    }
    if has_most_rows(tree) {
        return Some(NameRefusal::TooManyInodes);
    }
    None
}

fn zone_refusal(tree: &Tree, ask: &OpenAsk, path: &NPath) -> Option<NameRefusal>
    ensures { (statuses : List StatusRow) (edek : Option Edek) (key : KeyName) →
        result ≡
        first_cause (finish_causes tree.now.rows statuses ask.now edek (Ask.Zone path.now key)) }
{
    if let Some(why) = path_refusal(path) {
        return Some(why);
    }
    if let Some(why) = new_zone_refusal(tree, path) {
        return Some(why);
    }
    if is_other_zone(tree, ask) {
        return Some(NameRefusal::ZoneChanged);
    }
    None
}

fn submission_refusal(
    tree: &Tree,
    statuses: &Statuses,
    ask: &OpenAsk,
    edek: &Option<Edek>,
    path: &NPath,
) -> Option<NameRefusal>
    ensures { result ≡
        first_cause
        (finish_causes tree.now.rows statuses.now.rows ask.now edek.now (Ask.Submit path.now)) }
{
    if let Some(why) = path_refusal(path) {
        return Some(why);
    }
    if let Some(why) = zone_root_refusal(tree, path) {
        return Some(why);
    }
    if is_other_zone(tree, ask) {
        return Some(NameRefusal::ZoneChanged);
    }
    if is_other_key(tree, path, edek) {
        return Some(NameRefusal::ZoneChanged);
    }
    if statuses.zone_goes_on(id_at(tree, path)) {
        return Some(NameRefusal::AlreadySubmitted);
    }
    None
}

/// Returns the version of the encrypted key that a submission was given.
fn noted_of(edek: &Option<Edek>) -> VersionName
    requires { is_some edek.now ≡ true }
    ensures { result ≡ noted_of edek.now }
{
    match edek {
        None => unreachable!(),
        Some(edek) => edek.version,
    }
}

/// Returns the operation that finishes an ask: it makes the file, marks the directory of the zone,
/// or begins the re-encryption of the zone.
pub fn finish_op(alloc: Global, ask: &OpenAsk, edek: Option<Edek>) -> Result<EditOp, NoMemory>
    requires { HasWanted ask.now.ask edek }
    ensures { IfOk result (λ op. op ≡ finish_op ask.now.id edek ask.now.ask) }
{
    match &ask.ask {
        Ask::Create { path } => Ok(EditOp::File {
            id: ask.id,
            path: path.copy(alloc)?,
            edek,
        }),
        Ask::Zone { path, key } => Ok(EditOp::Zone {
            path: path.copy(alloc)?,
            key: *key,
        }),
        Ask::Submit { path } => Ok(EditOp::Submit {
            session: ask.id,
            path: path.copy(alloc)?,
            noted: noted_of(&edek),
        }),
    }
}
