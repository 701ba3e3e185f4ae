//! The tree of inodes.
ghost use Rattle.std.specs.Prelude.{ℕ, Option, false, ◌≡◌, ◌<◌, ◌≤◌, ◌-◌, ◌++◌, ◌∷◌, [], Some, None, length, slice_index_or, slice_set, take, string_bytes, string_capacity, vec_capacity, vec_len, IsSome, IsOk, IsTrue, OnOk, OnErr, IfOk, if◌then◌else◌};
ghost use Rattle.std.specs.HashMap.{get, spare};
ghost use Rattle.std.specs.Bool.{nat_eq};
ghost use Rattle.std.specs.List.{insert};
ghost use Rattle.std.specs.Option.{option_map};
ghost use Rattle.name_calls.specs.Paths.{is_relative, last_name, parent};
ghost use Rattle.inode_tree.specs.Arena.{HasTreeRoom, IsFree, IsLinked, IsLive, IsNear, IsTree, IsTreeKept, blank, number_of, path_of, rekind, rows_of};
ghost use Rattle.inode_tree.specs.declared.rows.Kind.TheVariants.{Dir, File};
ghost use Rattle.inode_tree.specs.Rows.{IsRows, entry_of, has_children, is_dir, is_dir_at, need, put, root_only, row_at, set_kind, zone_id};

mod by_place;
mod children;
mod lengths;
mod moves;
mod path_bytes;
mod removal;

use crate::climbs::{below, compare};
use crate::hints::{Hints, expect, follow, place, place_near};
use crate::names::{NodeName, copy_of, name_in};
use crate::near::Near;
use crate::nodes::Nodes;
use crate::order::RowOrder;
use crate::rows::{Kind, Node, Row};
use crate::zones::zone_at;
pub use by_place::PlacedRow;
use hk_base::{Edek, KeyName, NoMemory};
use name_calls::NPath;
use std::alloc::Global;
use std::cmp::Ordering;
use std::collections::HashMap;
use std::marker::Model;

/// The maximum number of rows of a tree.
pub const MOST_ROWS: u32 = 1_000_000;

/// The directories and files by path, including the root. In contracts its value is the list of
/// rows in path order, and the room that is kept for one more row. Path order compares paths name
/// by name, and names by their bytes. Each row has an id of its own; the root has id 0.
///
/// A row is found by hints from directories and names to nodes, else in logarithmic time in the number
/// of rows. Making or removing one also moves the rest of a piece of the order, and renumbers the
/// pieces after it. The node of a removed row is used again.
#[derive(Drop)]
pub struct Tree {
    alloc: Global,
    nodes: Nodes,
    order: RowOrder,
    places: HashMap<u64, u32>,
    free: Vec<u32>,
    ready: String,
    hints: Hints,
}

impl Model for Tree {
    ghost use Rattle.std.specs.Prelude.{◌≡◌, ◌&&◌, [], nat_lt, length, suc, if◌then◌else◌};
    ghost use Rattle.std.specs.HashMap.{spare};
    ghost use Rattle.std.specs.String.{string_bytes, string_capacity};
    ghost use Rattle.inode_tree.specs.Arena.{IsTreeKept, rows_of};
    ghost use Rattle.inode_tree.specs.Rows.{TreeState};

    ghost Value = { TreeState };

    ghost view = { λ tree.
        record {
          rows = rows_of tree.nodes.items tree.order.items;
          spare = if nat_lt 0 (length tree.free.items) && nat_lt 0 tree.order.spare &&
              nat_lt 0 (spare tree.places) then suc (string_capacity tree.ready) else 0;
        } };

    ghost invariant = { λ tree. IsTreeKept tree.nodes tree.order tree.places tree.free ×
        (string_bytes tree.ready ≡ []) };
}

impl Tree {
    /// Creates a tree with only the root.
    pub fn new(alloc: Global) -> Result<Tree, NoMemory>
        ensures { IfOk result (λ tree. tree.rows ≡ root_only) }
    {
        let mut nodes = Nodes::new(alloc);
        let mut order = RowOrder::new(alloc);
        let mut places = HashMap::new(alloc);
        let mut free = Vec::new(alloc);
        reserve_root(&mut nodes, &mut order, &mut places, &mut free)?;
        first(&mut nodes, &mut order, &mut places);
        Ok(Tree {
            alloc,
            nodes,
            order,
            places,
            free,
            ready: String::new(alloc),
            hints: Hints::new(alloc),
        })
    }

    /// Returns the number of rows, including the root: at most 1,000,000. The rows are always in
    /// path order, and each path and each id occurs once. The root is always there, with id 0. The
    /// parent of each row is a directory.
    pub fn rows(&self) -> u32
        ensures count { result ≡ length self.now.rows }
        ensures rules { IsRows self.now.rows }
    {
        self.order.len() as u32
    }

    /// Returns the row at a path, or `None` if there is none.
    pub fn find(&self, path: &NPath) -> Option<Row>
        ensures { result ≡ row_at self.now.rows path.now }
    {
        row_upto(&self.nodes, &self.order, &self.hints, path, path.len())
    }

    /// Returns the row at the parent of a path, or `None` if there is none. The root is its own
    /// parent.
    pub fn find_parent(&self, path: &NPath) -> Option<Row>
        ensures { result ≡ row_at self.now.rows (parent path.now) }
    {
        let upto = path.len().saturating_sub(1);
        row_upto(&self.nodes, &self.order, &self.hints, path, upto)
    }

    /// Returns the row with an id, or `None` if there is none.
    pub fn row(&self, id: u64) -> Option<Row>
        ensures { result ≡ option_map (λ e. e.row) (entry_of self.now.rows id) }
    {
        match self.places.get(&id) {
            Some(n) => Some(*self.nodes.row(*n)),
            None => None,
        }
    }

    /// Returns the path of the row with an id, which must exist. Returns `NoMemory` if allocation
    /// fails.
    pub fn path_of(&self, id: u64) -> Result<NPath, NoMemory>
        requires { IsSome (entry_of self.now.rows id) }
        ensures { IfOk result
            (λ path. option_map (λ e. e.path) (entry_of self.now.rows id) ≡ Some path) }
    {
        match self.places.get(&id) {
            Some(n) => build(self.alloc, &self.nodes, *n),
            None => unreachable!(),
        }
    }

    /// Returns whether a row lies directly in the directory at the path.
    pub fn has_children(&self, path: &NPath) -> bool
        ensures { result ≡ has_children self.now.rows path.now }
    {
        match seek(&self.nodes, &self.order, &self.hints, path, path.len()) {
            Some(_) => next_is_below(&self.nodes, &self.order, &self.hints, path),
            None => false,
        }
    }

    /// Returns the id of the zone that the path lies in, or `None` if it lies in none. That is the
    /// deepest directory marked with a key that is the path or lies above it. The path need not
    /// exist.
    pub fn zone_of(&self, path: &NPath) -> Option<u64>
        ensures { result ≡ zone_id self.now.rows path.now }
    {
        zone_at(&self.nodes, &self.order, &self.hints, path, path.len())
    }

    /// Returns the id of the zone that the parent of a path lies in, or `None` if it lies in none.
    /// The root is its own parent.
    pub fn zone_of_parent(&self, path: &NPath) -> Option<u64>
        ensures { result ≡ zone_id self.now.rows (parent path.now) }
    {
        let names = path.len().saturating_sub(1);
        zone_at(&self.nodes, &self.order, &self.hints, path, names)
    }

    /// Notes where the path is or would be, so that the next calls for this path find it faster.
    pub fn focus(&mut self, path: &NPath)
        ensures { self.new ≡ self.old }
    {
        expect(&self.nodes, &self.order, &mut self.hints, path);
    }

    /// Reserves the memory that `mkdir` at this path needs, so that `mkdir` can't fail. Returns
    /// `NoMemory` if allocation fails. The rows are unchanged in either case.
    pub fn reserve_mkdir(&mut self, path: &NPath, _id: u64) -> Result<(), NoMemory>
        ensures same { self.new.rows ≡ self.old.rows }
        ensures ok { OnOk result (need path.now ≤ self.new.spare) }
    {
        make_room(
            &mut self.nodes,
            &mut self.order,
            &mut self.places,
            &mut self.free,
            &mut self.ready,
            last_len(path),
        )
    }

    /// Reserves the memory that `add_file` at this path needs, so that `add_file` can't fail.
    /// Returns `NoMemory` if allocation fails. The rows are unchanged in either case.
    pub fn reserve_add_file(
        &mut self,
        path: &NPath,
        _id: u64,
        _edek: Option<Edek>,
    ) -> Result<(), NoMemory>
        ensures same { self.new.rows ≡ self.old.rows }
        ensures ok { OnOk result (need path.now ≤ self.new.spare) }
    {
        make_room(
            &mut self.nodes,
            &mut self.order,
            &mut self.places,
            &mut self.free,
            &mut self.ready,
            last_len(path),
        )
    }

    /// Adds a directory without a key. Its parent must be a directory, the path and the id must be
    /// free, and the tree must have fewer than `MOST_ROWS` rows. Returns `NoMemory` if allocation
    /// fails; the rows are then unchanged. It can't fail if the memory was reserved.
    pub fn mkdir(&mut self, path: &NPath, id: u64) -> Result<(), NoMemory>
        requires absent { row_at self.old.rows path.now ≡ None }
        requires parent { IsTrue (is_dir_at (row_at self.old.rows (parent path.now))) }
        requires fresh { entry_of self.old.rows id ≡ None }
        requires count { length self.old.rows < 1000000 }
        ensures ok { OnOk result
            (self.new.rows ≡
            put (record { path = path.now; row = record { id = id; kind = Dir None } })
            self.old.rows) }
        ensures err { OnErr result (self.new.rows ≡ self.old.rows) }
        ensures room { need path.now ≤ self.old.spare → IsOk result }
    {
        let kind = Kind::Dir { key: None };
        add(
            self.alloc,
            &mut self.nodes,
            &mut self.order,
            &mut self.places,
            &mut self.free,
            &mut self.ready,
            &mut self.hints,
            path,
            Row { id, kind },
        )
    }

    /// Adds a file, with its encrypted data encryption key if it has one. Its parent must be a
    /// directory, the path and the id must be free, and the tree must have fewer than `MOST_ROWS`
    /// rows. Returns `NoMemory` if allocation fails; the rows are then unchanged. It can't fail if
    /// the memory was reserved.
    pub fn add_file(&mut self, path: &NPath, id: u64, edek: Option<Edek>) -> Result<(), NoMemory>
        requires absent { row_at self.old.rows path.now ≡ None }
        requires parent { IsTrue (is_dir_at (row_at self.old.rows (parent path.now))) }
        requires fresh { entry_of self.old.rows id ≡ None }
        requires count { length self.old.rows < 1000000 }
        ensures ok { OnOk result
            (self.new.rows ≡
            put (record { path = path.now; row = record { id = id; kind = File edek } })
            self.old.rows) }
        ensures err { OnErr result (self.new.rows ≡ self.old.rows) }
        ensures room { need path.now ≤ self.old.spare → IsOk result }
    {
        let kind = Kind::File { edek };
        add(
            self.alloc,
            &mut self.nodes,
            &mut self.order,
            &mut self.places,
            &mut self.free,
            &mut self.ready,
            &mut self.hints,
            path,
            Row { id, kind },
        )
    }

    /// Marks the directory with this id with a key. It does not allocate.
    pub fn set_key(&mut self, id: u64, key: KeyName)
        requires { IsTrue (is_dir_at (option_map (λ e. e.row) (entry_of self.old.rows id))) }
        ensures { self.new.rows ≡ set_kind self.old.rows id (Dir (Some key)) }
    {
        let kind = Kind::Dir { key: Some(key) };
        set(&mut self.nodes, &self.order, &self.places, id, kind);
    }

    /// Gives the file with this id another encrypted key. The id must be that of a file.
    pub fn set_edek(&mut self, id: u64, edek: Edek)
        requires { option_map (λ e. is_dir e.row.kind) (entry_of self.old.rows id) ≡ Some false }
        ensures { self.new.rows ≡ set_kind self.old.rows id (File (Some edek)) }
    {
        let kind = Kind::File { edek: Some(edek) };
        set(&mut self.nodes, &self.order, &self.places, id, kind);
    }
}

/// Returns the number of the row at the first `upto` names of a path.
pub fn seek(
    nodes: &Nodes,
    order: &RowOrder,
    hints: &Hints,
    path: &NPath,
    upto: usize,
) -> Option<u32>
    requires tree { (ids : ℕ → Option ℕ) × IsTree nodes.now.items order.now.items ids }
    requires upto { upto ≤ length path.now }
    ensures { result ≡ number_of nodes.now.items order.now.items (take upto path.now) }
{
    search(
        nodes,
        order,
        hints,
        path,
        upto,
        follow(nodes, order, hints, path, upto),
    )
}

/// Returns the same as `seek`: the near node if it is at the path, else by a search in the order.
pub fn search(
    nodes: &Nodes,
    order: &RowOrder,
    hints: &Hints,
    path: &NPath,
    upto: usize,
    near: Near,
) -> Option<u32>
    requires tree { (ids : ℕ → Option ℕ) × IsTree nodes.now.items order.now.items ids }
    requires upto { upto ≤ length path.now }
    requires near { IsNear nodes.now.items path.now near }
    requires live { IsLive order.now.items near.node }
    ensures { result ≡ number_of nodes.now.items order.now.items (take upto path.now) }
{
    if near.depth == upto {
        return Some(near.node);
    }
    let at = place_near(nodes, order, hints, path, upto, near);
    if at < order.len() {
        let n = order.get(at);
        match compare(nodes, n, path, upto, near) {
            Ordering::Less => None,
            Ordering::Equal => Some(n),
            Ordering::Greater => None,
        }
    } else {
        None
    }
}

/// Returns the row at the first `upto` names of a path.
fn row_upto(
    nodes: &Nodes,
    order: &RowOrder,
    hints: &Hints,
    path: &NPath,
    upto: usize,
) -> Option<Row>
    requires tree { (ids : ℕ → Option ℕ) × IsTree nodes.now.items order.now.items ids }
    requires upto { upto ≤ length path.now }
    ensures { result ≡ row_at (rows_of nodes.now.items order.now.items) (take upto path.now) }
{
    match seek(nodes, order, hints, path, upto) {
        Some(n) => Some(*nodes.row(n)),
        None => None,
    }
}

/// Returns whether the row after that of the path, in path order, lies below the path.
fn next_is_below(nodes: &Nodes, order: &RowOrder, hints: &Hints, path: &NPath) -> bool
    requires tree { (ids : ℕ → Option ℕ) × IsTree nodes.now.items order.now.items ids }
    requires stands { IsSome (number_of nodes.now.items order.now.items path.now) }
    ensures { result ≡ has_children (rows_of nodes.now.items order.now.items) path.now }
{
    let len = order.len();
    let next = place(nodes, order, hints, path, path.len()) + 1;
    if next < len {
        below(nodes, order.get(next), path)
    } else {
        false
    }
}

/// Returns the length in bytes of the last name of a path: 0 for the root.
fn last_len(path: &NPath) -> usize
    ensures { result ≡ length (last_name path.now) }
{
    let len = path.len();
    if len == 0 {
        return 0;
    }
    path.name(len - 1).as_str().len()
}

/// Creates a node that no row has.
fn blank_node() -> Node
    ensures { result ≡ blank }
{
    Node {
        parent: 0,
        name: NodeName::empty(),
        row: Row {
            id: 0,
            kind: Kind::Dir { key: None },
        },
    }
}

/// Makes a free node if there is none.
fn provide(nodes: &mut Nodes, order: &RowOrder, free: &mut Vec<u32>) -> Result<(), NoMemory>
    requires tree { (ids : ℕ → Option ℕ) × IsTree nodes.old.items order.now.items ids }
    requires free { IsFree nodes.old.items order.now.items free.old.items }
    requires capacity { length nodes.old.items ≤ vec_capacity free.old }
    ensures tree { (ids : ℕ → Option ℕ) → IsTree nodes.old.items order.now.items ids →
        IsTree nodes.new.items order.now.items ids }
    ensures free { IsFree nodes.new.items order.now.items free.new.items }
    ensures capacity { length nodes.new.items ≤ vec_capacity free.new }
    ensures rows { rows_of nodes.new.items order.now.items ≡
        rows_of nodes.old.items order.now.items }
    ensures ok { OnOk result (0 < length free.new.items) }
    ensures had { 0 < length free.old.items → IsOk result }
{
    let _ = order;
    if free.len() > 0 {
        return Ok(());
    }
    let n = nodes.len();
    nodes.reserve()?;
    free.reserve(n + 1)?;
    nodes.push_reserved(blank_node());
    free.push_reserved(n as u32);
    Ok(())
}

/// Reserves memory for one more row whose name has `name` bytes. Returns `NoMemory` if allocation
/// fails; the rows are then unchanged.
fn make_room(
    nodes: &mut Nodes,
    order: &mut RowOrder,
    places: &mut HashMap<u64, u32>,
    free: &mut Vec<u32>,
    ready: &mut String,
    name: usize,
) -> Result<(), NoMemory>
    requires kept { IsTreeKept nodes.old order.old places.old free.old }
    requires ready { string_bytes ready.old ≡ [] }
    ensures kept { IsTreeKept nodes.new order.new places.new free.new }
    ensures ready { string_bytes ready.new ≡ [] }
    ensures rows { rows_of nodes.new.items order.new.items ≡
        rows_of nodes.old.items order.old.items }
    ensures places { (q : ℕ) → get nat_eq places.new q ≡ get nat_eq places.old q }
    ensures ok { OnOk result (HasTreeRoom order.new places.new free.new ready.new name) }
    ensures had { HasTreeRoom order.old places.old free.old ready.old name → IsOk result }
{
    provide(nodes, order, free)?;
    order.reserve()?;
    places.reserve(1)?;
    ready.reserve(name)?;
    Ok(())
}

/// Maps an id to its number, in reserved memory.
fn give(places: &mut HashMap<u64, u32>, id: u64, n: u32)
    requires { 0 < spare places.old }
    ensures { (q : ℕ) →
        get nat_eq places.new q ≡ (if nat_eq id q then Some n else get nat_eq places.old q) }
{
    let _ = places.insert(id, n);
}

/// Reserves memory for the root. Returns `NoMemory` if allocation fails.
fn reserve_root(
    nodes: &mut Nodes,
    order: &mut RowOrder,
    places: &mut HashMap<u64, u32>,
    free: &mut Vec<u32>,
) -> Result<(), NoMemory>
    ensures nodes { nodes.new.items ≡ nodes.old.items }
    ensures order { order.new.items ≡ order.old.items }
    ensures places { (q : ℕ) → get nat_eq places.new q ≡ get nat_eq places.old q }
    ensures free { free.new.items ≡ free.old.items }
    ensures ok { OnOk result
        ((0 < nodes.new.spare) × (0 < order.new.spare) × (0 < spare places.new) ×
        (1 ≤ vec_capacity free.new)) }
{
    nodes.reserve()?;
    order.reserve()?;
    places.reserve(1)?;
    free.reserve(1)?;
    Ok(())
}

/// Adds the root, in reserved memory.
fn first(nodes: &mut Nodes, order: &mut RowOrder, places: &mut HashMap<u64, u32>)
    requires nodes { (nodes.old.items ≡ []) × (0 < nodes.old.spare) }
    requires order { (order.old.items ≡ []) × (0 < order.old.spare) }
    requires places { (0 < spare places.old) × ((q : ℕ) → get nat_eq places.old q ≡ None) }
    ensures tree { IsTree nodes.new.items order.new.items (get nat_eq places.new) }
    ensures free { IsFree nodes.new.items order.new.items [] }
    ensures one { length nodes.new.items ≡ 1 }
    ensures rows { rows_of nodes.new.items order.new.items ≡ root_only }
{
    order.insert(0, 0);
    give(places, 0, 0);
    nodes.push_reserved(blank_node());
}

/// Adds a row at the place `at`, in reserved memory. Its node is the last of the free ones.
fn commit(
    nodes: &mut Nodes,
    order: &mut RowOrder,
    places: &mut HashMap<u64, u32>,
    free: &mut Vec<u32>,
    at: usize,
    node: Node,
)
    requires room { (0 < length free.old.items) × (0 < order.old.spare) × (0 < spare places.old) }
    requires below { slice_index_or free.old.items (length free.old.items - 1) 0 <
        length nodes.old.items }
    requires at { at ≤ length order.old.items }
    requires rows { length order.old.items < 1000000 }
    ensures nodes { nodes.new.items ≡
        slice_set nodes.old.items (slice_index_or free.old.items (length free.old.items - 1) 0)
        node }
    ensures order { order.new.items ≡
        insert order.old.items at (slice_index_or free.old.items (length free.old.items - 1) 0) }
    ensures places { (q : ℕ) →
        get nat_eq places.new q ≡
        (if nat_eq node.row.id q
        then Some (slice_index_or free.old.items (length free.old.items - 1) 0)
        else get nat_eq places.old q) }
    ensures free { free.new.items ≡ take (length free.old.items - 1) free.old.items }
    ensures capacity { vec_capacity free.new ≡ vec_capacity free.old }
{
    match free.pop() {
        Some(n) => {
            order.insert(at, n);
            give(places, node.row.id, n);
            nodes.set(n, node);
        }
        None => unreachable!(),
    }
}

/// Adds a row. Returns `NoMemory` if allocation fails; the rows are then unchanged.
fn add(
    alloc: Global,
    nodes: &mut Nodes,
    order: &mut RowOrder,
    places: &mut HashMap<u64, u32>,
    free: &mut Vec<u32>,
    ready: &mut String,
    hints: &mut Hints,
    path: &NPath,
    row: Row,
) -> Result<(), NoMemory>
    requires kept { IsTreeKept nodes.old order.old places.old free.old }
    requires ready { string_bytes ready.old ≡ [] }
    requires absent { row_at (rows_of nodes.old.items order.old.items) path.now ≡ None }
    requires housed { IsTrue
        (is_dir_at (row_at (rows_of nodes.old.items order.old.items) (parent path.now))) }
    requires fresh { get nat_eq places.old row.id ≡ None }
    requires count { length order.old.items < 1000000 }
    ensures kept { IsTreeKept nodes.new order.new places.new free.new }
    ensures ready { string_bytes ready.new ≡ [] }
    ensures ok { OnOk result
        (rows_of nodes.new.items order.new.items ≡
        put (record { path = path.now; row = row }) (rows_of nodes.old.items order.old.items)) }
    ensures err { OnErr result
        (rows_of nodes.new.items order.new.items ≡ rows_of nodes.old.items order.old.items) }
    ensures had { HasTreeRoom order.old places.old free.old ready.old (length (last_name path.now)) →
        IsOk result }
{
    make_room(nodes, order, places, free, ready, last_len(path))?;
    hints.refresh(alloc, nodes);
    put_in(alloc, nodes, order, places, free, ready, hints, path, row);
    Ok(())
}

/// Adds a row, in reserved memory.
fn put_in(
    alloc: Global,
    nodes: &mut Nodes,
    order: &mut RowOrder,
    places: &mut HashMap<u64, u32>,
    free: &mut Vec<u32>,
    ready: &mut String,
    hints: &mut Hints,
    path: &NPath,
    row: Row,
)
    requires kept { IsTreeKept nodes.old order.old places.old free.old }
    requires ready { string_bytes ready.old ≡ [] }
    requires room { HasTreeRoom order.old places.old free.old ready.old (length (last_name path.now)) }
    requires absent { row_at (rows_of nodes.old.items order.old.items) path.now ≡ None }
    requires housed { IsTrue
        (is_dir_at (row_at (rows_of nodes.old.items order.old.items) (parent path.now))) }
    requires fresh { get nat_eq places.old row.id ≡ None }
    requires count { length order.old.items < 1000000 }
    ensures kept { IsTreeKept nodes.new order.new places.new free.new }
    ensures ready { string_bytes ready.new ≡ [] }
    ensures rows { rows_of nodes.new.items order.new.items ≡
        put (record { path = path.now; row = row }) (rows_of nodes.old.items order.old.items) }
{
    let upto = path.len() - 1;
    let near = follow(nodes, order, hints, path, upto);
    let parent = match search(nodes, order, hints, path, upto, near) {
        Some(n) => n,
        None => unreachable!(),
    };
    let at = place_near(nodes, order, hints, path, upto + 1, near);
    let name = name_in(alloc, ready, path.name(upto));
    hints.note(parent, path.name(upto), free[free.len() - 1]);
    hints.set_next(at, near);
    commit(nodes, order, places, free, at, Node { parent, name, row });
}

/// Sets the kind of the row with an id. A directory must stay a directory, and a file a file.
fn set(nodes: &mut Nodes, order: &RowOrder, places: &HashMap<u64, u32>, id: u64, kind: Kind)
    requires tree { IsTree nodes.old.items order.now.items (get nat_eq places.now) }
    requires same { option_map (λ e. is_dir e.row.kind)
        (entry_of (rows_of nodes.old.items order.now.items) id) ≡ Some (is_dir kind) }
    ensures tree { IsTree nodes.new.items order.now.items (get nat_eq places.now) }
    ensures rows { rows_of nodes.new.items order.now.items ≡
        set_kind (rows_of nodes.old.items order.now.items) id kind }
    ensures length { length nodes.new.items ≡ length nodes.old.items }
{
    let _ = order;
    match places.get(&id) {
        Some(n) => nodes.set_kind(*n, kind),
        None => unreachable!(),
    }
}

/// Builds the path of a node.
fn build(alloc: Global, nodes: &Nodes, n: u32) -> Result<NPath, NoMemory>
    requires linked { IsLinked nodes.now.items }
    requires live { n < length nodes.now.items }
    requires rule { IsTrue (is_relative (path_of nodes.now.items n)) }
    ensures { IfOk result (λ path. path ≡ path_of nodes.now.items n) }
{
    if n == 0 {
        return Ok(NPath::root(alloc));
    }
    let link = nodes.link(n);
    let mut path = build(alloc, nodes, link.parent)?;
    extend(alloc, &mut path, &link.name)?;
    Ok(path)
}

/// Appends a copy of a name to a path.
fn extend(alloc: Global, path: &mut NPath, name: &NodeName) -> Result<(), NoMemory>
    requires { IsTrue (is_relative (path.old ++ name.now ∷ [])) }
    ensures { OnOk result (path.new ≡ path.old ++ name.now ∷ []) }
{
    path.push(copy_of(alloc, name)?)
}
