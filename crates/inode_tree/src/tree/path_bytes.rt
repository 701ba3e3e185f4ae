//! Paths of rows as bytes, in memory of the caller.
ghost use Rattle.std.specs.Prelude.{◌≡◌, ◌<◌, ◌≤◌, ◌+◌, ◌++◌, ◌∷◌, Some, length, drop, slice_get, vec_capacity, vec_len, IsTrue, OnOk, OnErr};
ghost use Rattle.inode_tree.specs.Arena.{IsLinked, path_of};
ghost use Rattle.inode_tree.specs.Rows.{Entry};
ghost use Rattle.inode_tree.specs.Written.{last_bytes, path_bytes};
ghost use Rattle.name_calls.specs.Paths.{is_relative};

use super::Tree;
use crate::climbs::depth;
use crate::names::NodeName;
use crate::nodes::Nodes;
use hk_base::NoMemory;

impl Tree {
    /// Appends the path of the row at a place without its first `from` names: each name after the
    /// number of its bytes. Returns `NoMemory` if allocation fails; a prefix may then have been
    /// appended. It allocates only if `out` has less room than the bytes need.
    pub fn write_path_from(&self, at: u32, from: usize, out: &mut Vec<u8>) -> Result<(), NoMemory>
        requires { at < length self.now.rows }
        ensures ok { (e : Entry) → slice_get self.now.rows at ≡ Some e →
            OnOk result (out.new.items ≡ out.old.items ++ path_bytes (drop from e.path)) }
        ensures len { (e : Entry) → slice_get self.now.rows at ≡ Some e →
            OnOk result
            (vec_len out.new ≡ vec_len out.old + length (path_bytes (drop from e.path))) }
        ensures full { (e : Entry) → slice_get self.now.rows at ≡ Some e →
            OnErr result
            (vec_capacity out.old < vec_len out.old + length (path_bytes (drop from e.path))) }
        ensures capacity { vec_capacity out.old ≤ vec_capacity out.new }
    {
        let n = self.order.get(at as usize);
        let count = depth(&self.nodes, n).saturating_sub(from);
        write_last(&self.nodes, n, count, out)
    }
}

/// Appends the last `count` names of a node's path.
fn write_last(nodes: &Nodes, n: u32, count: usize, out: &mut Vec<u8>) -> Result<(), NoMemory>
    requires linked { IsLinked nodes.now.items }
    requires live { n < length nodes.now.items }
    requires rule { IsTrue (is_relative (path_of nodes.now.items n)) }
    requires count { count ≤ length (path_of nodes.now.items n) }
    ensures ok { OnOk result
        (out.new.items ≡ out.old.items ++ last_bytes count (path_of nodes.now.items n)) }
    ensures len { OnOk result
        (vec_len out.new ≡
        vec_len out.old + length (last_bytes count (path_of nodes.now.items n))) }
    ensures full { OnErr result
        (vec_capacity out.old <
        vec_len out.old + length (last_bytes count (path_of nodes.now.items n))) }
    ensures capacity { vec_capacity out.old ≤ vec_capacity out.new }
{
    if count == 0 {
        return Ok(());
    }
    let link = nodes.link(n);
    write_last(nodes, link.parent, count - 1, out)?;
    append_name(out, &link.name)?;
    Ok(())
}

/// Appends a name after the number of its bytes.
fn append_name(out: &mut Vec<u8>, name: &NodeName) -> Result<(), NoMemory>
    requires { length name.now < 256 }
    ensures ok { OnOk result (out.new.items ≡ out.old.items ++ length name.now ∷ name.now) }
    ensures len { OnOk result (vec_len out.new ≡ vec_len out.old + length name.now + 1) }
    ensures full { OnErr result (vec_capacity out.old < vec_len out.old + length name.now + 1) }
    ensures capacity { vec_capacity out.old ≤ vec_capacity out.new }
{
    let bytes = name.as_bytes();
    out.push(bytes.len() as u8)?;
    out.extend_from_slice(bytes)?;
    Ok(())
}
