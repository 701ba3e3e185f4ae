//! The properties of a load.
ghost use Rattle.std.specs.Prelude.{◌≡◌, IfOk};
ghost use Rattle.prop_text.specs.Sizes.{default_sizes};
ghost use Rattle.load_run.specs.Props.{for_everybody, open_lines};

use hk_base::NoMemory;
use kms_calls::AclOp;
use prop_text::{Acl, LineList, PropLine, Props, Sizes, TextList};
use std::alloc::Global;

fn for_everybody(alloc: Global, op: AclOp) -> PropLine
    ensures { result ≡ for_everybody op }
{
    PropLine::Default {
        op,
        acl: Acl {
            everybody: true,
            users: TextList::new(alloc),
            groups: TextList::new(alloc),
        },
    }
}

fn open_lines(alloc: Global) -> Result<LineList, NoMemory>
    ensures { IfOk result (λ lines. lines ≡ open_lines) }
{
    let mut lines = LineList::new(alloc);
    lines.push(for_everybody(alloc, AclOp::Management))?;
    lines.push(for_everybody(alloc, AclOp::GenerateEek))?;
    lines.push(for_everybody(alloc, AclOp::DecryptEek))?;
    lines.push(for_everybody(alloc, AclOp::Read))?;
    Ok(lines)
}

/// Returns the properties by which everybody may do each operation on each key, with the default
/// sizes.
pub(crate) fn open_props(alloc: Global) -> Result<Props, NoMemory>
    ensures lines { IfOk result (λ props. props.lines ≡ open_lines) }
    ensures sizes { IfOk result (λ props. props.sizes ≡ default_sizes) }
{
    let lines = open_lines(alloc)?;
    Ok(Props {
        lines,
        sizes: Sizes {
            queue: 500,
            watermark: 150,
            batch: 1000,
            cache: 1000,
        },
    })
}
