//! Laws about the histories that cores have. A function does nothing: what it ensures follows from what a core is.

ghost use Rattle.history.specs.Laws as law;

use crate::namenode::NameCore;

/// Whatever requests a core has stepped, no two clients have a file open to write at a time.
pub fn files_have_one_writer(core: &NameCore)
    ensures { law.HasOneWriter core.now.opening core.now.entries }
{
    let _root = core.tree().root();
}
