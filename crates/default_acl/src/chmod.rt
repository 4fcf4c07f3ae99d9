ghost use Rattle.std.specs.Prelude.{◌≡◌};
ghost use Rattle.acl_entries.specs.Acl.{IsEntryList};
ghost use Rattle.partial_acl.specs.AclChange.{with_mode};

use acl_entries::acl::{Acl, bases_of};
use acl_entries::entry_list::{Bases, EntryList};
use file_states::kind::ObjectKind;
use permission_bits::mode::Mode;

/// What a mode grants beside a mask, which stands for the owning group: its own entry stays.
fn beside_mask(bases: Bases, access: &EntryList) -> Bases
    ensures bases { result ≡ record { user = bases.user; group = access.now.group; other = bases.other } }
    ensures entries { IsEntryList access.now }
{
    // a call on the list shows the prover what each list keeps
    let _user = access.user();
    Bases {
        user: bases.user,
        group: access.group(),
        other: bases.other,
    }
}

/// Gives a list another mode: to owner, others, and the mask of an extended list, else the owning group; and to a directory the
/// sticky bit. The owning group's own entry stays beside a mask, and the default list stays. Takes no memory.
pub fn chmod(acl: &mut Acl, mode: Mode, kind: ObjectKind)
    ensures { acl.new ≡ with_mode mode kind acl.old }
{
    acl.set_sticky(kind == ObjectKind::Directory && mode.is_sticky());
    let access = acl.access();
    let bases = bases_of(mode);
    if !acl.is_extended() {
        acl.set_bases(bases, None);
        return;
    }
    let others = beside_mask(bases, access);
    acl.set_bases(others, Some(bases.group));
}
