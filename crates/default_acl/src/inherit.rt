ghost use Rattle.std.specs.Prelude.{◌≡◌, None, IfOk, IsOk};
ghost use Rattle.std.specs.Option.{option_map};
ghost use Rattle.permission_bits.specs.Mode.{group_bits};
ghost use Rattle.permission_bits.specs.Rights.{rights};
ghost use Rattle.acl_entries.specs.Acl.{intersection};
ghost use Rattle.partial_acl.specs.AclChange.{as_kept};
ghost use Rattle.default_acl.specs.Inheritance as definition;

use acl_entries::acl::Acl;
use acl_entries::entry_list::{Bases, EntryList};
use bitflags::Flags;
use file_states::kind::ObjectKind;
use partial_acl::completed::copy_of;
use partial_acl::named::copies;
use permission_bits::mode::Mode;
use permission_bits::rights::Rights;
use std::alloc::{AllocError, Global};

/// A mask of which a mode leaves what it grants the group.
fn cut_mask(mask: Option<Rights>, mode: Mode) -> Option<Rights>
    ensures { result ≡ option_map (λ own. intersection own (rights (group_bits mode))) mask }
{
    match mask {
        Some(mask) => Some(mask.intersection(mode.group())),
        None => None,
    }
}

/// The access list of what is made with a mode below a default list.
fn cut_to(alloc: Global, mode: Mode, list: &EntryList) -> Result<EntryList, AllocError>
    ensures { IfOk result (λ access. access ≡ as_kept (definition.list_cut_to mode list.now)) }
{
    let user = list.user().intersection(mode.user());
    let other = list.other().intersection(mode.other());
    let mask = cut_mask(list.mask(), mode);
    let own = list.group();
    if list.users().is_empty() && list.groups().is_empty() {
        let group = match mask {
            Some(mask) => own.intersection(mask),
            None => own,
        };
        return Ok(EntryList::of_bases(Bases { user, group, other }));
    }
    let users = copies(alloc, list.users())?;
    let groups = copies(alloc, list.groups())?;
    let bases = Bases {
        user,
        group: own,
        other,
    };
    EntryList::new(alloc, bases, mask, users, groups)
}

/// What a directory takes on as its own default list.
fn passed_on(kind: ObjectKind, list: &EntryList) -> Result<Option<EntryList>, AllocError>
    ensures { IfOk result (λ default. default ≡ definition.default_passed_on kind list.now) }
{
    match kind {
        ObjectKind::File => Ok(None),
        ObjectKind::Directory => Ok(Some(copy_of(list)?)),
    }
}

/// The list of what is made in a directory with a mode: the directory's default list, cut to the mode, where it has one, and else
/// the mode's own list (HDFS Permissions Guide, "ACLs (Access Control Lists)": default ACLs). Takes no memory, and so doesn't
/// fail, where the directory has no default list.
///
/// # Errors
/// Out of memory.
pub fn inherit(alloc: Global, parent: &Acl, mode: Mode, kind: ObjectKind) -> Result<Acl, AllocError>
    ensures list { IfOk result (λ acl. acl ≡ definition.inherited_acl parent.now mode kind) }
    ensures plain { parent.now.default ≡ None → IsOk result }
{
    let Some(list) = parent.default_list() else {
        return Ok(Acl::from_mode(mode, kind));
    };
    // a call on the parent shows the prover that its default list has a mask
    let _access = parent.access();
    let access = cut_to(alloc, mode, list)?;
    let default = passed_on(kind, list)?;
    let sticky = kind == ObjectKind::Directory && mode.is_sticky();
    Acl::new(alloc, sticky, access, default)
}
