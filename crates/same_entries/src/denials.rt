ghost use Rattle.std.specs.Prelude.{◌≡◌};
ghost use Rattle.std.specs.Bool.{Decides};

use crate::acls::is_same_entry;
use crate::names::{are_same_groups, is_same_who};
use crate::rows::is_same_row;
use flat_rows::denial::Denial;
use required_rights::need::{By, Need};

fn is_same_need(need: &Need, other: &Need) -> bool
    ensures { Decides result (need.now ≡ other.now) }
{
    match (need, other) {
        (Need::Rights(rights), Need::Rights(other)) => rights == other,
        (Need::Member(group), Need::Member(other)) => is_same_who(group, other),
        (Need::Sticky, Need::Sticky)
        | (Need::Owner, Need::Owner)
        | (Need::Superuser, Need::Superuser)
        | (Need::Node, Need::Node) => true,
        _ => false,
    }
}

fn is_same_by(by: &By, other: &By) -> bool
    ensures { Decides result (by.now ≡ other.now) }
{
    match (by, other) {
        (By::Entry(entry, mask), By::Entry(other, others)) => {
            is_same_entry(entry, other) && mask == others
        }
        (By::Owner(owner), By::Owner(other)) => is_same_who(owner, other),
        (By::Owners(owner, above), By::Owners(other, others)) => {
            is_same_who(owner, other) && is_same_who(above, others)
        }
        (By::Group(group), By::Group(other)) => is_same_who(group, other),
        (By::Superuser, By::Superuser) | (By::Node, By::Node) | (By::Unchecked, By::Unchecked) =>
            true,
        _ => false,
    }
}

/// Whether two denials are one.
pub fn is_same_denial(denial: &Denial, other: &Denial) -> bool
    ensures { Decides result (denial.now ≡ other.now) }
{
    is_same_need(denial.need(), other.need())
        && is_same_by(denial.by(), other.by())
        && is_same_row(denial.row(), other.row())
        && is_same_who(denial.caller(), other.caller())
        && are_same_groups(denial.groups(), other.groups())
}
