ghost use Rattle.std.specs.Prelude.{◌≡◌, ◌≤◌, ◌^◌};
ghost use Rattle.lease_manager.specs.Leases.{latest_moment};

use hdfs_types::reply::Refusal;
use hdfs_values::moment::Moment;
use hdfs_values::who::Who;
use lease_manager::leases::{LeaseState, Leases};
use std::alloc::Global;
use std::test::Fail;

const SOFT: u32 = 60_000;

const HARD: u32 = 1_200_000;

const LAST_MOMENT: u64 = 1 << 62;

fn moment(milliseconds: u64) -> Moment
    requires { milliseconds ≤ 2 ^ 62 }
    ensures { result ≡ milliseconds }
{
    Moment::new(milliseconds).unwrap()
}

/// Whether the client took a lease.
fn took(alloc: Global, leases: &mut Leases, client: &str, now: u64) -> bool
    requires latest { latest_moment leases.old.renewals ≤ now }
    requires last { now ≤ 2 ^ 62 }
    ensures { latest_moment leases.new.renewals ≤ now }
{
    match Who::parse(alloc, client) {
        Ok(client) => leases.take(&client, moment(now)).is_ok(),
        Err(_) => false,
    }
}

/// The code of the refusal, 0 where there is none.
fn code_of(renewed: Result<(), Refusal>) -> u8 {
    match renewed {
        Ok(()) => 0,
        Err(refusal) => refusal.code(),
    }
}

/// Whether the renewal of the client's lease is told so.
fn is_renewed(alloc: Global, leases: &mut Leases, client: &str, now: u64, code: u8) -> bool
    requires latest { latest_moment leases.old.renewals ≤ now }
    requires last { now ≤ 2 ^ 62 }
    ensures { latest_moment leases.new.renewals ≤ now }
{
    match Who::parse(alloc, client) {
        Ok(client) => code_of(leases.renew(&client, moment(now))) == code,
        Err(_) => false,
    }
}

/// Whether the client's lease, if it has one, is released now.
fn released(alloc: Global, leases: &mut Leases, client: &str) -> bool
    ensures { latest_moment leases.new.renewals ≤ latest_moment leases.old.renewals }
{
    match Who::parse(alloc, client) {
        Ok(client) => {
            leases.release(&client);
            true
        }
        Err(_) => false,
    }
}

/// Whether the client's lease stands so.
fn stands(
    alloc: Global,
    leases: &Leases,
    client: &str,
    now: u64,
    state: Option<LeaseState>,
) -> bool {
    let Some(now) = Moment::new(now) else {
        return false;
    };
    match Who::parse(alloc, client) {
        Ok(client) => leases.state(&client, now) == state,
        Err(_) => false,
    }
}

fn are_names(clients: &[Who], names: &[&str]) -> bool {
    if clients.len() != names.len() {
        return false;
    }
    for (client, name) in clients.iter().zip(names) {
        if client.as_str() != *name {
            return false;
        }
    }
    true
}

/// Whether these clients' leases are past the hard limit, in this order.
fn are_past_hard(alloc: Global, leases: &Leases, now: u64, names: &[&str]) -> bool {
    let Some(now) = Moment::new(now) else {
        return false;
    };
    match leases.past_hard(alloc, now) {
        Ok(past) => are_names(&past, names),
        Err(_) => false,
    }
}

// The age of a lease that is as old as a limit isn't greater than it.
static STATES: [(u64, LeaseState); 7] = [
    (0, LeaseState::Live),
    (1000, LeaseState::Live),
    (61_000, LeaseState::Live),
    (61_001, LeaseState::PastSoft),
    (1_201_000, LeaseState::PastSoft),
    (1_201_001, LeaseState::PastHard),
    (LAST_MOMENT, LeaseState::PastHard),
];

/// Whether the lease of `alice` stands so at each moment, and `bob` has none.
fn are_states(alloc: Global, leases: &Leases, states: &[(u64, LeaseState)]) -> bool {
    for (now, state) in states {
        if !stands(alloc, leases, "alice", *now, Some(*state))
            || !stands(alloc, leases, "bob", *now, None)
        {
            return false;
        }
    }
    true
}

/// Whether the leases of `alice`, who takes one at this moment, stand so.
fn are_alices(alloc: Global, leases: &mut Leases, now: u64, states: &[(u64, LeaseState)]) -> bool
    requires latest { latest_moment leases.old.renewals ≡ 0 }
    requires last { now ≤ 2 ^ 62 }
{
    took(alloc, leases, "alice", now) && are_states(alloc, leases, states)
}

#[test]
fn states_at_the_limits(rt: HostRuntime) -> Result<(), Fail> {
    let mut leases = Leases::new(rt.alloc(), SOFT, HARD)?;
    let are_states = are_alices(rt.alloc(), &mut leases, 1000, &STATES);
    drop(leases);
    assert!(rt; are_states);
    Ok(())
}

static STATES_OF_HARD: [(u64, LeaseState); 3] = [
    (100, LeaseState::Live),
    (101, LeaseState::PastHard),
    (60_001, LeaseState::PastHard),
];

// A lease is never past the soft limit alone where the hard limit is no greater.
#[test]
fn hard_limit_is_asked_first(rt: HostRuntime) -> Result<(), Fail> {
    let mut leases = Leases::new(rt.alloc(), SOFT, 100)?;
    let are_states = are_alices(rt.alloc(), &mut leases, 0, &STATES_OF_HARD);
    drop(leases);
    assert!(rt; are_states);
    Ok(())
}

/// Whether `alice`, who took a lease at 0, is past the hard limit at the last moment, and `bob` isn't.
fn is_alice_past(alloc: Global, leases: &Leases) -> bool {
    stands(
        alloc,
        leases,
        "alice",
        LAST_MOMENT,
        Some(LeaseState::PastHard),
    ) && stands(alloc, leases, "bob", LAST_MOMENT, Some(LeaseState::Live))
        && are_past_hard(alloc, leases, LAST_MOMENT, &["alice"])
}

fn is_none_past(alloc: Global, leases: &Leases) -> bool {
    stands(alloc, leases, "alice", LAST_MOMENT, Some(LeaseState::Live))
        && are_past_hard(alloc, leases, LAST_MOMENT, &[])
}

fn are_live_again(alloc: Global, leases: &mut Leases) -> bool
    requires { latest_moment leases.old.renewals ≡ 0 }
{
    took(alloc, leases, "alice", 0)
        && took(alloc, leases, "bob", LAST_MOMENT)
        && is_alice_past(alloc, leases)
        && is_renewed(alloc, leases, "alice", LAST_MOMENT, 0)
        && is_none_past(alloc, leases)
}

#[test]
fn renewals_at_the_last_moment(rt: HostRuntime) -> Result<(), Fail> {
    let mut leases = Leases::new(rt.alloc(), SOFT, HARD)?;
    let are_live = are_live_again(rt.alloc(), &mut leases);
    drop(leases);
    assert!(rt; are_live);
    Ok(())
}

/// Whether three clients took leases.
fn took_three(alloc: Global, leases: &mut Leases) -> bool
    requires { latest_moment leases.old.renewals ≡ 0 }
    ensures { latest_moment leases.new.renewals ≤ 10 }
{
    took(alloc, leases, "bob", 0)
        && took(alloc, leases, "alice", 0)
        && took(alloc, leases, "carl", 10)
}

fn are_in_order(alloc: Global, leases: &mut Leases) -> bool
    requires { latest_moment leases.old.renewals ≡ 0 }
{
    took_three(alloc, leases)
        && are_past_hard(alloc, leases, 1_200_000, &[])
        && are_past_hard(alloc, leases, 1_200_001, &["bob", "alice"])
        && are_past_hard(alloc, leases, 1_200_011, &["bob", "alice", "carl"])
}

#[test]
fn oldest_renewals_come_first(rt: HostRuntime) -> Result<(), Fail> {
    let mut leases = Leases::new(rt.alloc(), SOFT, HARD)?;
    let are_in_order = are_in_order(rt.alloc(), &mut leases);
    drop(leases);
    assert!(rt; are_in_order);
    Ok(())
}

fn are_renewed_last(alloc: Global, leases: &mut Leases) -> bool
    requires { latest_moment leases.old.renewals ≡ 0 }
{
    took_three(alloc, leases)
        && is_renewed(alloc, leases, "bob", 20, 0)
        && are_past_hard(alloc, leases, 1_200_021, &["alice", "carl", "bob"])
        && took(alloc, leases, "alice", 30)
        && are_past_hard(alloc, leases, 1_200_030, &["carl", "bob"])
        && are_past_hard(alloc, leases, 1_200_031, &["carl", "bob", "alice"])
}

#[test]
fn renewed_leases_go_last(rt: HostRuntime) -> Result<(), Fail> {
    let mut leases = Leases::new(rt.alloc(), SOFT, HARD)?;
    let are_last = are_renewed_last(rt.alloc(), &mut leases);
    drop(leases);
    assert!(rt; are_last);
    Ok(())
}

fn is_released_gone(alloc: Global, leases: &mut Leases) -> bool
    requires { latest_moment leases.old.renewals ≡ 0 }
{
    took_three(alloc, leases)
        && released(alloc, leases, "alice")
        && stands(alloc, leases, "alice", 10, None)
        && is_renewed(alloc, leases, "alice", 10, 13)
        && released(alloc, leases, "alice")
        && are_past_hard(alloc, leases, 1_200_011, &["bob", "carl"])
}

#[test]
fn released_leases_are_gone(rt: HostRuntime) -> Result<(), Fail> {
    let mut leases = Leases::new(rt.alloc(), SOFT, HARD)?;
    let is_gone = is_released_gone(rt.alloc(), &mut leases);
    drop(leases);
    assert!(rt; is_gone);
    Ok(())
}
