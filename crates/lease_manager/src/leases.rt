ghost use Rattle.std.specs.Prelude.{◌≡◌, ◌≤◌, nat_lt, [], None, IfOk, OnOk, OnErr, IfErr, IsOk, IsSome, is_some};
ghost use Rattle.std.specs.Bool.{MatchBool};
ghost use Rattle.std.specs.List.{IsDistinct};
ghost use Rattle.std.specs.Map.{keys_of};
ghost use Rattle.hdfs_values.specs.Text.{same};
ghost use Rattle.refusals.specs.declared.refusal.Refusal.TheVariants.{NoLease};
ghost use Rattle.lease_manager.specs.Leases as spec;
ghost use Rattle.lease_manager.specs.Shown.{renewals_of};

use hdfs_values::moment::Moment;
use hdfs_values::who::Who;
use lru::LruCache;
use refusals::refusal::Refusal;
use std::alloc::{AllocError, Global};
use std::marker::Model;

/// How a lease stands by its age, the time since its last renewal (HDFS Architecture, the single-writer model).
#[derive(Clone, Copy, Debug, PartialEq, Eq)]
pub enum LeaseState {
    /// The age isn't greater than the soft limit.
    Live,
    /// The age is greater than the soft limit: another client may take over a file.
    PastSoft,
    /// The age is greater than the hard limit: the NameNode closes the client's files.
    PastHard,
}

/// The leases of clients, each by its last renewal, the oldest first, and the limits of their ages. A lease covers all files
/// that its client has open (HDFS Architecture, the single-writer model).
pub struct Leases {
    // in milliseconds
    soft: u32,
    hard: u32,
    // Without a limit. A renewal is a use, so the latest is first and the oldest last.
    renewals: LruCache<Who, Moment>,
}

impl Drop for Leases {
    fn drop(self) {
        let Leases {
            soft: _,
            hard: _,
            renewals,
        } = self;
        drop(renewals);
    }
}

impl Model for Leases {
    ghost use Rattle.lease_manager.specs.Leases.{Leases, AreRenewals};

    ghost Value = { Leases };

    ghost use Rattle.lease_manager.specs.Shown.{renewals_of, leases_of};

    ghost view = { leases_of };

    ghost use Rattle.std.specs.Prelude.{◌≡◌, ◌^◌, ◌-◌};

    ghost invariant = { λ leases. AreRenewals (renewals_of leases.renewals.entries) × (leases.renewals.cap ≡ 2 ^ 64 - 1) };
}

// The milliseconds from a renewal until now.
fn age(last: Moment, now: Moment) -> u64
    ensures { result ≡ spec.age last now }
{
    now.milliseconds().saturating_sub(last.milliseconds())
}

// Makes a client's renewal the latest, with a new moment; answers whether the client is there.
fn renew_present(renewals: &mut LruCache<Who, Moment>, client: &Who, now: Moment) -> bool
    ensures there { result ≡ is_some (spec.renewal_of client.now (renewals_of renewals.old.entries)) }
    ensures renewed { MatchBool result (renewals_of renewals.new.entries ≡ spec.renewals_with client.now now (renewals_of renewals.old.entries) × IsDistinct same (keys_of renewals.new.entries)) (renewals.new ≡ renewals.old) }
    ensures cap { renewals.new.cap ≡ renewals.old.cap }
{
    // its contract tells that no client is there twice, before and behind
    let _before = renewals.len();
    let Some(last) = renewals.get_mut(client) else {
        return false;
    };
    *last = now;
    let _behind = renewals.len();
    true
}

impl Leases {
    /// No client has a lease. The limits are in milliseconds. Its cost is constant.
    ///
    /// # Errors
    /// Out of memory.
    pub fn new(alloc: Global, soft: u32, hard: u32) -> Result<Leases, AllocError>
        ensures { IfOk result (λ leases. leases ≡ record { limits = record { soft = soft; hard = hard }; renewals = [] }) }
    {
        Ok(Leases {
            soft,
            hard,
            renewals: LruCache::unbounded(alloc)?,
        })
    }

    /// Gives a client a lease, or renews the one that it has: it comes last in the list of renewals. `now` must not be before
    /// the last renewal. Costs a look-up by hash, and for a client that has none two more and memory.
    ///
    /// # Errors
    /// Out of memory. Nothing has changed then.
    pub fn take(&mut self, client: &Who, now: Moment) -> Result<(), AllocError>
        requires { spec.latest_moment self.old.renewals ≤ now }
        ensures ok { OnOk result (self.new ≡ spec.after_renewal self.old client.now now) }
        ensures err { OnErr result (self.new ≡ self.old) }
        ensures held { IsSome (spec.renewal_of client.now self.old.renewals) → IsOk result }
        ensures latest { OnOk result (spec.latest_moment self.new.renewals ≡ now) }
    {
        if renew_present(&mut self.renewals, client, now) {
            return Ok(());
        }
        // its contract tells that there is room for one more, and then that no client is there twice
        let _before = self.renewals.len();
        self.renewals.put(client.clone()?, now)?;
        let _behind = self.renewals.len();
        Ok(())
    }

    /// Renews a client's lease: it comes last in the list of renewals. `now` must not be before the last renewal. Costs a look-up by
    /// hash, and takes no memory.
    ///
    /// # Errors
    /// `NoLease`, where the client has no lease. Nothing has changed then.
    pub fn renew(&mut self, client: &Who, now: Moment) -> Result<(), Refusal>
        requires { spec.latest_moment self.old.renewals ≤ now }
        ensures ok { OnOk result (IsSome (spec.renewal_of client.now self.old.renewals) × (self.new ≡ spec.after_renewal self.old client.now now)) }
        ensures err { OnErr result ((spec.renewal_of client.now self.old.renewals ≡ None) × (self.new ≡ self.old)) }
        ensures latest { OnOk result (spec.latest_moment self.new.renewals ≡ now) }
        ensures refusal { IfErr result (λ refusal. refusal ≡ NoLease) }
    {
        if !renew_present(&mut self.renewals, client, now) {
            return Err(Refusal::NoLease);
        }
        Ok(())
    }

    /// Ends a client's lease; where it has none, nothing changes. Costs a look-up by hash, and takes no memory.
    pub fn release(&mut self, client: &Who)
        ensures released { self.new ≡ spec.after_release self.old client.now }
        ensures latest { spec.latest_moment self.new.renewals ≤ spec.latest_moment self.old.renewals }
    {
        self.renewals.pop(client);
        // its contract tells that no client is there twice
        let _behind = self.renewals.len();
    }

    fn is_past_hard(&self, last: Moment, now: Moment) -> bool
        ensures { result ≡ nat_lt self.now.limits.hard (spec.age last now) }
    {
        age(last, now) > self.hard as u64
    }

    fn state_since(&self, last: Moment, now: Moment) -> LeaseState
        ensures { result ≡ spec.lease_state self.now.limits last now }
    {
        if self.is_past_hard(last, now) {
            LeaseState::PastHard
        } else if age(last, now) > self.soft as u64 {
            LeaseState::PastSoft
        } else {
            LeaseState::Live
        }
    }

    /// How a client's lease stands by its age, which is 0 before its last renewal; `None` where it has none. Costs a look-up by
    /// hash, and takes no memory.
    pub fn state(&self, client: &Who, now: Moment) -> Option<LeaseState>
        ensures state { result ≡ spec.state_of self.now client.now now }
        ensures renewals { spec.AreRenewals self.now.renewals }
    {
        let last = self.renewals.peek(client)?;
        Some(self.state_since(*last, now))
    }

    /// The clients whose leases are older than the hard limit, the oldest first. Costs its answer.
    ///
    /// # Errors
    /// Out of memory.
    pub fn past_hard(&self, alloc: Global, now: Moment) -> Result<Vec<Who>, AllocError>
        ensures past { IfOk result (λ past. past.items ≡ spec.clients (spec.renewals_past_hard self.now.limits now self.now.renewals)) }
        ensures renewals { spec.AreRenewals self.now.renewals }
    {
        let mut past = Vec::new(alloc);
        for (client, last) in self.renewals.iter().rev() {
            if !self.is_past_hard(*last, now) {
                break;
            }
            past.push(client.clone()?)?;
        }
        Ok(past)
    }
}
