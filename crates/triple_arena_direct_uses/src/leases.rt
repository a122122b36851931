//! A registry of leases, each under a ticket that is never valid again once its lease has ended.

ghost use Rattle.std.specs.Prelude.{◌≡◌, ◌≢◌, ◌<◌, ◌+◌, ◌^◌, ◌==◌, cond, List, map, None, Some, false, IsSome, IsOk, IfOk, OnOk, OnErr, option_copied};
ghost use Rattle.std.specs.Result.{IfErr};
ghost use Rattle.std.proofs.Common.{refl};
ghost use Rattle.triple_arena_base.specs.Held.{held_nothing, refill_nothing};
ghost use Rattle.triple_arena_base.specs.laws.HeldLaws.{nothing_held_refill};
ghost use Rattle.triple_arena_ptr.specs.Pointers.{Pointer};
ghost use Rattle.triple_arena.specs.Entries.{look_up};
ghost use Rattle.triple_arena.specs.ArenaState.{arena_len, capacity, with_value};
ghost use Rattle.triple_arena.specs.Recasting.{written};
ghost use Rattle.triple_arena.specs.SlotSteps.{RisesByAtMost, IsTouched};
ghost use Rattle.triple_arena.specs.DisjointEntries.{DisjointPtrAnswer};
ghost use Rattle.triple_arena.specs.Walks.{entries, keys};
ghost use Rattle.triple_arena_direct.specs.Gone.{IsGoneForGood};
ghost use Rattle.triple_arena_direct.specs.Renaming.{first_unresolved, Refuses, IsUnresolved};
ghost use Rattle.triple_arena_direct.specs.StrictAnswers.{strict_of, strict_all};
ghost use Rattle.triple_arena_direct.specs.laws.RetainLaws.{kept_if};
ghost use Rattle.triple_arena_direct_uses.specs.Tickets.{ticket_numbers, are_used_up, anew, handed, number_of, in_hands_of, is_of_another, IsIssued, IsRenewed};

use crate::ticket::Ticket;
use std::alloc::Global;
use std::marker::Model;
use triple_arena::arena_iterators::Ptrs;
use triple_arena::{Arena, ArenaInsertEntryTrait};
use triple_arena_base::{CompactError, GetDisjointMutError, ReallocationError, Recast, Recaster};
use triple_arena_direct::renaming_laws::holders_follow;
use triple_arena_direct::{StrictArena, StrictError, renew, unresolved};
use triple_arena_ptr::Ptr;

/// What is leased, and to whom.
#[derive(Clone, Copy, PartialEq, Eq, Debug)]
pub struct Lease {
    pub item: u64,
    pub holder: u32,
}

impl Lease {
    // Passes it on from one holder to another, if it is that one's.
    fn pass_on(&mut self, from: u32, to: u32)
        ensures { self.new ≡ handed from to self.old }
    {
        if self.holder == from {
            self.holder = to;
        }
    }
}

/// Holds no ticket.
impl Recast<Ticket> for Lease {
    ghost held = { held_nothing };

    ghost refill = { refill_nothing };

    fn recast<R: Recaster<Item = Ticket>>(&mut self, _recaster: &R) -> Result<(), Ticket> {
        Ok(())
    }

    ghost held_refill = { nothing_held_refill };

    ghost refill_held = { λ _. refl };

    ghost refill_refill = { λ _ _ _ _ _. refl };
}

// The number of a ticket.
fn item_number(ticket: Ticket) -> u64
    ensures { result ≡ number_of (ticket_numbers ticket) }
{
    u64::from(ticket.inx().get()) * 256 + u64::from(ticket.generation().get())
}

/// A registry of leases. Whoever keeps the ticket of a lease that has ended finds nothing by it, for
/// as long as the registry lasts: rather than give a ticket twice, it revokes no more leases, until it
/// is renewed.
#[derive(Drop)]
pub struct Leases {
    leases: StrictArena<Ticket, Lease>,
}

impl Model for Leases {
    ghost use Rattle.triple_arena.specs.ArenaState.{ArenaState};
    ghost use Rattle.triple_arena_direct_uses.specs.declared.leases.Lease.{Lease};

    ghost Value = { ArenaState Lease };

    ghost view = { λ registry. registry.leases };

    ghost inverse = { λ leases. record { leases = leases } };
}

impl Leases {
    /// A registry without leases.
    pub fn new(alloc: Global) -> Self
        ensures empty { (q : Pointer) → look_up result.slots q ≡ None }
        ensures counter { result.counter ≡ 2 }
    {
        Leases {
            leases: StrictArena::new(alloc),
        }
    }

    /// A new lease, and its ticket: no lease had it that has ended, and none has it that has not.
    ///
    /// Refused only where there is no place, and memory is refused or each index has a lease; then
    /// nothing changes.
    pub fn issue(&mut self, lease: Lease) -> Result<Ticket, ReallocationError>
        ensures issued { IfOk result
            (λ ticket. IsIssued self.old lease (ticket_numbers ticket) self.new) }

        // Refused: nothing changes, and there was no place.
        ensures had_place { arena_len self.old < capacity self.old → IsOk result }
        ensures refused { OnErr result (self.new ≡ self.old) }

        // In each case what was gone for good stays so.
        ensures stays_gone { (q : Pointer) → IsGoneForGood self.old q → IsGoneForGood self.new q }
        ensures counter { self.new.counter ≡ self.old.counter }
    {
        self.leases.insert(lease)
    }

    /// A new lease of an item that has no number yet, and its ticket. The item gets the number of that very
    /// ticket (`number_of`), which no other ticket has; so until the registry is renewed, no item gets a
    /// number twice.
    ///
    /// Refused as [`Self::issue`]; then nothing changes.
    pub fn issue_numbered(&mut self, holder: u32) -> Result<Ticket, ReallocationError>
        ensures issued { IfOk result (λ ticket. IsIssued self.old
            (record { item = number_of (ticket_numbers ticket); holder = holder })
            (ticket_numbers ticket) self.new) }
        ensures number { IfOk result (λ ticket. (q : Pointer) → q.1 < 2 ^ 8
            → number_of q ≡ number_of (ticket_numbers ticket) → q ≡ ticket_numbers ticket) }

        // Refused: nothing changes, and there was no place.
        ensures had_place { arena_len self.old < capacity self.old → IsOk result }
        ensures refused { OnErr result (self.new ≡ self.old) }

        // In each case what was gone for good stays so.
        ensures stays_gone { (q : Pointer) → IsGoneForGood self.old q → IsGoneForGood self.new q }
        ensures counter { self.new.counter ≡ self.old.counter }
    {
        match self.leases.entry_insert() {
            Ok(place) => {
                let ticket = place.ptr();
                let item = item_number(ticket);
                place.insert(Lease { item, holder });
                Ok(ticket)
            }
            Err(refusal) => Err(refusal),
        }
    }

    /// The lease of a ticket; none exactly where it has ended, or the ticket was never issued.
    pub fn redeem(&self, ticket: Ticket) -> Option<&Lease>
        ensures { option_copied result ≡ look_up self.now.slots (ticket_numbers ticket) }
    {
        self.leases.get(ticket)
    }

    /// Ends the lease of a ticket, and gives it. No lease is found under the ticket any more. However
    /// many leases there are, at most 6 slots are touched, and at the counter's end one more is looked at.
    ///
    /// `InvalidPtr` exactly where there is none; else `Exhausted` exactly where its ticket could be given
    /// again (`are_used_up`). Then nothing changes but how many slots were touched.
    pub fn revoke(&mut self, ticket: Ticket) -> Result<Lease, StrictError>
        ensures answer { result
            ≡ strict_of (are_used_up self.old) (look_up self.old.slots (ticket_numbers ticket)) }
        ensures gone_for_good { OnOk result (IsGoneForGood self.new (ticket_numbers ticket)) }
        ensures others { (q : Pointer) → q ≢ ticket_numbers ticket
            → look_up self.new.slots q ≡ look_up self.old.slots q }
        ensures stays_gone { (q : Pointer) → IsGoneForGood self.old q → IsGoneForGood self.new q }
        ensures counter { OnOk result (self.new.counter ≡ self.old.counter + 1) }
        ensures refused { OnErr result (IsTouched self.old self.new) }
        ensures bounded { RisesByAtMost 6 self.old.steps self.new.steps }
    {
        self.leases.remove(ticket)
    }

    /// Ends all leases of one holder together. Under each other ticket is the lease that was there, and
    /// no lease is found under theirs any more.
    ///
    /// `Exhausted` exactly where there is a lease, of whatever holder, and the tickets are used up
    /// (`are_used_up`). Then nothing changes.
    pub fn revoke_all(&mut self, holder: u32) -> Result<(), StrictError>
        ensures answer { result
            ≡ strict_all (cond (arena_len self.old == 0) false (are_used_up self.old)) }
        ensures found { OnOk result ((q : Pointer) → look_up self.new.slots q
            ≡ kept_if (is_of_another holder) (λ q lease. lease) q (look_up self.old.slots q)) }
        ensures gone_for_good { (q : Pointer) → IsSome (look_up self.old.slots q)
            → look_up self.new.slots q ≡ None → IsGoneForGood self.new q }
        ensures stays_gone { (q : Pointer) → IsGoneForGood self.old q → IsGoneForGood self.new q }
        ensures refused { OnErr result (self.new ≡ self.old) }
    {
        self.leases.retain(|_ticket, lease| lease.holder != holder)
    }

    /// The tickets that have a lease, in the order of their indexes.
    pub fn tickets(&self) -> Ptrs<'_, Ticket, Lease, Arena<Ticket, Lease>>
        ensures { result ≡ keys self.now.slots }
    {
        self.leases.ptrs()
    }

    /// Hands each lease of one holder to another, under its ticket.
    pub fn hand_over(&mut self, from: u32, to: u32)
        ensures leases { entries self.new.slots
            ≡ map (λ e. (e.0, handed from to e.1)) (entries self.old.slots) }
        ensures written { (leases : List Lease)
            × (self.new ≡ written with_value (keys self.old.slots) leases self.old) }
        ensures stays_gone { (q : Pointer) → IsGoneForGood self.old q → IsGoneForGood self.new q }
    {
        self.leases
            .for_each_mut(|_ticket, lease| lease.pass_on(from, to));
    }

    /// Exchanges the holders of two leases. Both keep their tickets and their items.
    ///
    /// `IndexOutOfBounds` where either ticket has no lease, `OverlappingIndices` where the tickets are one
    /// that has a lease. Then nothing changes.
    pub fn swap_holders(&mut self, first: Ticket, second: Ticket) -> Result<(), GetDisjointMutError>
        ensures variant { DisjointPtrAnswer self.old.slots
            (ticket_numbers first) (ticket_numbers second) result }
        ensures first { OnOk result ((one other : Lease)
            → look_up self.old.slots (ticket_numbers first) ≡ Some one
            → look_up self.old.slots (ticket_numbers second) ≡ Some other
            → look_up self.new.slots (ticket_numbers first) ≡ Some (in_hands_of other one)) }
        ensures second { OnOk result ((one other : Lease)
            → look_up self.old.slots (ticket_numbers first) ≡ Some one
            → look_up self.old.slots (ticket_numbers second) ≡ Some other
            → look_up self.new.slots (ticket_numbers second) ≡ Some (in_hands_of one other)) }
        ensures others { (q : Pointer) → q ≢ ticket_numbers first → q ≢ ticket_numbers second
            → look_up self.new.slots q ≡ look_up self.old.slots q }
        ensures stays_gone { (q : Pointer) → IsGoneForGood self.old q → IsGoneForGood self.new q }
        ensures counter { self.new.counter ≡ self.old.counter }
        ensures refused { OnErr result (self.new ≡ self.old) }
    {
        self.leases.with_disjoint_mut(first, second, |one, other| {
            std::mem::swap(&mut one.holder, &mut other.holder);
        })
    }

    /// The same leases in another registry, whose tickets aren't used up: the leases get new tickets, and
    /// each that is kept here is replaced by its new one. So each kept ticket finds the lease that it
    /// found. An old ticket that isn't replaced may find another lease.
    ///
    /// Refused with the first kept ticket that finds no lease; else where there is a lease and memory is
    /// refused. Then nothing changes, and the registry comes back.
    pub fn renew(
        self,
        kept: &mut Vec<Ticket>,
        alloc: Global,
    ) -> Result<Leases, (Leases, CompactError<Ticket>)>
        // Done: the leases have new tickets, and each kept ticket is its new one.
        ensures renewed { IfOk result (IsRenewed self) }
        ensures kept { IfOk result (λ new.
            map (λ ticket. look_up new.slots (ticket_numbers ticket)) kept.new.items
            ≡ map (λ ticket. look_up self.slots (ticket_numbers ticket)) kept.old.items) }
        ensures renamed { OnOk result (map ticket_numbers kept.new.items
            ≡ map (anew self) (map ticket_numbers kept.old.items)) }
        ensures resolved { OnOk result
            (first_unresolved ticket_numbers self.slots kept.old.items ≡ None) }

        // Refused: the registry and the tickets are as they were, and the error tells why.
        ensures refusal { IfErr result (λ old. Refuses (arena_len self)
            (first_unresolved ticket_numbers self.slots kept.old.items) old.1) }
        ensures stray_first { IfErr result
            (λ old. first_unresolved ticket_numbers self.slots kept.old.items ≢ None
            → IsUnresolved old.1) }
        ensures refused { IfErr result (λ old. old.0 ≡ self) }
        ensures kept_refused { OnErr result (kept.new ≡ kept.old) }
    {
        let Leases { leases } = self;
        if let Some(stray) = unresolved(leases.arena(), kept) {
            return Err((Leases { leases }, CompactError::Unresolved(stray)));
        }
        match renew(leases, alloc) {
            Ok((leases, tickets)) => {
                // Each kept ticket has a new one.
                holders_follow::<Ticket, Lease, Vec<Ticket>>();
                let _renamed = kept.recast(&tickets);
                Ok(Leases { leases })
            }
            Err((leases, refusal)) => Err((Leases { leases }, refusal)),
        }
    }
}
