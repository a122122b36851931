use std::process::Abort;
use triple_arena_base::{CompactError, GetDisjointMutError};
use triple_arena_direct::StrictError;
use triple_arena_direct_uses::{Lease, Leases, Ticket};
use triple_arena_test_kit::is;

fn lease(item: u64) -> Lease {
    Lease { item, holder: 1 }
}

// Issues a lease of this item and revokes it; its ticket.
fn came_and_went(rt: &impl Abort, leases: &mut Leases, item: u64) -> Ticket {
    let ticket = leases.issue(lease(item)).expect(rt, "memory");
    is(leases.revoke(ticket), Ok(lease(item))).expect(rt, "the lease that ended");
    ticket
}

// The ticket of the first of 253 leases that came and went, all at one index.
fn first_of_all(rt: &impl Abort, leases: &mut Leases) -> Ticket {
    let first = came_and_went(rt, leases, 1);
    for item in 2..254 {
        came_and_went(rt, leases, item);
    }
    first
}

// Then revoking refuses the first ticket, and one that is issued then, which finds its lease before and after.
#[test]
fn a_ticket_is_never_valid_again(rt: HostRuntime) {
    let mut leases = Leases::new(rt.alloc());
    let first = first_of_all(&rt, &mut leases);
    let last = leases.issue(lease(254)).expect(&rt, "memory");
    let before = leases.redeem(last).copied();
    let refusals = [leases.revoke(first), leases.revoke(last)];
    let wanted = [Err(StrictError::InvalidPtr), Err(StrictError::Exhausted)];
    is(refusals, wanted).expect(&rt, "the refusals of the first ticket and the last");
    let after = leases.redeem(last).copied();
    let found = [before, after, leases.redeem(first).copied()];
    is(found, [Some(lease(254)), Some(lease(254)), None]).expect(&rt, "their leases");
}

// The lease of a ticket that is replaced at the counter's end is found by its new one, and can end.
#[test]
fn leases_are_renewed_when_their_tickets_are_used_up(rt: HostRuntime) {
    let mut leases = Leases::new(rt.alloc());
    first_of_all(&rt, &mut leases);
    let last = leases.issue(lease(254)).expect(&rt, "memory");
    is(leases.revoke(last), Err(StrictError::Exhausted)).expect(&rt, "a used up ticket");
    let mut kept: Vec<Ticket> = Vec::new(rt.alloc());
    kept.push(last).expect(&rt, "memory");
    match leases.renew(&mut kept, rt.alloc()) {
        Ok(mut leases) => {
            let ticket = kept.first().copied().expect(&rt, "a ticket");
            is(leases.redeem(ticket).copied(), Some(lease(254))).expect(&rt, "the kept lease");
            is(leases.revoke(ticket), Ok(lease(254))).expect(&rt, "the lease that ended");
        }
        Err((_leases, refusal)) => is(Err(refusal), Ok(())).expect(&rt, "the map's memory"),
    }
}

// The second's item is numbered by its ticket, of index 2 and generation 2.
#[test]
fn leases_exchange_their_holders(rt: HostRuntime) {
    let mut leases = Leases::new(rt.alloc());
    let first = leases.issue(lease(7)).expect(&rt, "memory");
    let second = leases.issue_numbered(5).expect(&rt, "memory");
    is(leases.swap_holders(first, second), Ok(())).expect(&rt, "an exchange");
    let (left, right) = (
        Lease { item: 7, holder: 5 },
        Lease {
            item: 514,
            holder: 1,
        },
    );
    is(leases.redeem(first).copied(), Some(left)).expect(&rt, "the first lease");
    is(leases.redeem(second).copied(), Some(right)).expect(&rt, "the second lease");
    let one = Err(GetDisjointMutError::OverlappingIndices);
    is(leases.swap_holders(second, second), one).expect(&rt, "an exchange of one");
}

// The first and the third are the first holder's, and end together.
#[test]
fn all_leases_of_a_holder_are_revoked(rt: HostRuntime) {
    let mut leases = Leases::new(rt.alloc());
    let first = leases.issue(lease(7)).expect(&rt, "memory");
    let second = leases.issue_numbered(5).expect(&rt, "memory");
    let third = leases.issue(lease(8)).expect(&rt, "memory");
    is(leases.revoke_all(1), Ok(())).expect(&rt, "the end of all leases of a holder");
    let left = Lease {
        item: 514,
        holder: 5,
    };
    is(leases.redeem(first).copied(), None).expect(&rt, "the first lease");
    is(leases.redeem(second).copied(), Some(left)).expect(&rt, "the second lease");
    is(leases.redeem(third).copied(), None).expect(&rt, "the third lease");
}

// Nor are those of a holder who has none, where there is a lease.
#[test]
fn at_the_counters_end_all_leases_stay(rt: HostRuntime) {
    let mut leases = Leases::new(rt.alloc());
    first_of_all(&rt, &mut leases);
    is(leases.revoke_all(1), Ok(())).expect(&rt, "the end of no leases");
    let last = leases.issue(lease(254)).expect(&rt, "memory");
    let refusals = [leases.revoke_all(1), leases.revoke_all(2)];
    is(refusals, [Err(StrictError::Exhausted); 2]).expect(&rt, "the refusals");
    is(leases.redeem(last).copied(), Some(lease(254))).expect(&rt, "the lease");
}

// The registry comes back, and the lease that is there is found by its ticket, which was kept.
#[test]
fn a_stray_ticket_refuses_a_renewal(rt: HostRuntime) {
    let mut leases = Leases::new(rt.alloc());
    let stray = came_and_went(&rt, &mut leases, 1);
    let last = leases.issue(lease(2)).expect(&rt, "memory");
    let mut kept: Vec<Ticket> = Vec::new(rt.alloc());
    kept.push(last).expect(&rt, "memory");
    kept.push(stray).expect(&rt, "memory");
    let wanted = CompactError::Unresolved(stray);
    match leases.renew(&mut kept, rt.alloc()) {
        Ok(_leases) => is(Ok(()), Err(wanted)).expect(&rt, "the refusal"),
        Err((leases, refusal)) => {
            is(refusal, wanted).expect(&rt, "the refusal");
            let ticket = kept.first().copied().expect(&rt, "a ticket");
            is(leases.redeem(ticket).copied(), Some(lease(2))).expect(&rt, "the kept lease");
        }
    }
}
