//! Hints that a worker hands in.
use ix_closure::Owed;
use ix_pool::{Deque, Hand, Hint};

// Offers a hint for each descriptor that these steps are to claim, in their order.
pub(crate) fn offer_claims(hand: &mut Hand<Deque>, steps: &[Owed]) {
    for step in steps {
        if let Owed::Claim { slot, left, pos } = *step {
            hand.offer(Hint { slot, left, pos });
        }
    }
}
