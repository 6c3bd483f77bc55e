ghost use Rattle.std.specs.Prelude.{◌≡◌, vec_len};

use crate::{Deck, Hand, Hint, ListDeck, hands};
use std::test::Fail;

fn hint(slot: u32) -> Hint {
    Hint {
        slot,
        left: 2,
        pos: 3,
    }
}

#[test]
fn two_hands_pass_a_hint(rt: HostRuntime) -> Result<(), Fail> {
    let mut hands = hands(rt.alloc(), 2)?;
    let (Some(mut second), Some(mut first)) = (hands.pop(), hands.pop()) else {
        panic!(rt; "there are not two hands");
    };
    assert_eq!(rt; first.next(), None);
    first.offer(hint(1));
    assert_eq!(rt; second.next(), Some(hint(1)));
    assert_eq!(rt; second.next(), None);
    assert_eq!(rt; first.misses(0), 1);
    assert_eq!(rt; second.misses(0), 1);
    Ok(())
}

#[test]
fn lists_are_first_in_first_out(rt: HostRuntime) -> Result<(), Fail> {
    let mut deck = ListDeck::new(rt.alloc());
    assert_eq!(rt; deck.take(), None);
    deck.put(hint(1));
    deck.put(hint(2));
    for (want, misses) in [(Some(hint(1)), 1), (Some(hint(2)), 1), (None, 2), (None, 3)] {
        assert_eq!(rt; deck.take(), want);
        assert_eq!(rt; deck.misses(), misses);
    }
    Ok(())
}

// Takes a hint, and tells its slot with the three counts after it.
fn asked(hand: &mut Hand<ListDeck>) -> (Option<u32>, [u64; 3])
    requires { vec_len hand.old.decks ≡ 3 }
    ensures { vec_len hand.new.decks ≡ 3 }
{
    let slot = match hand.next() {
        Some(hint) => Some(hint.slot),
        None => None,
    };
    (slot, [hand.misses(0), hand.misses(1), hand.misses(2)])
}

#[test]
fn own_deck_comes_first_and_then_the_others_in_order(rt: HostRuntime) -> Result<(), Fail> {
    let alloc = rt.alloc();
    let mut low = ListDeck::new(alloc);
    low.put(hint(10));
    let mut high = ListDeck::new(alloc);
    high.put(hint(12));
    let mut decks = Vec::new(alloc);
    decks.push(low)?;
    decks.push(ListDeck::new(alloc))?;
    decks.push(high)?;
    let mut hand = Hand::of(1, decks);
    hand.offer(hint(11));
    assert_eq!(rt; asked(&mut hand), (Some(11), [0, 0, 0]));
    assert_eq!(rt; asked(&mut hand), (Some(10), [0, 1, 0]));
    assert_eq!(rt; asked(&mut hand), (Some(12), [1, 2, 0]));
    assert_eq!(rt; asked(&mut hand), (None, [2, 3, 1]));
    Ok(())
}
