ghost use Rattle.std.specs.Prelude.{◌≡◌, ◌≤◌, ◌<◌, ◌++◌, false, map, replicate, length, vec_len, IfOk, OnOk};
ghost use Rattle.ix_pool.specs.Hands.{is_own, misses_of, IsNewHand, AreNewHands};

use crate::deque::ROOM;
use crate::{Deque, Hand, Hint};
use crossbeam_deque::{Stealer, Worker};
use std::alloc::{AllocError, Global};

/// One hand for each worker, in the order of their numbers. Each has a deck for each worker: its own deque, and stealers
/// of the others'. No deck has missed yet.
///
/// Condition: 1 to 64 workers. An error is want of memory.
pub fn hands(alloc: Global, workers: u32) -> Result<Vec<Hand<Deque>>, AllocError>
    requires few { workers ≤ 64 }
    requires some { 1 ≤ workers }
    ensures hands { IfOk result (λ hands. AreNewHands (λ h. h.own) (λ h. h.decks.items) workers hands.items) }
{
    let (owns, stealers) = deques(alloc, workers)?;
    let mut hands = Vec::with_capacity(alloc, workers as usize)?;
    for worker in owns {
        let own = hands.len() as u32;
        let hand = hand(alloc, own, worker, stealers.as_slice())?;
        hands.push(hand)?;
    }
    Ok(hands)
}

// One deque for each worker, and a stealer of each.
fn deques(
    alloc: Global,
    workers: u32,
) -> Result<(Vec<Worker<Hint>>, Vec<Stealer<Hint>>), AllocError>
    ensures owns { IfOk result (λ ends. vec_len ends.0 ≡ workers) }
    ensures stealers { IfOk result (λ ends. vec_len ends.1 ≡ workers) }
{
    let mut owns = Vec::new(alloc);
    let mut stealers = Vec::new(alloc);
    for _ in 0..workers {
        let worker = Worker::new_fifo(alloc, ROOM)?;
        stealers.push(worker.stealer()?)?;
        owns.push(worker)?;
    }
    Ok((owns, stealers))
}

// The hand of one worker: its own deque in the place of its number, and stealers of all others.
fn hand(
    alloc: Global,
    own: u32,
    worker: Worker<Hint>,
    stealers: &[Stealer<Hint>],
) -> Result<Hand<Deque>, AllocError>
    requires own { own < length stealers.now }
    requires few { length stealers.now ≤ 64 }
    ensures { IfOk result (λ hand. IsNewHand own (length stealers.now) hand.own hand.decks.items) }
{
    let place = own as usize;
    let mut decks = Vec::with_capacity(alloc, stealers.len())?;
    add_stealers(&mut decks, &stealers[..place])?;
    decks.push(Deque::own(worker))?;
    add_stealers(&mut decks, &stealers[place + 1..])?;
    Ok(Hand::of(own, decks))
}

// Adds a deck for each of these stealers.
fn add_stealers(decks: &mut Vec<Deque>, stealers: &[Stealer<Hint>]) -> Result<(), AllocError>
    ensures ends { OnOk result (map is_own decks.new.items ≡ map is_own decks.old.items ++ replicate (length stealers.now) false) }
    ensures misses { OnOk result (map misses_of decks.new.items ≡ map misses_of decks.old.items ++ replicate (length stealers.now) 0) }
{
    for stealer in stealers {
        decks.push(Deque::other(stealer.clone()?))?;
    }
    Ok(())
}
