//! A crowd of threads at the objects, and what an effect is compared with.

ghost use Rattle.std.specs.Prelude.{◌≡◌, ◌==◌, ℕ, Bool, true, false, ◌&&◌, not, slice_index_or};
ghost use Rattle.std.specs.List.{list_any};
ghost use Rattle.guest_call.specs.Effect.{waiting};
ghost use Rattle.guest_call.specs.Objects.{waits_at, IsKept};
ghost use Rattle.object_tests.specs.Crowds.{AreIdle};
ghost use Rattle.sync_objects.specs.Puts.{is_put};

use guest_call::{Call, Fate, THREADS, threads_are_few};
use std::alloc::{AllocError, Global};
use std::process::Abort;
use sync_objects::{Effect, Objects, Queue};

/// Objects with 32 threads, and whether each of them waits.
#[derive(Drop)]
pub(super) struct Crowd {
    objects: Objects,
    waiting: [bool; THREADS],
    ghost kept: { IsKept objects },
    ghost idle: { (u : ℕ) → slice_index_or waiting u true ≡ false → waits_at objects u ≡ 0 },
}

/// Creates a thread at objects where no thread waits, and returns its number.
fn make_thread(rt: &impl Abort, objects: &mut Objects) -> u32
    requires { AreIdle objects.old }
    ensures { AreIdle objects.new }
{
    match objects.thread(0) {
        Some(thread) => match objects.act(thread, Call::Create(0x1_0000, 0)).fate() {
            Fate::Returns(number, _) => number,
            _ => panic!(rt; "no thread is made"),
        },
        None => panic!(rt; "there is no thread"),
    }
}

/// Whether a thread with this fate waits.
fn is_wait(fate: Fate) -> bool
    ensures { result ≡ (waiting fate == 1) }
{
    match fate {
        Fate::Blocks => true,
        Fate::Returns(_, _) | Fate::Ends(_) | Fate::Exits(_) => false,
    }
}

/// Notes that these threads were woken, and wait no longer.
fn wake(waiting: &mut [bool; THREADS], woken: &Queue)
    ensures { (u : ℕ) → slice_index_or waiting.new u true
        ≡ (slice_index_or waiting.old u true && not (list_any (λ w. w == u) woken.now)) }
{
    let threads = woken.threads();
    for thread in threads {
        threads_are_few(*thread);
        waiting[usize::from(thread.number())] = false;
    }
}

impl Crowd {
    /// The crowd before its first call.
    pub(super) fn new(rt: &impl Abort, alloc: Global) -> Result<Crowd, AllocError> {
        let mut objects = Objects::new(alloc)?;
        for number in 1..32u32 {
            assert!(rt; make_thread(rt, &mut objects) == number);
        }
        Ok(Crowd {
            objects,
            waiting: [false; THREADS],
        })
    }

    /// The effect of a call of a thread that doesn't wait.
    pub(super) fn act(&mut self, rt: &impl Abort, number: u8, call: Call) -> Effect
        requires { is_put call ≡ false }
    {
        let place = usize::from(number);
        assert!(rt; place < THREADS);
        assert!(rt; !self.waiting[place]);
        match self.objects.thread(number) {
            Some(thread) => {
                let effect = self.objects.act(thread, call);
                self.waiting[place] = is_wait(effect.fate());
                wake(&mut self.waiting, effect.woken());
                effect
            }
            None => panic!(rt; "there is no such thread"),
        }
    }
}

/// Whether a queue has these threads, in this order.
fn are_threads(queue: &Queue, numbers: &[u8]) -> bool {
    queue.len() == numbers.len()
        && queue
            .threads()
            .iter()
            .zip(numbers)
            .all(|(t, number)| t.number() == *number)
}

/// Asserts that the caller returns this answer, and that these threads are woken.
pub(super) fn assert_returns(rt: &impl Abort, effect: Effect, answer: u32, woken: &[u8]) {
    assert!(rt; effect.fate() == Fate::Returns(answer, None));
    assert!(rt; effect.reported().is_none());
    assert!(rt; are_threads(effect.woken(), woken));
}

/// Asserts that the caller waits, and that no thread is woken.
pub(super) fn assert_blocks(rt: &impl Abort, effect: Effect) {
    assert!(rt; effect.fate() == Fate::Blocks);
    assert!(rt; effect.woken().is_empty());
}

/// The answer of an error of this number.
pub(super) fn negated(number: u32) -> u32 {
    number.wrapping_neg()
}
