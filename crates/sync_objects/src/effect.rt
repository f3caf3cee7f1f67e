//! What a call does to the threads, as the tables of objects return it.

ghost use Rattle.std.specs.Prelude.{◌≡◌, [], Some, None};
ghost use Rattle.guest_call.specs.Effect as spec;
ghost use Rattle.guest_call.specs.Threads.{creates};

use super::queue::Queue;
use guest_call::Fate;
use std::marker::Model;

/// What a call does to the threads: to its caller, to those that waited, and to one that it creates.
#[derive(Drop)]
pub struct Effect {
    fate: Fate,
    woken: Queue,
    reported: Option<u32>,
    created: Option<(u32, u32)>,
}

impl Model for Effect {
    ghost use Rattle.guest_call.specs.Effect as spec;

    ghost Value = { spec.Effect };

    ghost view = { λ e. record { fate = e.fate; woken = e.woken; reported = e.reported; created = e.created } };
}

impl Effect {
    /// A fate of the caller, with these threads woken.
    pub fn wakes(fate: Fate, woken: Queue) -> Effect
        ensures { result ≡ spec.wakes fate woken }
    {
        Effect {
            fate,
            woken,
            reported: None,
            created: None,
        }
    }

    /// The caller returns at once with this answer in a0, and nothing else happens.
    pub fn answers(answer: u32) -> Effect
        ensures { result ≡ spec.answers answer }
    {
        Effect::wakes(Fate::Returns(answer, None), Queue::empty())
    }

    /// The caller waits, and nothing else happens.
    pub fn blocks() -> Effect
        ensures { result ≡ spec.blocks }
    {
        Effect::wakes(Fate::Blocks, Queue::empty())
    }

    /// The run ends with this code.
    pub fn exits(code: u32) -> Effect
        ensures { result ≡ spec.exits code }
    {
        Effect::wakes(Fate::Exits(code), Queue::empty())
    }

    /// The caller ends with this value, which the woken threads receive.
    pub fn ends(value: u32, woken: Queue) -> Effect
        ensures { result
            ≡ record { fate = Fate.Ends value; woken = woken; reported = Some value; created = None } }
    {
        Effect {
            fate: Fate::Ends(value),
            woken,
            reported: Some(value),
            created: None,
        }
    }

    /// The caller returns the number of a thread that is created, with its first pc and its argument.
    pub fn creates(number: u32, pc: u32, argument: u32) -> Effect
        ensures { result ≡ creates number pc argument }
    {
        Effect {
            fate: Fate::Returns(number, None),
            woken: Queue::empty(),
            reported: None,
            created: Some((pc, argument)),
        }
    }

    /// What becomes of the caller.
    pub fn fate(&self) -> Fate
        ensures { result ≡ self.now.fate }
    {
        self.fate
    }

    /// The woken threads, in order. Each returns 0 in a0.
    pub fn woken(&self) -> &Queue
        ensures { result.now ≡ self.now.woken }
    {
        &self.woken
    }

    /// The woken threads, in order. Consumes the effect.
    pub fn into_woken(self) -> Queue
        ensures { result ≡ self.woken }
    {
        self.woken
    }

    /// What the woken threads receive in a1, if anything.
    pub fn reported(&self) -> Option<u32>
        ensures { result ≡ self.now.reported }
    {
        self.reported
    }

    /// The first pc and the argument of a thread that is created.
    pub fn created(&self) -> Option<(u32, u32)>
        ensures { result ≡ self.now.created }
    {
        self.created
    }
}
