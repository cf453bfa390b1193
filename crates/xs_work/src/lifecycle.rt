//! When workers begin and the keeper ends.
use std::sync::atomic::{AtomicBool, AtomicUsize, Ordering};
use std::sync::{Condvar, Mutex, Wait};
use xs_desk::Waker;

/// The state in which workers wait to begin.
#[derive(Clone, Copy, Debug, PartialEq, Eq)]
enum Word {
    /// They wait.
    Wait,
    /// All threads were started.
    Begin,
    /// A thread wasn't started.
    GiveUp,
}

/// The lifecycle of a pool of workers and their keeper. No contract depends on it.
#[derive(Drop)]
pub struct Lifecycle {
    word: Mutex<Word>,
    told: Condvar,
    // The number of workers that haven't ended.
    at_work: AtomicUsize,
    ended: AtomicBool,
    // Wakes the keeper.
    waker: Waker,
}

impl Lifecycle {
    /// The lifecycle of this number of workers, which wait to begin. `waker` wakes their keeper.
    pub fn new(workers: usize, waker: Waker) -> Lifecycle {
        Lifecycle {
            word: Mutex::new(Word::Wait),
            told: Condvar::new(),
            at_work: AtomicUsize::new(workers),
            ended: AtomicBool::new(false),
            waker,
        }
    }

    /// All threads were started: workers may begin.
    pub fn begin<R: Wait>(&self, rt: &R) {
        *self.word.lock(rt) = Word::Begin;
        self.told.notify_all();
    }

    /// A thread wasn't started: workers end before their first connection, and the keeper may end.
    pub fn give_up<R: Wait>(&self, rt: &R) {
        *self.word.lock(rt) = Word::GiveUp;
        self.told.notify_all();
        self.end();
    }

    /// The keeper may end.
    fn end(&self) {
        self.ended.store(true, Ordering::SeqCst);
        self.waker.wake();
    }

    /// A worker has ended. After the last one the keeper may end.
    pub fn end_worker(&self) {
        if self.at_work.fetch_sub(1, Ordering::SeqCst) == 1 {
            self.end();
        }
    }

    /// Whether the keeper may end.
    pub fn has_ended(&self) -> bool {
        self.ended.load(Ordering::SeqCst)
    }

    /// Waits until all threads are started. Returns whether the work begins.
    pub fn wait_to_begin<R: Wait>(&self, rt: &R) -> bool {
        let word = self
            .told
            .wait_while(rt, self.word.lock(rt), |word| *word == Word::Wait);
        *word == Word::Begin
    }
}
