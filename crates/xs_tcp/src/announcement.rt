//! A line that reports that the server listens, written once every thread has started. A thread of its own writes it:
//! its reader may be slow, and no connection waits for that.
use std::alloc::{AllocError, Global};
use std::sync::{Arc, Wait};
use std::thread;
use std::thread::{Parker, Threads};
use xs_io::{Sink, write_all};

/// Wakes the thread that writes the line.
#[derive(Drop)]
pub struct Announcement {
    // None once it was woken.
    thread: Option<Arc<Parker>>,
}

/// Writes the line once the thread is woken. A fault of the writer is ignored.
fn write_when_woken<W: Sink + Drop, R: Wait>(rt: &R, parker: &Parker, out: W, line: &[u8]) {
    parker.park(rt);
    let mut out = out;
    let _ = write_all(&mut out, line);
}

impl Announcement {
    /// Starts the thread that writes this line. The end of the program doesn't wait for it.
    pub fn new<W: Sink + Send + Drop + 'static, R: Threads + Wait + Copy + Send + Drop + 'static>(
        rt: &R,
        alloc: Global,
        out: W,
        line: Vec<u8>,
    ) -> Result<Announcement, AllocError> {
        let parker = Arc::new(alloc, Parker::new())?;
        let waker = Arc::try_clone(&parker)?;
        let handle = *rt;
        match thread::spawn(
            rt,
            move || write_when_woken(&handle, &waker, out, line.as_slice()),
        ) {
            Ok(_) => Ok(Announcement {
                thread: Some(parker),
            }),
            Err(_) => Err(AllocError),
        }
    }

    /// A second handle of the same thread. It takes no memory.
    pub fn again(&self) -> Result<Announcement, AllocError> {
        match &self.thread {
            Some(parker) => Ok(Announcement {
                thread: Some(Arc::try_clone(parker)?),
            }),
            None => Ok(Announcement { thread: None }),
        }
    }

    /// Wakes the thread, unless this handle has done so before.
    pub fn make(&mut self) {
        if let Some(parker) = self.thread.take() {
            parker.unpark();
        }
    }
}
