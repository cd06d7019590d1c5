//! What an end shares with its two threads: the TCP stream, flags, and bells on which each of them sleeps.
ghost use Rattle.std.specs.Prelude.{◌≡◌, true};
ghost use Rattle.std.specs.Arc.{arc_value};

use crate::broken::Break;
use crate::standing::TcpStanding;
use std::alloc::{AllocError, Global};
use std::net::{Shutdown, TcpStream};
use std::sync::atomic::{AtomicBool, Ordering};
use std::sync::{Arc, OnceLock, OnceToken, Wait};
use std::thread::Parker;
use std::time::Duration;

/// For how many milliseconds a line that can't move a byte sleeps at most before it looks again.
const LONGEST_REST: u64 = 1;

/// One of the two threads: its bell, and whether it has ended.
#[derive(Drop)]
pub(crate) struct Hand {
    bell: Parker,
    end: OnceLock<()>,
}

impl Hand {
    fn new() -> Hand {
        Hand {
            bell: Parker::new(),
            end: OnceLock::new(),
        }
    }

    /// The thread sleeps here until its bell is rung.
    pub(crate) fn sleep<R: Wait>(&self, rt: &R) {
        self.bell.park(rt);
    }
}

/// What shows that both threads have ended.
#[derive(Drop)]
pub(crate) struct Ended<'a> {
    reader: OnceToken<'a, ()>,
    writer: OnceToken<'a, ()>,
}

/// What an end, its reader and its writer share.
#[derive(Drop)]
pub(crate) struct Shared {
    tcp: TcpStream,
    broken: OnceLock<Break>,
    is_closing: AtomicBool,
    has_stopped: AtomicBool,
    wants_room: AtomicBool,
    line: Parker,
    closer: Parker,
    pub(crate) reader: Hand,
    pub(crate) writer: Hand,
}

impl Shared {
    fn new(tcp: TcpStream) -> Shared {
        Shared {
            tcp,
            broken: OnceLock::new(),
            is_closing: AtomicBool::new(false),
            has_stopped: AtomicBool::new(false),
            wants_room: AtomicBool::new(false),
            line: Parker::new(),
            closer: Parker::new(),
            reader: Hand::new(),
            writer: Hand::new(),
        }
    }

    /// The TCP stream, from which the reader reads and to which the writer writes.
    pub(crate) fn stream(&self) -> &TcpStream {
        &self.tcp
    }

    /// Whether the end closes: what waits is still to be written, and nothing more comes.
    pub(crate) fn is_closing(&self) -> bool {
        self.is_closing.load(Ordering::SeqCst)
    }

    /// Whether the end has stopped its threads.
    pub(crate) fn has_stopped(&self) -> bool {
        self.has_stopped.load(Ordering::SeqCst)
    }

    /// Wakes the line, for which bytes came.
    pub(crate) fn ring_line(&self) {
        self.line.unpark();
    }

    /// Notes that the TCP stream has ended, or that a call on it failed. Only the first note counts.
    pub(crate) fn note_broken(&self, broken: Break) {
        let _ = self.broken.try_set(broken);
        self.line.unpark();
    }

    /// Wakes the line where it had found no room in the ring, since there is room again.
    pub(crate) fn note_room(&self) {
        if self.wants_room.swap(false, Ordering::SeqCst) {
            self.line.unpark();
        }
    }

    /// Notes that this thread has ended: its last step.
    pub(crate) fn note_end(&self, hand: &Hand) {
        let _ = hand.end.try_set(());
        self.closer.unpark();
    }

    // Ends the TCP stream, which wakes a thread in a call on it, and wakes one that sleeps.
    fn stop(&self) {
        self.has_stopped.store(true, Ordering::SeqCst);
        let _ = self.tcp.shutdown(Shutdown::Both);
        self.reader.bell.unpark();
        self.writer.bell.unpark();
    }

    // Waits until the thread has ended, and shows that it has noted so.
    fn await_end<'a, R: Wait>(&self, rt: &R, hand: &'a Hand) -> OnceToken<'a, ()>
        ensures { result.of ≡ hand.now.end.id }
    {
        for _ in rt.forever() {
            if let Some(token) = hand.end.witness() {
                return token;
            }
            self.closer.park(rt);
        }
        unreachable!()
    }
}

/// An end's own hold of what it shares. Both threads end once it is dropped.
pub(crate) struct Pipe {
    shared: Arc<Shared>,
}

impl Drop for Pipe {
    fn drop(self) {
        let Pipe { shared } = self;
        shared.stop();
    }
}

impl Pipe {
    pub(crate) fn new(alloc: Global, tcp: TcpStream) -> Result<Pipe, AllocError> {
        Ok(Pipe {
            shared: Arc::new(alloc, Shared::new(tcp))?,
        })
    }

    /// What a thread holds of the pipe.
    pub(crate) fn share(&self) -> Result<Arc<Shared>, AllocError> {
        Arc::try_clone(&self.shared)
    }

    /// What shows that the TCP stream has broken, once it has.
    pub(crate) fn broken(&self) -> Option<Break> {
        self.shared.broken.get().copied()
    }

    /// Wakes the reader, for whose bytes there is room in the ring.
    pub(crate) fn ring_reader(&self) {
        self.shared.reader.bell.unpark();
    }

    /// Wakes the writer, for which bytes came.
    pub(crate) fn ring_writer(&self) {
        self.shared.writer.bell.unpark();
    }

    /// Notes that the line found no room in the ring, and is to be woken once there is some.
    pub(crate) fn note_full(&self) {
        self.shared.wants_room.store(true, Ordering::SeqCst);
    }

    /// The line sleeps here until it is woken, for `LONGEST_REST` milliseconds at most.
    pub(crate) fn rest<R: Wait>(&self, rt: &R) {
        self.shared
            .line
            .park_timeout(rt, Duration::from_millis(LONGEST_REST));
    }

    /// Ends the TCP stream and both threads. An end calls it only once it has shut, so that a peer whose TCP stream ends finds the
    /// shut and counts no fault. Where an end is dropped without a shut, its peer counts one.
    pub(crate) fn stop(&self, standing: &TcpStanding)
        requires shut { standing.now.stand.is_shut ≡ true }
    {
        self.shared.stop();
    }

    /// Returns once what waits for the writer is written, or the TCP stream has ended, or the peer has let it wait too long.
    pub(crate) fn drain<R: Wait>(&self, rt: &R) {
        self.shared.is_closing.store(true, Ordering::SeqCst);
        self.shared.writer.bell.unpark();
        self.shared.await_end(rt, &self.shared.writer);
    }

    /// Returns once both threads have ended, which it shows.
    pub(crate) fn await_threads<R: Wait>(&self, rt: &R) -> Ended<'_>
        ensures reader { result.reader.of ≡ (arc_value self.now.shared).reader.end.id }
        ensures writer { result.writer.of ≡ (arc_value self.now.shared).writer.end.id }
    {
        let shared = &*self.shared;
        Ended {
            reader: shared.await_end(rt, &shared.reader),
            writer: shared.await_end(rt, &shared.writer),
        }
    }
}
