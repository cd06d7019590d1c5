//! The thread that starts the threads of all ends of a wire and joins them. The handle of a thread can't move, and an end does; so
//! no end holds those of its own threads.
ghost use Rattle.std.specs.Prelude.{◌≡◌, ◌↔◌, ◌+◌, IfOk, OnOk};
ghost use Rattle.std.specs.IoError.{error_kind};
ghost use Rattle.rds_tcp.specs.Threads.{HaveEnded, unjoined};

use crate::dialing::dial;
use crate::handles::Handles;
use crate::pipe::Pipe;
use crate::pumps::{run_reader, run_writer};
use crate::rings::Far;
use crossbeam_channel::{Receiver, SendError, Sender, bounded};
use rds_link::WireError;
use std::alloc::Global;
use std::io;
use std::io::ErrorKind;
use std::net::{Net, TcpListener, TcpStream};
use std::sync::Wait;
use std::thread::Threads;

/// What the threads of the two ends of a stream are to hold of the ends' rings.
type Job = (Far, Far);

/// What each of the two ends shares with its threads, or why there are none.
type Answer = Result<(Pipe, Pipe), WireError>;

/// The thread that starts and joins all others, and the channels to it and back.
pub(crate) struct Crew {
    jobs: Sender<Job>,
    answers: Receiver<Answer>,
    thread: Handles,
}

impl Crew {
    /// Starts the crew's thread.
    ///
    /// # Errors
    ///
    /// Where there is no memory for the channels to it, or the thread is refused, which is a fault.
    pub(crate) fn new<
        R: Threads + Wait + Net<Listener = TcpListener, Stream = TcpStream> + Copy + Send + 'static,
    >(rt: &R, alloc: Global) -> Result<Crew, WireError>
        ensures thread { IfOk result (λ crew. unjoined crew.thread ≡ 1) }
    {
        let (Ok((jobs, orders)), Ok((replies, answers))) = (bounded(alloc, 1), bounded(alloc, 1))
        else {
            return Err(WireError::Memory);
        };
        let own = *rt;
        let mut thread = Handles::new(alloc);
        if let Err(cause) = thread.start(rt, move || serve(own, alloc, orders, replies)) {
            thread.join(rt);
            return Err(cause);
        }
        Ok(Crew {
            jobs,
            answers,
            thread,
        })
    }

    /// Connects two TCP streams and starts the threads of their ends.
    pub(crate) fn open<R: Wait>(&self, rt: &R, job: Job) -> Answer {
        match self.jobs.send(rt, job) {
            Ok(()) => self.answers.recv(rt).unwrap_or(Err(WireError::Fault)),
            Err(SendError::OutOfMemory(_)) => Err(WireError::Memory),
            Err(SendError::Disconnected(_)) => Err(WireError::Fault),
        }
    }

    /// Returns once all threads have ended.
    pub(crate) fn finish<R: Threads>(self, rt: &R)
        ensures ended { HaveEnded self.thread }
    {
        let Crew {
            jobs,
            answers,
            thread,
        } = self;
        drop(jobs);
        drop(answers);
        thread.join(rt);
    }
}

// What the crew's thread does: it opens a stream for each job, and joins all threads once the crew finishes.
fn serve<
    R: Threads + Wait + Net<Listener = TcpListener, Stream = TcpStream> + Copy + Send + 'static,
>(rt: R, alloc: Global, jobs: Receiver<Job>, replies: Sender<Answer>) {
    let mut threads = Handles::new(alloc);
    for _ in rt.forever() {
        let Ok(job) = jobs.recv(&rt) else {
            break;
        };
        let answer = open(rt, alloc, &mut threads, job);
        if replies.send(&rt, answer).is_err() {
            break;
        }
    }
    threads.join(&rt);
}

// Connects two TCP streams and starts the four threads of their ends.
fn open<
    R: Threads + Wait + Net<Listener = TcpListener, Stream = TcpStream> + Copy + Send + 'static,
>(rt: R, alloc: Global, threads: &mut Handles, job: Job) -> Answer
    ensures started { OnOk result (unjoined threads.new ≡ unjoined threads.old + 4) }
{
    let (low, high) = match dial(&rt) {
        Ok(streams) => streams,
        Err(error) => return Err(cause_of(&error)),
    };
    let (low_far, high_far) = job;
    let low = attended(rt, alloc, threads, low, low_far)?;
    let high = attended(rt, alloc, threads, high, high_far)?;
    Ok((low, high))
}

// Want of memory counts as no fault of the wire.
fn cause_of(error: &io::Error) -> WireError
    ensures { result ≡ WireError.Memory ↔ error_kind error.now ≡ ErrorKind.OutOfMemory }
{
    if error.kind() == ErrorKind::OutOfMemory {
        WireError::Memory
    } else {
        WireError::Fault
    }
}

// Starts the reader and the writer of an end. Where the second is refused the first ends, since the pipe is dropped.
fn attended<R: Threads + Wait + Copy + Send + 'static>(
    rt: R,
    alloc: Global,
    threads: &mut Handles,
    tcp: TcpStream,
    far: Far,
) -> Result<Pipe, WireError>
    ensures started { OnOk result (unjoined threads.new ≡ unjoined threads.old + 2) }
{
    let Ok(pipe) = Pipe::new(alloc, tcp) else {
        return Err(WireError::Memory);
    };
    let (Ok(one), Ok(other)) = (pipe.share(), pipe.share()) else {
        return Err(WireError::Memory);
    };
    let Far { incoming, outgoing } = far;
    threads.start(&rt, move || run_reader(&rt, &one, incoming))?;
    threads.start(&rt, move || run_writer(&rt, &other, outgoing))?;
    Ok(pipe)
}
