ghost use Rattle.std.specs.Prelude.{◌≡◌, ◌<◌, [], ◌∷◌, None, IsSome, IfSome};
ghost use Rattle.rds_model.specs.declared.entry.Entry.TheVariants as entry;
ghost use Rattle.rds_model.specs.Past.{newest_stream};
ghost use Rattle.rds_conn.specs.Connection.{IsReady, with_entries, stream_of};

use super::Conn;
use crate::asking::Asking;
use rds_model::Entry;

impl Conn {
    /// The number of the open stream, if one is.
    pub fn stream(&self) -> Option<u32>
        ensures { result ≡ stream_of self.now }
    {
        self.stream
    }

    /// A stream to the peer was opened, and none was open. Its number is above those before it. All datagrams that are
    /// alive are to be pulled on it, behind the map.
    pub fn open(&mut self, stream: u32)
        requires ready { IsReady self.old }
        requires closed { stream_of self.old ≡ None }
        requires newer { newest_stream self.old.log.past < stream }
        ensures { self.new ≡ with_entries (entry.Open stream ∷ []) self.old }
    {
        self.journal.push(Entry::Open { stream });
        self.spare -= 1;
        self.newest = stream;
        self.stream = Some(stream);
        self.mapped = false;
        self.asking = Asking::new();
    }

    /// The open stream is shut. What was taken of it and isn't passed is given up.
    pub fn shut(&mut self)
        requires ready { IsReady self.old }
        requires on { IsSome (stream_of self.old) }
        ensures { IfSome (stream_of self.old) (λ s. self.new ≡
            record (with_entries (entry.Shut s ∷ []) self.old) { waiting = None; rest = [] }) }
    {
        let Some(stream) = self.stream else {
            return;
        };
        self.journal.push(Entry::Shut { stream });
        self.spare -= 1;
        self.stream = None;
        self.splitter.wipe();
        self.store.reset();
    }
}
