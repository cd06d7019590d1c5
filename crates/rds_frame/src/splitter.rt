ghost use Rattle.std.specs.Prelude.{◌≡◌, ◌↔◌, IfOk, OnOk, IsOk, IsSome, IsErrOf};
ghost use Rattle.std.specs.Option.{option_copied};
ghost use Rattle.rds_wire.specs.declared.kind.Malformed.{Malformed};
ghost use Rattle.rds_frame.specs.Holding.{HoldsAtMostOneFrame, nothing_held};
ghost use Rattle.rds_frame.specs.Taking.{RefusesPiece, TakesPiece};

use crate::body::Body;
use crate::head::{fault_of, fill};
use crate::{FrameError, Took};
use rds_wire::{Frame, Header, Memory, decode};
use std::alloc::Global;
use std::marker::Model;

/// A reader of frames from a stream that comes in pieces.
#[derive(Drop)]
pub struct Splitter {
    head: [u8; 48],
    came: usize,
    body: Body,
    waiting: Option<Frame>,
    refused: Option<Header>,
}

impl Model for Splitter {
    ghost use Rattle.std.specs.Prelude.{◌++◌, take};
    ghost use Rattle.rds_frame.specs.Holding.{SplitterView};

    ghost Value = { SplitterView };

    ghost use Rattle.rds_frame.specs.Fields.{IsSplitter};

    ghost view = { λ s. record {
      rest = take s.came s.head ++ s.body;
      waiting = s.waiting;
      refused = s.refused;
    } };

    ghost invariant = { λ s. IsSplitter s.head s.came s.body s.waiting s.refused };
}

impl Splitter {
    /// A splitter that has taken no byte.
    ///
    /// # Errors
    ///
    /// It never fails, since it takes no memory yet.
    pub fn new(alloc: Global) -> Result<Splitter, Memory>
        ensures ok { IsOk result }
        ensures fresh { IfOk result (λ s. s ≡ nothing_held) }
    {
        Ok(Splitter {
            head: [0; 48],
            came: 0,
            body: Body::new(alloc),
            waiting: None,
            refused: None,
        })
    }

    /// Forgets all, as if it had taken no byte. The room for a payload stays.
    pub fn wipe(&mut self)
        ensures { self.new ≡ nothing_held }
    {
        self.came = 0;
        self.body.clear();
        self.waiting = None;
        self.refused = None;
    }

    /// Takes the bytes of a piece until the piece ends or a frame is whole, and says how many it took and whether a frame
    /// waits. While one waits it takes nothing: call `done` first. A header is checked as soon as its 48th byte comes,
    /// `highest` being the highest number that the reader has ever pulled, and `known` the greatest generation that it has
    /// ever read, or 0.
    ///
    /// # Errors
    ///
    /// `Malformed` where a header became whole and was refused, with the cause: the splitter is closed from then on, until
    /// `wipe`. `Closed` where it was closed before. `Memory` where there is no memory for the payload: no byte was taken,
    /// and the same call may be tried again.
    pub fn take(&mut self, piece: &[u8], highest: u64, known: u32) -> Result<Took, FrameError>
        ensures ok { IfOk result (λ took. TakesPiece highest known self.old piece.now took self.new) }
        ensures waiting { IsSome self.old.waiting → OnOk result (self.new ≡ self.old) }

        ensures malformed { (fault : Malformed) → result ≡ Err (FrameError.Malformed fault)
            → RefusesPiece highest known self.old piece.now fault self.new }
        ensures closed { IsErrOf result FrameError.Closed ↔ IsSome self.old.refused }
        ensures closed_still { IsSome self.old.refused → self.new ≡ self.old }
        ensures memory { IsErrOf result FrameError.Memory → self.new ≡ self.old }

        ensures held { HoldsAtMostOneFrame self.new }
    {
        if self.refused.is_some() {
            return Err(FrameError::Closed);
        }
        if self.waiting.is_some() {
            return Ok(Took {
                used: 0,
                ready: true,
            });
        }
        self.take_next(piece, highest, known)
    }

    fn take_next(&mut self, piece: &[u8], highest: u64, known: u32) -> Result<Took, FrameError>
        requires not_closed { self.old.refused ≡ None }
        requires none_waits { self.old.waiting ≡ None }
        ensures ok { IfOk result (λ took. TakesPiece highest known self.old piece.now took self.new) }
        ensures malformed { (fault : Malformed) → result ≡ Err (FrameError.Malformed fault)
            → RefusesPiece highest known self.old piece.now fault self.new }
        ensures not_closed { IsErrOf result FrameError.Closed → ⊥ }
        ensures memory { IsErrOf result FrameError.Memory → self.new ≡ self.old }
        ensures held { HoldsAtMostOneFrame self.new }
    {
        let filled = fill(&mut self.head, self.came, piece);
        if self.came + filled < 48 {
            self.came += filled;
            return Ok(Took {
                used: filled,
                ready: false,
            });
        }
        let header = decode(&self.head);
        if let Some(fault) = fault_of(&header, self.came, highest, known) {
            self.came = 48;
            self.refused = Some(header);
            return Err(FrameError::Malformed(fault));
        }
        let len = header.len as usize;
        let missing = len - self.body.len();
        match self.body.advance(len, &piece[filled..])? {
            None => {
                self.came = 48;
                Ok(Took {
                    used: piece.len(),
                    ready: false,
                })
            }
            Some(payload) => {
                self.came = 0;
                self.waiting = Some(Frame { header, payload });
                Ok(Took {
                    used: filled + missing,
                    ready: true,
                })
            }
        }
    }

    /// The whole frame that waits.
    pub fn ready(&self) -> Option<&Frame>
        ensures frame { option_copied result ≡ self.now.waiting }
        ensures held { HoldsAtMostOneFrame self.now }
    {
        self.waiting.as_ref()
    }

    /// Hands the whole frame out that waits.
    pub fn done(&mut self) -> Option<Frame>
        ensures frame { result ≡ self.old.waiting }
        ensures after { self.new ≡ record self.old { waiting = None } }
        ensures held { HoldsAtMostOneFrame self.new }
    {
        self.waiting.take()
    }

    /// The header that was refused.
    pub fn refused(&self) -> Option<&Header>
        ensures header { option_copied result ≡ self.now.refused }
        ensures held { HoldsAtMostOneFrame self.now }
    {
        self.refused.as_ref()
    }
}
