//! The steps on the words.
ghost use Rattle.std.specs.Prelude.{◌≡◌, ◌<◌, ◌≤◌, ◌^◌, IfOk, IfErr, IfSome, IsSome, Some, None};
ghost use Rattle.rds_bindtab.specs.Seats.{knowing, after_draw, after_exchange, after_release, after_look};
ghost use Rattle.rds_bindtab.specs.Shared.{IsAlone};
ghost use Rattle.rds_bindtab.specs.Answers.{ClaimFits, after_claim};

use crate::error::{BindError, NoSlot};
use crate::plays::{Claim, Draw, Look, Release};
use crate::seat::BindSeat;
use crate::table::{BindTable, DRAW_WORD};

impl BindTable {
    /// Draws a number by one fetch and add. It is the seat's slot if the table has it. A seat that counts for all, as the
    /// first one does until it splits off a seat that may draw, draws 0, 1, 2 and so on.
    ///
    /// # Errors
    ///
    /// `NoSlot` where the number that was drawn names no slot of the table.
    pub fn draw(&self, seat: &mut BindSeat) -> Result<u16, NoSlot>
        requires table { seat.old.table ≡ self.now }
        requires slot { seat.old.view.slot ≡ None }
        requires draws { seat.old.view.draws < 2 ^ 31 }
        ensures slot { IfOk result (λ slot. seat.new.view.slot ≡ Some slot) }
        ensures ok { IfOk result (λ slot. (slot < self.now.slots) × (seat.new ≡ knowing seat.old (after_draw seat.old.view slot))) }
        ensures none { IfErr result (λ e. (self.now.slots ≤ e.found) × (seat.new ≡ knowing seat.old (after_draw seat.old.view e.found))) }
        ensures next { IsAlone seat.old.view → IfOk result (λ slot. slot ≡ seat.old.view.draws) }
        ensures over { IsAlone seat.old.view → IfErr result (λ e. e.found ≡ seat.old.view.draws) }
    {
        let found = self
            .table
            .shared
            .fetch_add::<Draw>(&mut seat.seat, DRAW_WORD, 1);
        if found >= u64::from(self.slots) {
            return Err(NoSlot { found });
        }
        let slot = found as u16;
        seat.slot = Some(slot);
        Ok(slot)
    }

    /// Claims a port for the seat's slot by one compare and exchange, which finds a free port's word to be 0.
    ///
    /// # Errors
    ///
    /// `Reserved` for ports 0 and 1, and `InUse` where the port's word was found to be another number than 0, with that
    /// number. It never answers `NoneFree`.
    pub fn claim(&self, seat: &mut BindSeat, port: u16) -> Result<(), BindError>
        requires table { seat.old.table ≡ self.now }
        requires slot { IsSome seat.old.view.slot }
        requires port { seat.old.view.port ≡ None }
        ensures answer { ClaimFits port result }
        ensures seat { seat.new ≡ knowing seat.old (after_claim seat.old.view port result) }
    {
        if port < 2 {
            return Err(BindError::Reserved { port });
        }
        let word = self.exchange(seat, port);
        if word != 0 {
            return Err(BindError::InUse { word });
        }
        Ok(())
    }

    // The number that the exchange found.
    fn exchange(&self, seat: &mut BindSeat, port: u16) -> u64
        requires table { seat.old.table ≡ self.now }
        requires slot { IsSome seat.old.view.slot }
        requires port { seat.old.view.port ≡ None }
        ensures { seat.new ≡ knowing seat.old (after_exchange seat.old.view port result) }
    {
        let slot = u64::from(seat.slot.unwrap_or(0));
        let shared = &self.table.shared;
        let found = shared.compare_exchange::<Claim>(
            &mut seat.seat,
            usize::from(port),
            0,
            1 + slot,
        );
        if found == 0 {
            seat.port = Some(port);
        }
        found
    }

    /// Gives the port back by one store.
    pub fn release(&self, seat: &mut BindSeat)
        requires table { seat.old.table ≡ self.now }
        requires port { IsSome seat.old.view.port }
        ensures { seat.new ≡ knowing seat.old (after_release seat.old.view) }
    {
        let Some(port) = seat.port else {
            unreachable!()
        };
        let shared = &self.table.shared;
        shared.store::<Release>(&mut seat.seat, usize::from(port), 0);
        seat.port = None;
    }

    /// The slot that one load found in the port's word, or `None` where it found 0.
    pub fn look(&self, seat: &mut BindSeat, port: u16) -> Option<u16>
        requires { seat.old.table ≡ self.now }
        ensures slot { IfSome result (λ slot. slot < self.now.slots) }
        ensures seat { seat.new ≡ knowing seat.old (after_look seat.old.view port result) }
    {
        let shared = &self.table.shared;
        let word = shared.load::<Look>(&mut seat.seat, usize::from(port));
        if word == 0 {
            return None;
        }
        Some((word - 1) as u16)
    }
}
