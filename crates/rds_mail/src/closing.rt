//! Putters that end.
ghost use Rattle.std.specs.Prelude.{◌≡◌, ◌++◌, ℕ, Option, All, map};
ghost use Rattle.rds_mail.specs.Passes.{after_join, with_joined, account_of};
ghost use Rattle.rds_mail.specs.Learning.{IsRuled};
ghost use Rattle.rds_mail.specs.Merging.{AllBegin, AreAll, IsMerged, IsKeyed, KeysBegin};
ghost use Rattle.rds_mail.specs.Numbers.{Number};

use crate::mail::Mail;
use crate::pass::{GetPass, PutPass};
use crate::plays::{Comparing, Joining};
use std::sync::Wait;

impl<T: Drop> Mail<T> {
    /// Ends a putter. The getter keeps what it has put.
    pub fn join(&self, get: &mut GetPass<T>, put: PutPass<T>)
        requires get { get.old.mail ≡ self.now.line }
        requires put { put.mail ≡ self.now.line }
        ensures { get.new ≡ after_join get.old put }
    {
        let PutPass { pass } = put;
        self.queue.absorb::<Joining>(&mut get.pass, pass);
    }

    /// Shows what was got of each putter that has ended, and once all have ended that nothing else was got.
    pub fn compare<R: Wait>(&self, rt: &R, get: &mut GetPass<T>)
        requires { get.old.mail ≡ self.now.line }
        ensures same { get.new ≡ get.old }
        ensures rule { IsRuled get.new }
        ensures begin { AllBegin get.new.got get.new.joined }
        ensures merged { AreAll get.new.joined → IsMerged get.new.got get.new.joined }
    {
        self.queue.len_as::<Comparing, R>(rt, &mut get.pass);
    }

    /// Ends these putters. Once all have ended, what was got is a prefix of a merge of what they put.
    pub fn close<R: Wait>(&self, rt: &R, get: &mut GetPass<T>, puts: Vec<PutPass<T>>)
        requires get { get.old.mail ≡ self.now.line }
        requires puts { All (λ p. p.mail ≡ self.now.line) puts.items }
        ensures joined { get.new ≡ with_joined get.old (map account_of puts.items) }
        ensures begin { AllBegin get.new.got get.new.joined }
        ensures merged { AreAll get.new.joined → IsMerged get.new.got get.new.joined }
    {
        for put in puts {
            self.join(get, put);
        }
        self.compare(rt, get);
    }

    /// Ends these putters, which are then all. Where each put only items of its own mark or of none, what was got of each
    /// mark is a prefix of what its putter put of it.
    pub fn gather_keyed<R: Wait>(&self, rt: &R, get: &mut GetPass<T>, puts: Vec<PutPass<T>>)
        requires get { get.old.mail ≡ self.now.line }
        requires puts { All (λ p. p.mail ≡ self.now.line) puts.items }
        requires all { AreAll (get.old.joined ++ map account_of puts.items) }
        ensures joined { get.new ≡ with_joined get.old (map account_of puts.items) }
        ensures merged { IsMerged get.new.got get.new.joined }
        ensures keyed { (key : T → Option ℕ) (mark : Number → ℕ) → IsKeyed key mark get.new.joined → KeysBegin key mark get.new.got get.new.joined }
    {
        self.close(rt, get, puts);
    }
}
