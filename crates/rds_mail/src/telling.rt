//! Notes of what was put.
ghost use Rattle.std.specs.Prelude.{◌≡◌};
ghost use Rattle.rds_mail.specs.Passes.{after_note};

use crate::mail::Mail;
use crate::pass::{GetPass, Note, PutPass};
use crate::plays::{Noting, Telling};

impl<T: Drop> Mail<T> {
    /// A note of what the pass has put so far.
    pub fn note(&self, pass: &mut PutPass<T>) -> Note<T>
        requires { pass.old.mail ≡ self.now.line }
        ensures same { pass.new ≡ pass.old }
        ensures note { result ≡ pass.old }
    {
        let note = self.queue.another::<Noting>(&mut pass.pass);
        Note { pass: note }
    }

    /// The getter is told of the note: a later `get` that answers `None` shows that all items of it were got.
    pub fn learn(&self, get: &mut GetPass<T>, note: Note<T>)
        requires get { get.old.mail ≡ self.now.line }
        requires note { note.mail ≡ self.now.line }
        ensures { get.new ≡ after_note get.old note }
    {
        let Note { pass } = note;
        self.queue.absorb::<Telling>(&mut get.pass, pass);
    }
}
