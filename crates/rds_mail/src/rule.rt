use crate::view::View;
use crossbeam_queue::protocol::Protocol;

// What holds of the queue and of all views between any two atomic steps.
pub(crate) struct MailRule;

impl<T> Protocol<T, View<T>> for MailRule {
    ghost use Rattle.rds_mail.specs.Shared.{IsMailed};
    ghost use Rattle.rds_mail.specs.Views.{first_view};

    ghost holds = { IsMailed };

    ghost first = { first_view };
}
