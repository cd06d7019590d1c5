ghost use Rattle.std.specs.Prelude.{◌≡◌, ◌≢◌, ℕ, ◌<◌, ◌≤◌, ◌+◌, ◌^◌, max, length, get_or};
ghost use Rattle.std.specs.Vec.{vec_capacity};
ghost use Rattle.rds_msgs.specs.Kept.{no_message};

use rds_model::Msg;
use rds_msgs_lists::Index;

/// The message of an index.
pub(crate) fn message(items: &[Msg], at: Index) -> Msg
    requires within { at < length items.now }
    ensures { result ≡ get_or items.now at no_message }
{
    items[at.get() as usize]
}

/// The bytes of a message.
pub(crate) fn bytes(m: Msg) -> u64
    ensures bytes { result ≡ m.len }
    ensures few { result < 2 ^ 32 }
{
    u64::from(m.len)
}

/// Writes the message of an index, for which there is one or room for one.
pub(crate) fn put(items: &mut Vec<Msg>, at: Index, m: Msg)
    requires within { at ≤ length items.old.items }
    requires room { at ≡ length items.old.items → at < vec_capacity items.old }
    ensures here { get_or items.new.items at no_message ≡ m }
    ensures others { (k : ℕ) → k ≢ at → k < length items.old.items → get_or items.new.items k no_message ≡ get_or items.old.items k no_message }
    ensures len { length items.new.items ≡ max (length items.old.items) (at + 1) }
    ensures capacity { vec_capacity items.new ≡ vec_capacity items.old }
{
    let k = at.get() as usize;
    if k < items.len() {
        items[k] = m;
    } else {
        items.push_reserved(m);
    }
}
