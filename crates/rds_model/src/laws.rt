ghost use Rattle.std.specs.Prelude.{◌≡◌, ◌≢◌, ◌<◌, ◌≤◌, ◌+◌, ◌*◌, ℕ, List, [], ◌∷◌, ◌++◌, Some, None, true, length, sum_by, codes, Contains, All};
ghost use Rattle.rds_wire.specs.declared.frame.Frame.{Frame};
ghost use Rattle.rds_wire.specs.declared.header.Header.{Header};
ghost use Rattle.rds_wire.specs.declared.kind.Malformed.{Malformed};
ghost use Rattle.rds_wire.specs.declared.kind.TheConstants.{MAP_LENGTH, MAX_LENGTH};
ghost use Rattle.rds_wire.specs.Bytes.{IsBytes, header_bytes, frame_bytes};
ghost use Rattle.rds_model.specs.declared.entry.Entry.{Entry};
ghost use Rattle.rds_model.specs.declared.entry.Entry.TheVariants.{Pull, Read, Bad};
ghost use Rattle.rds_model.specs.declared.entry.Outcome.{Outcome};
ghost use Rattle.rds_model.specs.Past.{Moment, open_stream, newest_stream};
ghost use Rattle.rds_model.specs.Streams.{written_bytes, read_bytes};
ghost use Rattle.rds_model.specs.Deliveries.{delivered_datagrams, deliveries, put_bytes, port_bytes};
ghost use Rattle.rds_model.specs.Sums.{orders, maps, opens, endings, newest_pull};
ghost use Rattle.rds_model.specs.Bounded.{map_pulls, most_entries, IsBounded, TakesMaps};
ghost use Rattle.rds_model.specs.Owed.{is_map, owed_frame};
ghost use Rattle.rds_model.specs.Legal.{IsLegal, IsWhole, IsMapPull};
ghost use Rattle.rds_model.specs.Honest.{Begins, IsHonest};
ghost use Rattle.rds_model.specs.Fifo.{IsFifo, HasNoBad};
ghost use Rattle.rds_model.specs.Alive.{alive_numbers};
ghost use Rattle.rds_model.specs.Pairs.{IsAllAccounted, IsDeliveredOnce, delivered, dropped, is_delivery_to, taken_back, taken_by_port_0};
ghost use Rattle.rds_model.specs.declared.order.Datagram.{Datagram};
ghost use Rattle.rds_model.specs.declared.order.Order.TheVariants as order;
ghost use Rattle.rds_model.specs.Drained.{IsQuiet, IsSettledBetween};
ghost use Rattle.rds_model.specs.Examples.{AreSound, frame, hello_sender, hello_receiver, cut_sender, cut_receiver, talk_first, talk_second, wronged};

use crate::Journal;

/// What two ends promise each other: whatever happened at each of them, if only both acted by the rules and each got a
/// beginning of the bytes that the other wrote to each stream, then for a port pair the datagrams delivered are accepted
/// ones, in order and each once, and each accepted one up to the last that arrived is accounted for.
pub fn headline(a: &Journal, b: &Journal)
    requires legal_a { IsLegal a.now.past }
    requires legal_b { IsLegal b.now.past }
    requires honest { IsHonest a.now.past b.now.past }
    ensures forth { (sport dport : ℕ) → IsDeliveredOnce sport dport a.now.past b.now.past }
    ensures back { (sport dport : ℕ) → IsDeliveredOnce sport dport b.now.past a.now.past }
{}

/// The same of all lists of entries.
pub fn headline_of_all()
    ensures { (a b : List Entry) → IsLegal a → IsLegal b → IsHonest a b → (sport dport : ℕ) → IsDeliveredOnce sport dport a b }
{}

/// Over the whole connection datagrams come first in, first out, and each once.
pub fn fifo(a: &Journal, b: &Journal)
    requires legal_a { IsLegal a.now.past }
    requires legal_b { IsLegal b.now.past }
    requires honest { IsHonest a.now.past b.now.past }
    ensures forth { IsFifo a.now.past b.now.past }
    ensures back { IsFifo b.now.past a.now.past }
{}

/// The same of all lists of entries.
pub fn fifo_of_all()
    ensures { (a b : List Entry) → IsLegal a → IsLegal b → IsHonest a b → (IsFifo a b × IsFifo b a) }
{}

/// Neither end refuses a header of the other.
pub fn no_bad(a: &Journal, b: &Journal)
    requires legal_a { IsLegal a.now.past }
    requires legal_b { IsLegal b.now.past }
    requires honest { IsHonest a.now.past b.now.past }
    ensures none_in_a { HasNoBad a.now.past }
    ensures none_in_b { HasNoBad b.now.past }
{}

/// The same of all lists of entries.
pub fn no_bad_of_all()
    ensures { (a b : List Entry) → IsLegal a → IsLegal b → IsHonest a b → (HasNoBad a × HasNoBad b) }
{}

/// Where nothing is in flight or owed on the open stream, no number is alive, and each end has read the other's last map.
pub fn drained(a: &Journal, b: &Journal)
    requires legal_a { IsLegal a.now.past }
    requires legal_b { IsLegal b.now.past }
    requires honest { IsHonest a.now.past b.now.past }
    ensures { (s : ℕ) → IsQuiet s a.now.past b.now.past → IsSettledBetween s a.now.past b.now.past }
{}

/// The same of all lists of entries.
pub fn drained_of_all()
    ensures { (a b : List Entry) → IsLegal a → IsLegal b → IsHonest a b → (s : ℕ) → IsQuiet s a b → IsSettledBetween s a b }
{}

/// Where none of a sender's numbers is alive, none is pending: each datagram that it accepted for a port pair was delivered to a slot,
/// found no socket, was taken by port 0, or was taken back and never arrived.
pub fn accounted(a: &Journal, b: &Journal)
    requires legal_a { IsLegal a.now.past }
    requires legal_b { IsLegal b.now.past }
    requires honest { IsHonest a.now.past b.now.past }
    requires none_alive { alive_numbers a.now.past ≡ [] }
    ensures { (sport dport : ℕ) → IsAllAccounted sport dport a.now.past b.now.past }
{}

/// The same of all lists of entries.
pub fn accounted_of_all()
    ensures { (a b : List Entry) → IsLegal a → IsLegal b → IsHonest a b → alive_numbers a ≡ [] → (sport dport : ℕ) → IsAllAccounted sport dport a b }
{}

/// What is owed and what may be pulled are one rule: the frame that is owed for a map may be pulled; where nothing is owed,
/// only another map may be; and each frame that may be pulled is owed for some map.
pub fn owed_is_lawful()
    ensures lawful { (s : ℕ) (past : List Entry) (map : List ℕ) (f : Frame) → IsWhole past → open_stream past ≡ Some s →
        length map ≡ MAP_LENGTH → IsBytes map → owed_frame s past map ≡ Some f → IsWhole (Pull s f ∷ past) }
    ensures nothing { (s : ℕ) (past : List Entry) (map : List ℕ) (f : Frame) → owed_frame s past map ≡ None →
        IsWhole (Pull s f ∷ past) → IsMapPull s past f × (f.payload ≢ map) }
    ensures only { (s : ℕ) (past : List Entry) (f : Frame) → IsWhole (Pull s f ∷ past) →
        ((map : List ℕ) × (owed_frame s past map ≡ Some f)) }
{}

/// The premises of the laws are met: a plain run keeps all rules, and so does one with a cut in the middle of a payload, a
/// retransmission, an old copy and a cancellation, and one with data both ways, a ping and its pong, datagrams that reach
/// no socket, and acknowledgements that ask and answer. All three end quiet. A journal by itself shows what a peer without
/// rules may send.
pub fn examples()
    ensures hello { (map : List ℕ) → length map ≡ MAP_LENGTH → IsBytes map → AreSound (hello_sender map) (hello_receiver map) }
    ensures hello_quiet { (map : List ℕ) → IsQuiet 1 (hello_sender map) (hello_receiver map) }
    ensures cut { (map : List ℕ) → length map ≡ MAP_LENGTH → IsBytes map → AreSound (cut_sender map) (cut_receiver map) }
    ensures cut_quiet { (map : List ℕ) → IsQuiet 2 (cut_sender map) (cut_receiver map) }
    ensures talk { (map : List ℕ) → length map ≡ MAP_LENGTH → IsBytes map → AreSound (talk_first map) (talk_second map) }
    ensures talk_quiet { (map : List ℕ) → IsQuiet 1 (talk_first map) (talk_second map) }
    ensures wronged { IsWhole wronged }
{}

/// What becomes of the datagrams of the example runs. With the cut the receiver delivers what was accepted but for the
/// datagram that was taken back. With data both ways the ping and the datagram from port 0 to port 0 are taken by port 0,
/// the pong is delivered, and one datagram finds no socket.
pub fn example_fates()
    ensures delivered { (map : List ℕ) → delivered 4000 4001 (cut_receiver map) ≡ 1 ∷ 2 ∷ 4 ∷ [] }
    ensures taken_back { (map : List ℕ) → taken_back 4000 4002 (cut_sender map) ≡ 3 ∷ [] }
    ensures pinged { (map : List ℕ) → taken_by_port_0 4000 0 (talk_second map) ≡ 2 ∷ [] }
    ensures answered { (map : List ℕ) → delivered 0 4000 (talk_first map) ≡ 2 ∷ [] }
    ensures void { (map : List ℕ) → taken_by_port_0 0 0 (talk_second map) ≡ 4 ∷ [] }
    ensures dropped { (map : List ℕ) → dropped 4000 4009 (talk_second map) ≡ 3 ∷ [] }
{}

/// What the journals of the example runs add up to. A pong is no order. The two with a cut took 5 orders, opened 4 streams
/// and pulled 4 maps, which allow 77 entries; 200,000 orders and 2,054 streams allow fewer than a third of `MAX_ENTRIES`
/// beside the maps.
pub fn example_sums()
    ensures orders { (map : List ℕ) → orders (talk_second map) ≡ order.Send 0 4001 4000 (codes "back") ∷ [] }
    ensures close { orders wronged ≡ order.CloseSocket 0 ∷ [] }
    ensures received { (from : ℕ) (map : List ℕ) → delivered_datagrams from 0 (talk_first map) ≡
        record { from = from; sport = 4001; dport = 4000; payload = codes "back" }
        ∷ record { from = from; sport = 0; dport = 4000; payload = [] } ∷ [] }
    ensures count { (map : List ℕ) → deliveries 0 (talk_first map) ≡ 2 }
    ensures bytes { (map : List ℕ) → put_bytes 0 (cut_receiver map) ≡ 17 }
    ensures port { (map : List ℕ) → port_bytes 4002 0 (cut_receiver map) ≡ 0 }
    ensures maps { (map : List ℕ) → maps (cut_sender map) ≡ map ∷ [] }
    ensures opens { (map : List ℕ) → opens (cut_sender map) ≡ 1 ∷ 2 ∷ [] }
    ensures endings { (map : List ℕ) → endings (cut_sender map) ≡ 1 }
    ensures refused { endings wronged ≡ 1 }
    ensures pulled { (map : List ℕ) → map_pulls (cut_sender map) ≡ 2 }
    ensures takes { (map : List ℕ) → TakesMaps (λ version. map) (cut_sender map) 0 }
    ensures entries { (map : List ℕ) → length (cut_sender map) ≡ 17 }
    ensures most { most_entries 5 4 4 ≡ 77 }
    ensures large { (maps : ℕ) → most_entries 200000 2054 maps ≡ 1232604108 + maps }
    ensures newest { (map : List ℕ) → newest_pull 1 (cut_sender map) ≡ Some (frame 2 0 4000 4001 0 (codes "second")) }
{}

/// What a journal took, read and delivered stands in its later journals too, before what came since.
pub fn sums_grow()
    ensures orders { (earlier later : List Entry) → Moment earlier later → Begins (orders earlier) (orders later) }
    ensures delivered { (from slot : ℕ) (earlier later : List Entry) → Moment earlier later →
        Begins (delivered_datagrams from slot earlier) (delivered_datagrams from slot later) }
    ensures maps { (earlier later : List Entry) → Moment earlier later → Begins (maps earlier) (maps later) }
    ensures opens { (earlier later : List Entry) → Moment earlier later → Begins (opens earlier) (opens later) }
    ensures deliveries { (slot : ℕ) (earlier later : List Entry) → Moment earlier later → deliveries slot earlier ≤ deliveries slot later }
    ensures put { (slot : ℕ) (earlier later : List Entry) → Moment earlier later → put_bytes slot earlier ≤ put_bytes slot later }
    ensures endings { (earlier later : List Entry) → Moment earlier later → endings earlier ≤ endings later }
{}

/// No more is taken, read or delivered than the journal has entries, and a delivery has at most 1,048,576 bytes.
pub fn sums_are_bounded()
    ensures orders { (past : List Entry) → length (orders past) ≤ length past }
    ensures maps { (past : List Entry) → length (maps past) ≤ length past }
    ensures opens { (past : List Entry) → length (opens past) ≤ length past }
    ensures deliveries { (slot : ℕ) (past : List Entry) → deliveries slot past ≤ length past }
    ensures put { (slot : ℕ) (past : List Entry) → IsLegal past → put_bytes slot past ≤ MAX_LENGTH * length past }
    ensures port { (port slot : ℕ) (past : List Entry) → port_bytes port slot past ≤ put_bytes slot past }
{}

/// How many entries a journal has at most, by the orders that the two journals took, the streams that they opened and the
/// maps that they pulled: with o orders, w openings and m maps together, `o * (1 + 3 * w) + 2 * w + m`. Two ends can't
/// exchange acknowledgements without end, since a plain one asks for nothing. How many maps there are says `few_map_pulls`.
pub fn bounded(a: &Journal, b: &Journal)
    requires legal_a { IsLegal a.now.past }
    requires legal_b { IsLegal b.now.past }
    requires honest { IsHonest a.now.past b.now.past }
    ensures forth { IsBounded a.now.past b.now.past }
    ensures back { IsBounded b.now.past a.now.past }
{}

/// The same of all lists of entries.
pub fn bounded_of_all()
    ensures { (a b : List Entry) → IsLegal a → IsLegal b → IsHonest a b → (IsBounded a b × IsBounded b a) }
{}

/// How many maps a journal pulled at most. Where all are one map: as many as it opened streams. Where they are versions 0
/// to v of one that changes, and no pull went back to an earlier version: v more.
pub fn few_map_pulls()
    ensures one { (map : List ℕ) (past : List Entry) → IsLegal past →
        ((s : ℕ) (f : Frame) (p : List Entry) → Moment (Pull s f ∷ p) past → is_map f ≡ true → f.payload ≡ map) →
        map_pulls past ≤ length (opens past) }
    ensures versions { (versions : ℕ → List ℕ) (v : ℕ) (past : List Entry) → IsLegal past → TakesMaps versions past v →
        map_pulls past ≤ length (opens past) + v }
{}

/// A map that was pulled is 8,192 bytes.
pub fn pulled_maps()
    ensures { (s : ℕ) (f : Frame) (p past : List Entry) → IsLegal past → Moment (Pull s f ∷ p) past → is_map f ≡ true →
        (length f.payload ≡ MAP_LENGTH) × IsBytes f.payload }
{}

/// Streams have rising numbers from 1 on: where each number is at most `highest`, no more streams were opened.
pub fn few_streams()
    ensures { (highest : ℕ) (past : List Entry) → IsLegal past → All (λ s. s ≤ highest) (opens past) → length (opens past) ≤ highest }
{}

/// How the sums hang together: what was delivered to a slot is so many datagrams with so many bytes, and each stream that
/// was opened has ended, but for the open one.
pub fn sums_agree()
    ensures count { (from slot : ℕ) (past : List Entry) → length (delivered_datagrams from slot past) ≡ deliveries slot past }
    ensures bytes { (from slot : ℕ) (past : List Entry) →
        sum_by (λ (d : Datagram). length d.payload) (delivered_datagrams from slot past) ≡ put_bytes slot past }
    ensures port { (port slot : ℕ) (past : List Entry) →
        ((s : ℕ) (f : Frame) (o : Outcome) (p : List Entry) → Moment (Read s f o ∷ p) past → is_delivery_to slot o ≡ true → f.header.dport ≡ port) →
        port_bytes port slot past ≡ put_bytes slot past }
    ensures idle { (past : List Entry) → IsLegal past → open_stream past ≡ None → length (opens past) ≡ endings past }
    ensures running { (s : ℕ) (past : List Entry) → IsLegal past → open_stream past ≡ Some s → length (opens past) ≡ endings past + 1 }
{}

/// What went over a stream: nothing before it was opened, and with each entry on it so much more.
pub fn streams()
    ensures unwritten { (s : ℕ) (past : List Entry) → IsLegal past → newest_stream past < s → written_bytes s past ≡ [] }
    ensures unread { (s : ℕ) (past : List Entry) → IsLegal past → newest_stream past < s → read_bytes s past ≡ [] }
    ensures writer { (s : ℕ) (past : List Entry) → IsLegal past → written_bytes s past ≢ [] → Contains (opens past) s }
    ensures reader { (s : ℕ) (past : List Entry) → IsLegal past → read_bytes s past ≢ [] → Contains (opens past) s }
    ensures pulled { (s : ℕ) (f : Frame) (past : List Entry) → written_bytes s (Pull s f ∷ past) ≡ written_bytes s past ++ frame_bytes f }
    ensures pulled_other { (s other : ℕ) (f : Frame) (past : List Entry) → other ≢ s → written_bytes s (Pull other f ∷ past) ≡ written_bytes s past }
    ensures read { (s : ℕ) (f : Frame) (o : Outcome) (past : List Entry) → IsLegal past → open_stream past ≡ Some s →
        read_bytes s (Read s f o ∷ past) ≡ read_bytes s past ++ frame_bytes f }
    ensures read_other { (s other : ℕ) (f : Frame) (o : Outcome) (past : List Entry) → other ≢ s → read_bytes s (Read other f o ∷ past) ≡ read_bytes s past }
    ensures bad { (s : ℕ) (h : Header) (found : Malformed) (past : List Entry) → IsLegal past → open_stream past ≡ Some s →
        read_bytes s (Bad s h found ∷ past) ≡ read_bytes s past ++ header_bytes h }
    ensures bad_other { (s other : ℕ) (h : Header) (found : Malformed) (past : List Entry) → other ≢ s → read_bytes s (Bad other h found ∷ past) ≡ read_bytes s past }
    ensures newest { (s : ℕ) (f : Frame) (past : List Entry) → newest_pull s past ≡ Some f →
        ((front : List ℕ) × (written_bytes s past ≡ front ++ frame_bytes f)) }
{}
