//! What the first word of a line's rest stands for, in the place of a host or a number, and the rest after it.

ghost use Rattle.std.specs.Prelude.{◌≡◌, ◌+◌, ◌≤◌, [], ◌∷◌, IfOk, IfSome};
ghost use Rattle.rds_script.specs.Text.{words};
ghost use Rattle.rds_script.specs.Line.{first_of, the_number};
ghost use Rattle.rds_script.specs.Reading as reading;
ghost use Rattle.rds_script.specs.Reading.{Gives};

use crate::Cause;
use crate::line::first_word;

/// The host that a word is: a letter from A on, as many as there are hosts.
#[tactic(auto, unfolding(crate::specs::Reading::host_of))]
fn host_of(hosts: u8, word: &[u8]) -> Option<u8>
    ensures value { result ≡ reading.host_of hosts word.now }
    ensures letter { IfSome result (λ n. word.now ≡ (65 + n) ∷ []) }
{
    match word {
        [letter] if *letter >= b'A' && *letter - b'A' < hosts => Some(*letter - b'A'),
        _ => None,
    }
}

/// A host.
#[tactic(auto, unfolding(crate::specs::Reading::host_value))]
pub(crate) fn host_at(hosts: u8, line: &[u8]) -> Result<(u8, &[u8]), Cause>
    ensures value { Gives (λ r. (the_number r.0, words r.1.now)) result
        (reading.host_value hosts (words line.now)) }
    ensures letter { IfOk result (λ r. first_of (words line.now) ≡ (65 + r.0) ∷ []) }
{
    let (word, rest) = first_word(line);
    match host_of(hosts, word) {
        Some(host) => Ok((host, rest)),
        None => Err(Cause::Host),
    }
}

/// A host other than this one.
#[tactic(auto, unfolding(crate::specs::Reading::peer_at))]
pub(crate) fn peer_at(hosts: u8, host: u8, line: &[u8]) -> Result<(u8, &[u8]), Cause>
    ensures { Gives (λ r. (the_number r.0, words r.1.now)) result
        (reading.peer_at hosts ((65 + host) ∷ []) (words line.now)) }
{
    let (peer, rest) = host_at(hosts, line)?;
    if peer == host {
        return Err(Cause::SameHost);
    }
    Ok((peer, rest))
}

/// The value of 1 to 10 decimal digits.
#[tactic(auto, unfolding(crate::specs::Reading::numeral_of))]
pub(crate) fn number_of(word: &[u8]) -> Option<u64>
    ensures { result ≡ reading.numeral_of word.now }
{
    if word.is_empty() || word.len() > 10 {
        return None;
    }
    let mut value = 0;
    for digit in word {
        if !digit.is_ascii_digit() {
            return None;
        }
        value = value * 10 + u64::from(*digit - b'0');
    }
    Some(value)
}

/// A number from `low` to `high`.
#[tactic(auto, unfolding(crate::specs::Reading::number_at))]
pub(crate) fn number_at(low: u32, high: u32, line: &[u8]) -> Result<(u32, &[u8]), Cause>
    ensures value { Gives (λ r. (the_number r.0, words r.1.now)) result
        (reading.number_at low high (words line.now)) }
    ensures within { IfOk result (λ r. r.0 ≤ high) }
{
    let (word, rest) = first_word(line);
    match number_of(word) {
        Some(value) if value >= u64::from(low) && value <= u64::from(high) => {
            Ok((value as u32, rest))
        }
        _ => Err(Cause::Number),
    }
}

/// A port.
pub(crate) fn port_at(line: &[u8]) -> Result<(u16, &[u8]), Cause>
    ensures { Gives (λ r. (the_number r.0, words r.1.now)) result
        (reading.number_at 0 65535 (words line.now)) }
{
    let (port, rest) = number_at(0, 65_535, line)?;
    Ok((port as u16, rest))
}

/// The end of a line: no word is left.
pub(crate) fn end_at(line: &[u8]) -> Result<(), Cause>
    ensures { Gives (λ _. []) result (reading.end_at (words line.now)) }
{
    if !first_word(line).0.is_empty() {
        return Err(Cause::Words);
    }
    Ok(())
}
