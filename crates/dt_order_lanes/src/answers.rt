//! What an answer is to the client.
ghost use Rattle.std.specs.Prelude.{◌≡◌, ◌≢◌, ◌↔◌, ◌≤◌, IsTrue, Some};
ghost use Rattle.dt_orders_model.specs.Lanes.{hearing_of, is_fork, is_now, is_same_attempt, is_same_known, is_same_opening, is_usable, known_after, newer};

use dt_orders_model::{Answer, Attempt, Called, Client, Hearing, Known, Word};

fn is_same_opening(one: &Known, other: &Known) -> bool
    ensures { result ≡ is_same_opening one.now other.now }
{
    one.opening == other.opening && one.nonce == other.nonce
}

fn is_same_known(one: &Known, other: &Known) -> bool
    ensures { result ≡ is_same_known one.now other.now }
{
    is_same_opening(one, other) && one.clock == other.clock
}

fn is_same_attempt(one: Attempt, other: Attempt) -> bool
    ensures { result ≡ is_same_attempt one other }
{
    one.nonce == other.nonce && one.count == other.count
}

/// Whether a call carried what is known now.
fn is_now(known: &Option<Known>, knows: &Option<Known>) -> bool
    ensures { result ≡ is_now known.now knows.now }
{
    match known {
        None => match knows {
            None => true,
            Some(_) => false,
        },
        Some(known) => match knows {
            None => false,
            Some(knows) => is_same_known(known, knows),
        },
    }
}

/// Whether an answer may be used: one of another opening than the known one may only if its call carried what
/// is known now. Else newer knowledge could hide that the server's store was set back.
fn is_usable(known: &Option<Known>, knows: &Option<Known>, heard: &Known) -> bool
    ensures { result ≡ is_usable known.now knows.now heard.now }
{
    match known {
        None => true,
        Some(it) => is_same_opening(it, heard) || is_now(known, knows),
    }
}

fn is_fork(word: Word) -> bool
    ensures { result ≡ is_fork word }
{
    match word {
        Word::Forked => true,
        Word::Done
        | Word::Never
        | Word::AtWork
        | Word::NotNow
        | Word::Old
        | Word::Stale
        | Word::Hello
        | Word::Told => false,
    }
}

/// What an answer is to the client. A refusal for a set back counts only if the call carried what is known
/// now: a late one is unsure.
pub fn hear(client: &Client, called: &Called, answer: &Answer) -> Hearing
    ensures { result ≡ hearing_of client.now.known called.now answer.now }
{
    if !is_same_attempt(called.attempt, answer.attempt) {
        return Hearing::Strange;
    }
    if is_fork(answer.word) {
        if is_now(&client.known, &called.knows) {
            return Hearing::Alarm;
        }
        return Hearing::Unsure;
    }
    if is_usable(&client.known, &called.knows, &answer.heard) {
        Hearing::Used
    } else {
        Hearing::Unsure
    }
}

/// The newer of what is known and what was heard.
fn newer(known: &Option<Known>, heard: &Known) -> Known
    ensures { result ≡ newer known.now heard.now }
{
    match known {
        None => *heard,
        Some(known) => {
            if is_same_opening(known, heard) && heard.clock <= known.clock {
                *known
            } else {
                *heard
            }
        }
    }
}

/// What the client knows after an answer. The program stores `known` with the next record, at the latest with
/// the next fate.
pub fn learn(client: &Client, hearing: Hearing, answer: &Answer) -> Client
    ensures { result ≡ known_after client.now hearing answer.now }
{
    let mut client = *client;
    match hearing {
        Hearing::Used => client.known = Some(newer(&client.known, &answer.heard)),
        Hearing::Alarm => client.stopped = Some(answer.heard),
        Hearing::Strange | Hearing::Unsure => (),
    }
    client
}
