//! A client of one lane in memory, which does what the client's half says.
use dt_order_lanes::{adopt, call, cancel, give, hear, learn, made, reopen, take, unsure};
use dt_orders_model::{
    Answer, Attempt, Called, Client, Fate, Hearing, Kind, Known, Lane, Sending, Word,
};

/// A client with its lane, the call that waits and the call before it, its last record and how many are stored.
#[derive(Drop)]
pub struct Caller {
    client: Client,
    lane: Lane,
    waiting: Option<Called>,
    before: Attempt,
    count: u32,
    written: u64,
    stored: u64,
}

/// What a call looks like.
pub struct Look {
    pub kind: Kind,
    pub number: u64,
    pub tag: u64,
    pub since: Known,
    pub knows: Option<Known>,
}

/// What happens at the client, and what is to be seen of it.
pub enum Event {
    /// It gives an order, which is noted.
    Give(u64),
    /// It gives an order, which is refused.
    Refuse(u64),
    /// All records are stored.
    Store,
    /// Nothing may be called.
    Idle,
    /// It calls: the call looks so, and is sent.
    Call(Look),
    /// It calls, and the call is declined.
    Decline(Look),
    /// The waiting call is answered: the word, its value, the commit that was heard, what the answer is to the
    /// client, and the fate of the order.
    Hear(Word, u64, Known, Hearing, Option<Fate>),
    /// An answer to the call before the waiting one comes: it is strange.
    HearLate(Word, Known),
    /// The waiting call gets no answer.
    Lose,
    /// It cancels its order, which may have its fate at once.
    Cancel(Option<Fate>),
    /// It dies and opens its store with this nonce.
    Die(u64),
    /// It adopts a set back of its server.
    Adopt,
    /// It knows this of its server.
    Knows(Known),
}

const EMPTY: Lane = Lane {
    last: 0,
    order: None,
    is_fresh: false,
    is_cancelled: false,
    is_calling: false,
    record_number: 0,
};

impl Caller {
    /// A client whose opening has this nonce, and that heard of this commit.
    pub fn new(nonce: u64, known: Known, is_once: bool) -> Caller {
        Caller {
            client: Client {
                nonce,
                known: Some(known),
                stopped: None,
                is_once,
            },
            lane: EMPTY,
            waiting: None,
            before: Attempt { nonce, count: 0 },
            count: 0,
            written: 0,
            stored: 0,
        }
    }

    /// Does what happens. Whether it went as it should.
    pub fn does(&mut self, event: &Event) -> bool {
        match event {
            Event::Give(uid) => self.gives(*uid),
            Event::Refuse(uid) => !self.gives(*uid),
            Event::Store => {
                self.stored = self.written;
                true
            }
            Event::Idle => self.next_call().is_none(),
            Event::Call(look) => self.calls(look, Sending::Sent),
            Event::Decline(look) => self.calls(look, Sending::Declined),
            Event::Hear(word, value, heard, hearing, fate) => {
                self.hears(*word, *value, *heard, *hearing) == *fate
            }
            Event::HearLate(word, heard) => self.is_strange(*word, *heard),
            Event::Lose => {
                self.waiting = None;
                self.lane = unsure(&self.lane);
                true
            }
            Event::Cancel(fate) => self.cancels() == *fate,
            Event::Die(nonce) => {
                self.client.nonce = *nonce;
                self.waiting = None;
                self.lane = reopen(&self.lane);
                true
            }
            Event::Adopt => {
                self.client = adopt(&self.client);
                true
            }
            Event::Knows(known) => self.client.known == Some(*known),
        }
    }

    fn gives(&mut self, uid: u64) -> bool {
        if self.lane.last > 1000 || self.written > 1000 {
            return false;
        }
        match give(&self.client, &self.lane, uid, self.written + 1) {
            Some(lane) => {
                self.written += 1;
                self.lane = lane;
                true
            }
            None => false,
        }
    }

    fn next_call(&self) -> Option<Called> {
        let attempt = Attempt {
            nonce: self.client.nonce,
            count: self.count,
        };
        call(&self.client, &self.lane, self.stored, attempt)
    }

    fn calls(&mut self, look: &Look, sending: Sending) -> bool {
        if self.count > 1000 {
            return false;
        }
        match self.next_call() {
            Some(called) => {
                self.lane = made(&self.lane, sending);
                if let Sending::Sent = sending {
                    self.count += 1;
                    self.waiting = Some(called);
                }
                is_seen(&called, look)
            }
            None => false,
        }
    }

    fn hears(&mut self, word: Word, value: u64, heard: Known, hearing: Hearing) -> Option<Fate> {
        if value > 1000 || self.written > 1000 {
            return None;
        }
        let called = self.waiting?;
        let answer = Answer {
            word,
            value,
            heard,
            attempt: called.attempt,
        };
        self.before = called.attempt;
        self.waiting = None;
        self.ends(&called, &answer, hearing)
    }

    fn ends(&mut self, called: &Called, answer: &Answer, hearing: Hearing) -> Option<Fate> {
        let is = hear(&self.client, called, answer);
        if is != hearing || answer.value > 1000 || self.written > 1000 {
            return None;
        }
        self.client = learn(&self.client, is, answer);
        if is != Hearing::Used {
            self.lane = unsure(&self.lane);
            return None;
        }
        self.written += 1;
        let left = take(&self.client, &self.lane, called, answer, self.written);
        self.lane = left.lane;
        left.fate
    }

    fn is_strange(&self, word: Word, heard: Known) -> bool {
        match &self.waiting {
            Some(called) => {
                let answer = Answer {
                    word,
                    value: 0,
                    heard,
                    attempt: self.before,
                };
                hear(&self.client, called, &answer) == Hearing::Strange
            }
            None => false,
        }
    }

    fn cancels(&mut self) -> Option<Fate> {
        let left = cancel(&self.lane);
        self.lane = left.lane;
        left.fate
    }
}

/// Whether a call looks so.
fn is_seen(called: &Called, look: &Look) -> bool {
    let is_kind = match called.kind {
        Kind::Order => matches!(look.kind, Kind::Order),
        Kind::Cancel => matches!(look.kind, Kind::Cancel),
        Kind::Ask => false,
    };
    is_kind
        && called.number == look.number
        && called.tag == look.tag
        && called.since == look.since
        && called.knows == look.knows
}
