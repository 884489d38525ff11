//! A server of two lanes in memory, which does what the server's half says.
use dt_orders_model::{Asked, Known, Meta, Opening, Place, Places, Row, RowState, Verdict};
use dt_registers::{finish_row, forget_row, judge, open_store, place, touch_row, write_row};

/// The row of a lane.
pub type Lanes = [Option<Row>; 2];

/// A server with its store, and an older state of it.
#[derive(Drop)]
pub struct Server {
    meta: Meta,
    openings: [Option<Opening>; 4],
    rows: Lanes,
    old_meta: Meta,
    old_rows: Lanes,
    strict: bool,
}

/// What happens at the server, and what is to be seen of it.
pub enum Step {
    /// It starts with this nonce, and its clock is this then.
    Start(u64, u64),
    /// It handles a request on this lane, with this verdict, and its clock is this then. Orders that are executed
    /// are done at once.
    Handle(usize, Asked, Verdict, u64),
    /// The same, of an order whose handler fails.
    Fail(usize, Asked, Verdict, u64),
    /// The same, of an order that stays at work.
    Begin(usize, Asked, Verdict, u64),
    /// The order of this lane gets its result, and the clock is this then.
    Finish(usize, u64),
    /// The row of this lane is forgotten, and the horizon is this then.
    Forget(usize, u64),
    /// The present state is kept as the older one.
    Keep,
    /// The store is set back to the older state.
    SetBack,
}

/// An empty store, before its first opening: clock 0.
const EMPTY: Meta = Meta {
    clock: 0,
    horizon: 0,
    opening: 0,
    nonce: 0,
};

impl Server {
    /// A server whose first opening has this nonce.
    pub fn new(nonce: u64, strict: bool) -> Server {
        let first = Opening { nonce, first: 1 };
        let meta = Meta {
            clock: 1,
            horizon: 0,
            opening: 0,
            nonce,
        };
        Server {
            meta,
            openings: [Some(first), None, None, None],
            rows: [None, None],
            old_meta: EMPTY,
            old_rows: [None, None],
            strict,
        }
    }

    /// Does a step. Whether it went as it should.
    pub fn does(&mut self, step: &Step) -> bool {
        if self.meta.clock > 1000 {
            return false;
        }
        match step {
            Step::Start(nonce, clock) => self.start(*nonce) && self.meta.clock == *clock,
            Step::Handle(lane, asked, verdict, clock) => {
                self.handle(*lane, asked, Some(RowState::Done)) == Some(*verdict)
                    && self.meta.clock == *clock
            }
            Step::Fail(lane, asked, verdict, clock) => {
                self.handle(*lane, asked, None) == Some(*verdict) && self.meta.clock == *clock
            }
            Step::Begin(lane, asked, verdict, clock) => {
                self.handle(*lane, asked, Some(RowState::AtWork)) == Some(*verdict)
                    && self.meta.clock == *clock
            }
            Step::Finish(lane, clock) => self.finish(*lane) && self.meta.clock == *clock,
            Step::Forget(lane, horizon) => self.forget(*lane) && self.meta.horizon == *horizon,
            Step::Keep => {
                self.old_meta = self.meta;
                self.old_rows = self.rows;
                true
            }
            Step::SetBack => {
                self.meta = self.old_meta;
                self.rows = self.old_rows;
                true
            }
        }
    }

    fn start(&mut self, nonce: u64) -> bool {
        if self.meta.opening >= 3 || self.meta.clock > 1000 {
            return false;
        }
        let opened = open_store(&self.meta, nonce);
        self.meta = opened.meta;
        let at = opened.meta.opening as usize;
        if at < 4 {
            self.openings[at] = Some(opened.opening);
        }
        true
    }

    fn opening(&self, number: usize) -> Option<Opening> {
        if number < 4 && number <= self.meta.opening as usize {
            self.openings[number]
        } else {
            None
        }
    }

    fn place(&self, heard: &Known) -> Place {
        let number = heard.opening as usize;
        let here = self.opening(number);
        let next = self.opening(number + 1);
        place(&self.meta, heard, &here, &next)
    }

    fn judged(&self, row: &Option<Row>, asked: &Asked) -> Verdict {
        let since = self.place(&asked.since);
        let knows = match &asked.knows {
            Some(knows) => self.place(knows),
            None => since,
        };
        let places = Places { since, knows };
        judge(&self.meta, row, asked, &places, self.strict)
    }

    fn handle(
        &mut self,
        lane: usize,
        asked: &Asked,
        executed: Option<RowState>,
    ) -> Option<Verdict> {
        if lane >= 2 || self.meta.clock > 1000 {
            return None;
        }
        let row = self.rows[lane];
        let verdict = self.judged(&row, asked);
        let written = match verdict {
            Verdict::Execute => executed.map(|state| write_row(&self.meta, &row, asked, state)),
            Verdict::Cancel => Some(write_row(&self.meta, &row, asked, RowState::Cancelled)),
            Verdict::Touch => row.map(|row| touch_row(&self.meta, &row)),
            _ => None,
        };
        if let Some(written) = written {
            self.meta = written.meta;
            self.rows[lane] = Some(written.row);
        }
        Some(verdict)
    }

    fn finish(&mut self, lane: usize) -> bool {
        if lane >= 2 || self.meta.clock > 1000 {
            return false;
        }
        match self.rows[lane] {
            Some(row) => match finish_row(&self.meta, &row) {
                Some(written) => {
                    self.meta = written.meta;
                    self.rows[lane] = Some(written.row);
                    true
                }
                None => false,
            },
            None => false,
        }
    }

    fn forget(&mut self, lane: usize) -> bool {
        if lane >= 2 || self.meta.clock > 1000 {
            return false;
        }
        match self.rows[lane] {
            Some(row) => match forget_row(&self.meta, &row) {
                Some(meta) => {
                    self.meta = meta;
                    self.rows[lane] = None;
                    true
                }
                None => false,
            },
            None => false,
        }
    }
}
