//! The end of a node.
ghost use Rattle.std.specs.Prelude.{◌≡◌};
ghost use Rattle.dt_service_model.specs.Ends.{close};

use crate::call_book::CallBook;

impl CallBook {
    /// The node closes. It takes no memory.
    pub fn close(&mut self)
        ensures { self.new ≡ close self.old }
    {
        self.closed = true;
        self.calls.keep_waiting();
        self.tokens.clear();
        self.begun.clear();
        self.unread.clear();
    }

    /// Whether it was closed.
    pub fn is_closed(&self) -> bool
        ensures { result ≡ self.now.closed }
    {
        self.closed
    }
}
