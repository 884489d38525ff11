//! What a caller gave with its calls, kept until their ends are taken.
ghost use Rattle.std.specs.Prelude.{◌≡◌, false, true, OnErr, OnOk};
ghost use Rattle.dt_c.specs.Users.{Ends, HasUser, Keeps, no_users, number_ended, number_kept, user_ended, user_of};

use dt_items::NoMemory;
use dt_service_model::{CallNumber, Happening, Made};
use indexmap::IndexMap;
use std::alloc::Global;
use std::marker::Model;

/// What a caller gave with each call whose end it hasn't taken, by the number of the call. The cost of each
/// operation is that of a look-up.
#[derive(Drop)]
pub struct CallUsers {
    /// None until the first call: a handle without a service has no allocator.
    by_call: Option<IndexMap<u64, u64>>,
    has_room: bool,
}

impl Model for CallUsers {
    ghost use Rattle.std.specs.Prelude.{◌≡◌, ◌<◌, true};
    ghost use Rattle.dt_c.specs.Users.{Users, given_in, room_in};

    ghost Value = { Users };

    ghost view = { λ u. record { given = given_in u.by_call; has_room = u.has_room } };

    ghost invariant = { λ u. u.has_room ≡ true → 0 < room_in u.by_call };
}

impl CallUsers {
    /// None.
    pub fn new() -> CallUsers
        ensures { result ≡ no_users }
    {
        CallUsers {
            by_call: None,
            has_room: false,
        }
    }

    /// Sees to it that there is room for one more. `NoMemory` leaves all as it was.
    pub fn hold(&mut self, alloc: Global) -> Result<(), NoMemory>
        ensures room { OnOk result (self.new ≡ record self.old { has_room = true }) }
        ensures same { OnErr result (self.new ≡ self.old) }
    {
        let mut by_call = match self.by_call.take() {
            Some(by_call) => by_call,
            None => IndexMap::new(alloc),
        };
        let held = by_call.reserve(1);
        self.by_call = Some(by_call);
        held?;
        self.has_room = true;
        Ok(())
    }

    /// A call with this number was given this.
    pub fn put(&mut self, call: u64, user: u64)
        requires { self.old.has_room ≡ true }
        ensures { HasUser call user self.old self.new }
    {
        if let Some(by_call) = &mut self.by_call {
            let _ = by_call.insert(call, user);
        }
        self.has_room = false;
    }

    /// What the call with this number was given, or 0. It is kept no more.
    pub fn take(&mut self, call: u64) -> u64
        ensures given { result ≡ user_of call self.old }
        ensures taken { HasUser call 0 self.old self.new }
    {
        match &mut self.by_call {
            Some(by_call) => by_call.swap_remove(&call).unwrap_or(0),
            None => 0,
        }
    }
}

/// The call that is kept, by what was answered to it, where `next` is the number that it has if it is made.
fn number_kept(made: &Made, next: Option<CallNumber>) -> Option<CallNumber>
    ensures { result ≡ number_kept made.now next }
{
    match made {
        Made::Call(number) => Some(*number),
        Made::NoMemory => next,
        Made::Declined(_) | Made::Refused(_) => None,
    }
}

/// What a call was given is kept until its end is taken, if it was or may have been made.
pub fn keep_user(users: &mut CallUsers, made: &Made, next: Option<CallNumber>, user: u64)
    requires { users.old.has_room ≡ true }
    ensures { Keeps (number_kept made.now next) user users.old users.new }
{
    if let Some(number) = number_kept(made, next) {
        users.put(number.to_u64(), user);
    }
}

/// The call that ends with what happened, if one does.
fn number_ended(happening: &Happening) -> Option<CallNumber>
    ensures { result ≡ number_ended happening.now }
{
    match happening {
        Happening::Answered { call, .. } | Happening::Unsure { call, .. } => Some(*call),
        Happening::Request { .. } | Happening::ReplyUncertain { .. } => None,
    }
}

/// What the call was given that ends with what happened, or 0 where none ends. It is kept no more.
pub fn take_user(users: &mut CallUsers, happening: &Happening) -> u64
    ensures user { result ≡ user_ended (number_ended happening.now) users.old }
    ensures taken { Ends (number_ended happening.now) users.old users.new }
{
    match number_ended(happening) {
        Some(number) => users.take(number.to_u64()),
        None => 0,
    }
}
