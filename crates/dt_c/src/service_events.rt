//! What happened at a service, handed out into the caller's buffer.
ghost use Rattle.std.specs.Prelude.{◌≤◌, length};
ghost use Rattle.std.specs.Option.{ForSome};
ghost use Rattle.dt_service_model.specs.Carrying.{carried_by};
ghost use Rattle.dt_service_model.specs.Ends.{next};
ghost use Rattle.dt_c.specs.Serving.{TakesEvent};

use crate::c_structs::{BUFFER_TOO_SMALL, NONE, OK};
use crate::call_users::{CallUsers, take_user};
use crate::service_structs::{Event, fill_event, fill_event_without_room};
use dt_call_book::carried;
use dt_service::Service;

/// The next of what happened goes out. The buffer has room for what it carries.
fn hand_event(service: &mut Service, users: &mut CallUsers, buf: &mut [u8], out: &mut Event) -> u8
    requires { ForSome (next service.old.book).0 (λ happening. length (carried_by happening) ≤ length buf.old) }
    ensures { TakesEvent result buf.old buf.new out.old out.new users.old users.new service.old service.new }
{
    let Some(happening) = service.next() else {
        return NONE;
    };
    let octets = carried(&happening);
    buf[..octets.len()].copy_from_slice(octets);
    let user = take_user(users, &happening);
    fill_event(out, &happening, user);
    OK
}

/// The next of what happened goes out, where the buffer has room for what it carries.
pub fn take_event(
    service: &mut Service,
    users: &mut CallUsers,
    buf: &mut [u8],
    out: &mut Event,
) -> u8
    ensures { TakesEvent result buf.old buf.new out.old out.new users.old users.new service.old service.new }
{
    match service.next_size() {
        Some(len) if len > buf.len() => {
            fill_event_without_room(out, len);
            BUFFER_TOO_SMALL
        }
        _ => hand_event(service, users, buf, out),
    }
}
