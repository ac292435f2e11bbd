//! A small cache: what look-ups have found and is still so, which need not be looked up again.
ghost use Rattle.std.specs.Prelude.{◌≡◌, IfSome, IsTrue, option_map};
ghost use Rattle.registry_core.specs.Derived.{data_with};
ghost use Rattle.desk_rows.specs.Rows.{Rows};
ghost use Rattle.desk_tables.specs.Seen.{IsFloorOf, IsRoleOf, IsSeen, IsSessionAt, seen_after};

use radio_core::{Eui, Name};
use registry_core::{Role, Session};

/// The role of the sender of this name.
#[derive(Clone, Copy)]
pub(crate) struct SeenRole {
    pub(crate) name: Name,
    pub(crate) role: Role,
}

/// The session with this number.
#[derive(Clone, Copy)]
pub(crate) struct SeenSession {
    pub(crate) number: u64,
    pub(crate) session: Session,
}

/// The device's floor: the greatest number of a session of it that has a data uplink, if there is one.
#[derive(Clone, Copy)]
pub(crate) struct SeenFloor {
    pub(crate) device: Eui,
    pub(crate) floor: Option<u64>,
}

/// The last counter of the session's data uplinks.
#[derive(Clone, Copy)]
pub(crate) struct SeenCounter {
    pub(crate) session: u64,
    pub(crate) last: u32,
}

/// What was looked up last of each kind, if it was there and is still so.
#[derive(Clone, Copy)]
pub(crate) struct Seen {
    pub(crate) role: Option<SeenRole>,
    pub(crate) session: Option<SeenSession>,
    pub(crate) floor: Option<SeenFloor>,
    pub(crate) counter: Option<SeenCounter>,
}

/// The empty cache.
pub(crate) const NOTHING: Seen = Seen {
    role: None,
    session: None,
    floor: None,
    counter: None,
};

/// Returns what is cached of a look-up of the sender of this name.
pub(crate) fn seen_role(name: &Name, found: Option<Role>) -> Option<SeenRole>
    ensures { result ≡ option_map (λ role. record { name = name.now; role = role }) found }
{
    let role = found?;
    Some(SeenRole { name: *name, role })
}

/// Returns what is cached of a look-up of the device's floor.
pub(crate) fn seen_floor(device: Eui, found: Option<Option<u64>>) -> Option<SeenFloor>
    ensures { result ≡ option_map (λ floor. record { device = device; floor = floor }) found }
{
    let floor = found?;
    Some(SeenFloor { device, floor })
}

/// Returns what is cached of a look-up of the session's last counter.
pub(crate) fn seen_counter(session: u64, found: Option<u32>) -> Option<SeenCounter>
    ensures { result ≡ option_map (λ last. record { session = session; last = last }) found }
{
    let last = found?;
    Some(SeenCounter { session, last })
}

/// Returns what is cached of a look-up of the session with this number.
pub(crate) fn seen_session(number: u64, found: &Option<Session>) -> Option<SeenSession>
    ensures { result ≡ option_map (λ session. record { number = number; session = session }) found.now }
{
    match found {
        Some(session) => Some(SeenSession {
            number,
            session: *session,
        }),
        None => None,
    }
}

impl Seen {
    /// Returns the role of the sender of this name, if it is cached.
    pub(crate) fn role_seen(&self, name: &Name) -> Option<Role>
        ensures { (r : Rows) → IsSeen r self.now → IfSome result (IsRoleOf r name.now) }
    {
        match self.role {
            Some(seen) if seen.name == *name => Some(seen.role),
            _ => None,
        }
    }

    /// Returns what is still so after a commit: a sender's role never changes.
    pub(crate) fn after_commit(&self) -> Seen
        ensures { result ≡ seen_after self.now }
    {
        Seen {
            role: self.role,
            ..NOTHING
        }
    }

    /// Returns the session with this number, if it is cached.
    pub(crate) fn session_seen(&self, number: u64) -> Option<Session>
        ensures { (r : Rows) → IsSeen r self.now → IfSome result (IsSessionAt r number) }
    {
        match self.session {
            Some(seen) if seen.number == number => Some(seen.session),
            _ => None,
        }
    }

    /// Returns the floor of this device, if it is cached.
    pub(crate) fn floor_seen(&self, device: Eui) -> Option<Option<u64>>
        ensures { (r : Rows) → IsSeen r self.now → IfSome result (IsFloorOf r device) }
    {
        match self.floor {
            Some(seen) if seen.device == device => Some(seen.floor),
            _ => None,
        }
    }

    /// Returns whether the session's last counter is cached, and this one is above it.
    pub(crate) fn is_after(&self, session: u64, counter: u32) -> bool
        ensures { (r : Rows) → IsSeen r self.now → IsTrue result → data_with r.uplinks session counter ≡ None }
    {
        match self.counter {
            Some(seen) => seen.session == session && seen.last < counter,
            None => false,
        }
    }
}
