//! The handle that a caller in C holds: one pointer.
ghost use Rattle.std.specs.Prelude.{◌≡◌, Option, Some, None, is_some, true};
ghost use Rattle.std.specs.Coded.{coded_option};
ghost use Rattle.zvt_c.specs.Codes.{end_code};
ghost use Rattle.zvt_c.specs.declared.session.Session.{Session};

use crate::raw_box::RawBox;
use crate::session::Session;
use std::alloc::Global;
use std::marker::Model;

/// A pointer to a session, or null if the handle is closed. The caller owns the session.
#[repr(C)]
#[derive(Drop)]
pub struct RawHandle {
    at: *mut u8,
    pub(crate) ghost held: { Option Session } by { coded_option end_code },
}

impl Model for RawHandle {
    ghost use Rattle.zvt_c.specs.Owned.{owned};

    ghost also_owns = { λ h. owned h.at h.held };
}

impl RawHandle {
    /// Returns the handle of a session.
    pub(crate) fn of(boxed: RawBox<Session, Global>) -> RawHandle
        ensures { result.held ≡ Some boxed.value }
    {
        let RawBox { at, alloc } = boxed;
        RawHandle { at: at as *mut u8 }
    }

    /// Returns the session of an open handle.
    pub(crate) fn into_raw_box(self, alloc: Global) -> RawBox<Session, Global>
        requires { is_some self.held ≡ true }
        ensures { self.held ≡ Some result.value }
    {
        let RawHandle { at } = self;
        RawBox {
            at: at as *mut Session,
            alloc,
        }
    }

    /// Returns a closed handle: a null pointer.
    pub(crate) fn closed() -> RawHandle
        ensures { result.held ≡ None }
    {
        RawHandle {
            at: std::ptr::null_mut(),
        }
    }
}
