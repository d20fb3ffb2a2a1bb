//! What C holds of a session.

ghost use Rattle.std.specs.Prelude.{◌≡◌};
ghost use Rattle.kinolavust_c.specs.declared.opened.Session.{Session};
ghost use Rattle.kinolavust_c.specs.Owned.{handle_owns, session_coded};

mod parts;

use crate::opened::Session;
use parts::Parts;
use std::alloc::Global;
use std::marker::Model;

/// The session that C holds, and gives by value. Its type names no other: C may not see what a session is made of.
#[repr(C)]
pub struct Handle {
    ptr: *mut u8,
    alloc: Global,
    pub ghost session: { Session } by { session_coded },
}

impl Model for Handle {
    ghost also_owns = { λ h. handle_owns h.alloc h.ptr h.session };
}

/// Where a session is given to C: the same bytes as a handle, which own nothing yet.
#[repr(C)]
#[derive(Drop)]
pub struct Given {
    ptr: *mut u8,
}

impl Given {
    /// Gives a session to C.
    pub fn put(&mut self, session: Box<Session>) {
        self.ptr = Box::into_raw(session) as *mut u8;
    }
}

impl Handle {
    fn into_parts(self) -> Parts<Session, Global>
        ensures { result.value ≡ self.session }
    {
        let Handle { ptr, alloc } = self;
        Parts {
            ptr: ptr as *mut Session,
            alloc,
        }
    }

    /// The session that C gave.
    pub fn into_box(self) -> Box<Session>
        ensures { result.value ≡ self.session }
    {
        self.into_parts().into_box()
    }
}
